//! Paths of instances.

ghost use Rattle.std.specs.Prelude.{◌≡◌, [], IfOk};

use smallvec::SmallVec;
use std::alloc::{AllocError, Global};
use std::marker::Model;

/// The names of the instances from main down, which contracts see as a list; main has the empty path.
#[derive(Drop)]
pub struct Path {
    names: SmallVec<u32, 4>,
}

impl Model for Path {
    ghost use Rattle.std.specs.Prelude.{List, ℕ};

    ghost Value = { List ℕ };

    ghost view = { λ p. p.names.items };
}

impl Path {
    /// The path of main.
    pub fn main(alloc: Global) -> Path
        ensures { result ≡ [] }
    {
        Path {
            names: SmallVec::new(alloc),
        }
    }

    pub fn from_slice(alloc: Global, names: &[u32]) -> Result<Path, AllocError>
        ensures { IfOk result (λ p. p ≡ names.now) }
    {
        let names = SmallVec::from_slice(alloc, names)?;
        Ok(Path { names })
    }

    pub fn as_slice(&self) -> &[u32]
        ensures { result.now ≡ self.now }
    {
        self.names.as_slice()
    }
}
