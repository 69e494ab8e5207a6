//! What is found in the body of a define.

ghost use Rattle.std.specs.Prelude.{◌≡◌, ◌||◌, ℕ, Bool, false, OnOk};
ghost use Rattle.uc_cycles.specs.Found.{Adds, reads_found};

use std::alloc::{AllocError, Global};
use uc_items::Items;

/// Whether state is read outside defines, and the names that are applied.
#[derive(Drop)]
pub(crate) struct Found {
    state: bool,
    applied: Items<u32>,
}

impl Found {
    /// Nothing.
    pub(crate) fn new(alloc: Global) -> Found
        ensures { (by : ℕ → Bool) → reads_found by result ≡ false }
    {
        Found {
            state: false,
            applied: Items::new(alloc),
        }
    }

    /// Notes whether a name is read that is state.
    pub(crate) fn note_state(&mut self, is_state: bool)
        ensures { Adds self.old self.new (λ by. is_state) }
    {
        self.state = self.state || is_state;
    }

    /// Notes a name that is applied.
    pub(crate) fn note_applied(&mut self, name: u32) -> Result<(), AllocError>
        ensures { OnOk result (Adds self.old self.new (λ by. by name)) }
    {
        self.applied.push(name)?;
        Ok(())
    }

    pub(crate) fn has_state(&self) -> bool
        ensures { result ≡ self.now.state }
    {
        self.state
    }

    pub(crate) fn applied(&self) -> &[u32]
        ensures { result.now ≡ self.now.applied }
    {
        self.applied.as_slice()
    }
}
