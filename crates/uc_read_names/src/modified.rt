//! The names that a procedure may modify.

ghost use Rattle.std.specs.Prelude.{◌≡◌, IfOk};
ghost use Rattle.uc_rules.specs.Names.{names_one_of};
ghost use Rattle.uc_read_names.specs.Reading.{SameNames};

use std::alloc::{AllocError, Global};
use std::marker::Model;
use uc_items::Items;
use uc_type_names::NameSet;

/// The names that a procedure may modify, in the order in which it lists them.
#[derive(Drop)]
pub struct Modified {
    names: Items<u32>,
    known: NameSet,
}

impl Model for Modified {
    ghost use Rattle.std.specs.Prelude.{List, ℕ};
    ghost use Rattle.uc_read_names.specs.Reading.{SameNames};

    ghost Value = { List ℕ };

    ghost view = { λ m. m.names };

    ghost invariant = { λ m. SameNames m.names m.known };
}

impl Modified {
    /// The names of a list.
    pub fn of(alloc: Global, names: Items<u32>) -> Result<Modified, AllocError>
        ensures { IfOk result (λ m. m ≡ names) }
    {
        let known = known_names(alloc, names.as_slice())?;
        Ok(Modified { names, known })
    }

    /// Whether a name is one of them.
    pub fn contains(&self, name: u32) -> bool
        ensures { result ≡ names_one_of self.now name }
    {
        self.known.contains(name)
    }
}

#[tactic(auto, using(crate::proofs::Listed::same_begin, crate::proofs::Listed::same_more, crate::proofs::Listed::same_end))]
fn known_names(alloc: Global, names: &[u32]) -> Result<NameSet, AllocError>
    ensures { IfOk result (λ s. SameNames names.now s) }
{
    let mut known = NameSet::new(alloc);
    for name in names {
        known.insert(*name)?;
    }
    Ok(known)
}
