//! Sets of names.

ghost use Rattle.std.specs.Prelude.{◌≡◌, [], OnErr, OnOk};
ghost use Rattle.uc_rules.specs.Names.{names_one_of};
ghost use Rattle.uc_type_names.specs.NameSets.{with_name};

use indexmap::IndexSet;
use std::alloc::{AllocError, Global};
use std::marker::Model;

/// A set of names by their numbers, in the order in which they came.
#[derive(Drop)]
pub struct NameSet {
    names: IndexSet<u32>,
}

impl Model for NameSet {
    ghost use Rattle.std.specs.Prelude.{List, ℕ};

    ghost Value = { List ℕ };

    ghost view = { λ s. s.names.keys };
}

impl NameSet {
    /// No names.
    pub fn new(alloc: Global) -> NameSet
        ensures { result ≡ [] }
    {
        NameSet {
            names: IndexSet::new(alloc),
        }
    }

    /// Whether a name is in the set.
    pub fn contains(&self, name: u32) -> bool
        ensures { result ≡ names_one_of self.now name }
    {
        self.names.contains(&name)
    }

    /// Adds a name, at the end where it is new.
    pub fn insert(&mut self, name: u32) -> Result<(), AllocError>
        ensures ok { OnOk result (self.new ≡ with_name self.old name) }
        ensures err { OnErr result (self.new ≡ self.old) }
    {
        self.names.insert(name)?;
        Ok(())
    }
}
