//! Modules by their names, with a number each.

ghost use Rattle.std.specs.Prelude.{◌≡◌, ◌++◌, ◌∷◌, [], ℕ, None, Some, length, nat_eq, OnOk};
ghost use Rattle.uc_meaning.specs.Lookup.{or_else};
ghost use Rattle.uc_rules.specs.Names.{only_if};
ghost use Rattle.uc_cycles.specs.Numbers.{EntersName, KnowsNames, name_number};

use std::alloc::{AllocError, Global};
use uc_items::Items;
use uc_names::Firsts;

/// Names, each with its place among them.
#[derive(Drop)]
pub(crate) struct NameNumbers {
    numbers: Firsts<usize>,
    keys: Items<u32>,
}

impl NameNumbers {
    /// No names.
    pub(crate) fn new(alloc: Global) -> NameNumbers
        ensures { (x : ℕ) → name_number result x ≡ None }
    {
        let numbers = Firsts::new(alloc);
        let keys = Items::new(alloc);
        NameNumbers { numbers, keys }
    }

    /// The place of a name.
    pub(crate) fn get(&self, name: u32) -> Option<usize>
        ensures { result ≡ name_number self.now name }
    {
        self.numbers.get(name)
    }

    /// The names in their order.
    pub(crate) fn keys(&self) -> &[u32]
        ensures { result.now ≡ self.now.keys }
    {
        self.keys.as_slice()
    }

    /// Adds a name, where it is new.
    pub(crate) fn enter(&mut self, name: u32) -> Result<(), AllocError>
        ensures { OnOk result (KnowsNames self.old → EntersName name self.old self.new) }
    {
        match self.get(name) {
            Some(_) => Ok(()),
            None => {
                self.enter_new(name)?;
                Ok(())
            }
        }
    }

    fn enter_new(&mut self, name: u32) -> Result<(), AllocError>
        ensures numbers { OnOk result ((x : ℕ) → name_number self.new x ≡ or_else (name_number self.old x) (only_if (nat_eq name x) (Some (length self.old.keys)))) }
        ensures keys { OnOk result (self.new.keys ≡ self.old.keys ++ name ∷ []) }
    {
        self.numbers.enter(name, Some(self.keys.len()))?;
        self.keys.push(name)?;
        Ok(())
    }
}
