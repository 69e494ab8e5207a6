//! What each name was entered for first.

ghost use Rattle.std.specs.Prelude.{◌≡◌, ℕ, None, Some, nat_eq, OnOk};
ghost use Rattle.indexmap.specs.IndexMap.{get};
ghost use Rattle.uc_meaning.specs.Lookup.{or_else};
ghost use Rattle.uc_rules.specs.Names.{only_if};

use indexmap::IndexMap;
use std::alloc::{AllocError, Global};

/// A thing for each name: the first that was entered.
#[derive(Drop)]
pub struct Firsts<T> {
    things: IndexMap<u32, T>,
}

impl<T: Copy> Firsts<T> {
    /// No names.
    pub fn new(alloc: Global) -> Firsts<T>
        ensures { (x : ℕ) → get nat_eq result.things x ≡ None }
    {
        Firsts {
            things: IndexMap::new(alloc),
        }
    }

    /// The thing of a name.
    pub fn get(&self, name: u32) -> Option<T>
        ensures { result ≡ get nat_eq self.now.things name }
    {
        self.things.get(&name).copied()
    }

    /// Enters a thing for a name, if there is one, and if the name has none yet.
    #[tactic(auto, using(crate::proofs::FirstEntries::entered_none))]
    pub fn enter(&mut self, name: u32, thing: Option<T>) -> Result<(), AllocError>
        ensures { OnOk result ((x : ℕ) → get nat_eq self.new.things x ≡ or_else (get nat_eq self.old.things x) (only_if (nat_eq name x) thing)) }
    {
        match thing {
            None => Ok(()),
            Some(thing) => self.enter_one(name, thing),
        }
    }

    fn enter_one(&mut self, name: u32, thing: T) -> Result<(), AllocError>
        ensures { OnOk result ((x : ℕ) → get nat_eq self.new.things x ≡ or_else (get nat_eq self.old.things x) (only_if (nat_eq name x) (Some thing))) }
    {
        if self.get(name).is_some() {
            return Ok(());
        }
        self.things.insert(name, thing)?;
        Ok(())
    }
}
