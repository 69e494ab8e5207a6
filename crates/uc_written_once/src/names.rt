//! The names of the instances that were stepped.

ghost use Rattle.std.specs.Prelude.{◌≡◌, ◌++◌, [], drop, length, take, OnErr, OnOk};
ghost use Rattle.uc_rules.specs.Names.{names_one_of};
ghost use Rattle.uc_type_names.specs.NameSets.{with_name};
ghost use Rattle.uc_written_once.specs.SteppedOnceWalks.{with_names};

use indexmap::IndexSet;
use std::alloc::{AllocError, Global};
use std::marker::Model;
use uc_items::Items;

/// Names by their numbers, each once, in the order in which they came.
#[derive(Drop)]
pub(crate) struct SteppedNames {
    names: IndexSet<u32>,
}

impl Model for SteppedNames {
    ghost use Rattle.std.specs.Prelude.{List, ℕ};

    ghost Value = { List ℕ };

    ghost view = { λ s. s.names.keys };
}

impl SteppedNames {
    pub(crate) fn new(alloc: Global) -> SteppedNames
        ensures { result ≡ [] }
    {
        SteppedNames {
            names: IndexSet::new(alloc),
        }
    }

    pub(crate) fn len(&self) -> usize
        ensures { result ≡ length self.now }
    {
        self.names.len()
    }

    pub(crate) fn contains(&self, name: u32) -> bool
        ensures { result ≡ names_one_of self.now name }
    {
        self.names.contains(&name)
    }

    /// Adds a name, at the end where it is new.
    pub(crate) fn insert(&mut self, name: u32) -> Result<(), AllocError>
        ensures ok { OnOk result (self.new ≡ with_name self.old name) }
        ensures err { OnErr result (self.new ≡ self.old) }
    {
        self.names.insert(name)?;
        Ok(())
    }

    /// Adds names.
    #[tactic(auto, using(crate::proofs::Adding::names_begin, crate::proofs::Adding::names_more, crate::proofs::Adding::names_end))]
    pub(crate) fn insert_all(&mut self, more: &[u32]) -> Result<(), AllocError>
        ensures { OnOk result (self.new ≡ with_names self.old more.now) }
    {
        for name in more {
            self.insert(*name)?;
        }
        Ok(())
    }

    /// Takes the names from a place on out, and adds them to those that are aside.
    pub(crate) fn put_aside(
        &mut self,
        start: usize,
        aside: &mut Items<u32>,
    ) -> Result<(), AllocError>
        ensures kept { OnOk result (self.new ≡ take start self.old) }
        ensures aside { OnOk result (aside.new ≡ aside.old ++ drop start self.old) }
    {
        add_from(self.names.as_slice(), start, aside)?;
        self.names.truncate(start);
        Ok(())
    }

    /// Takes the names from a place on out, and adds all that is aside and these again.
    pub(crate) fn join(&mut self, start: usize, aside: Items<u32>) -> Result<(), AllocError>
        ensures { OnOk result (self.new ≡ with_names (take start self.old) (aside ++ drop start self.old)) }
    {
        let mut all = aside;
        self.put_aside(start, &mut all)?;
        self.insert_all(all.as_slice())?;
        Ok(())
    }
}

/// Adds the names from a place on.
fn add_from(names: &[u32], start: usize, aside: &mut Items<u32>) -> Result<(), AllocError>
    ensures { OnOk result (aside.new ≡ aside.old ++ drop start names.now) }
{
    for k in start..names.len() {
        aside.push(names[k])?;
    }
    Ok(())
}
