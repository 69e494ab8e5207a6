//! What is known of modules.

ghost use Rattle.std.specs.Prelude.{◌≡◌, ℕ, None, Some, if◌then◌else◌, nat_eq, OnOk};
ghost use Rattle.std.specs.Option.{option_copied};
ghost use Rattle.uc_module_writes.specs.Stepped.{summary_at, summary_by};

use crate::WrittenPairs;
use crate::places::ModulePlaces;
use indexmap::IndexMap;
use std::alloc::{AllocError, Global};

/// What the next blocks of modules write, by the places of the modules.
#[derive(Drop)]
pub struct Summaries {
    written: IndexMap<usize, WrittenPairs>,
}

impl Summaries {
    pub(crate) fn new(alloc: Global) -> Summaries
        ensures { (k : ℕ) → summary_at result k ≡ None }
    {
        Summaries {
            written: IndexMap::new(alloc),
        }
    }

    fn at(&self, place: usize) -> Option<&WrittenPairs>
        ensures { option_copied result ≡ summary_at self.now place }
    {
        self.written.get(&place)
    }

    /// What the module of a name writes, if that is known.
    pub(crate) fn of(&self, places: &ModulePlaces, name: u32) -> Option<&WrittenPairs>
        ensures { option_copied result ≡ summary_by places.now self.now name }
    {
        match places.get(name) {
            None => None,
            Some(place) => self.at(place),
        }
    }

    pub(crate) fn insert(&mut self, place: usize, written: WrittenPairs) -> Result<(), AllocError>
        ensures { OnOk result ((k : ℕ) → summary_at self.new k ≡ (if nat_eq place k then Some written else summary_at self.old k)) }
    {
        self.written.insert(place, written)?;
        Ok(())
    }
}
