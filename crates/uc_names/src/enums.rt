//! The numbers of enums by the places where they are written.

ghost use Rattle.std.specs.Prelude.{◌≡◌, None, Some, IfOk, OnOk};
ghost use Rattle.uc_lexer.specs.declared.place.Place.{Place};
ghost use Rattle.uc_meaning.specs.Lookup.{or_else, same_place};
ghost use Rattle.uc_rules.specs.Names.{only_if};
ghost use Rattle.uc_names.specs.ModuleNamesNumbers.{number_at, AreNumbered};

use crate::place_key::PlaceKey;
use indexmap::IndexMap;
use std::alloc::{AllocError, Global};
use uc_syntax::Place;
use uc_type_names::WrittenEnum;

/// The number of the enum at a place: that of the first one there.
#[derive(Drop)]
pub(crate) struct EnumNumbers {
    numbers: IndexMap<PlaceKey, usize>,
}

impl EnumNumbers {
    fn new(alloc: Global) -> EnumNumbers
        ensures { (p : Place) → number_at result p ≡ None }
    {
        EnumNumbers {
            numbers: IndexMap::new(alloc),
        }
    }

    /// The numbers of some enums: their places in the list.
    pub(crate) fn of(alloc: Global, enums: &[WrittenEnum<'_>]) -> Result<EnumNumbers, AllocError>
        ensures { IfOk result (λ t. AreNumbered t enums.now) }
    {
        let mut numbers = EnumNumbers::new(alloc);
        for (number, written) in enums.iter().enumerate() {
            numbers.enter(written.place, number)?;
        }
        Ok(numbers)
    }

    fn enter(&mut self, place: Place, number: usize) -> Result<(), AllocError>
        ensures { OnOk result ((p : Place) → number_at self.new p ≡ or_else (number_at self.old p) (only_if (same_place p place) (Some number))) }
    {
        match self.get(place) {
            Some(_) => Ok(()),
            None => {
                let key = PlaceKey {
                    file: place.file,
                    line: place.line,
                    col: place.col,
                };
                self.numbers.insert(key, number)?;
                Ok(())
            }
        }
    }

    /// The number of the enum at a place.
    pub(crate) fn get(&self, place: Place) -> Option<usize>
        ensures { result ≡ number_at self.now place }
    {
        let key = PlaceKey {
            file: place.file,
            line: place.line,
            col: place.col,
        };
        self.numbers.get(&key).copied()
    }
}
