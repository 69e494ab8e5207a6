//! The number of each type without a definition, by the names of its module and its own.

ghost use Rattle.std.specs.Prelude.{◌≡◌, ◌&&◌, ℕ, None, Some, nat_eq, IfOk, OnOk};
ghost use Rattle.uc_meaning.specs.Lookup.{System, or_else};
ghost use Rattle.uc_meaning.specs.Types.{opaque_number};
ghost use Rattle.uc_rules.specs.Names.{only_if};
ghost use Rattle.uc_lookup.specs.Parts.{system_in};
ghost use Rattle.uc_names.specs.TypeHomesNumbers.{number_at, AreNumbered, KnowsOpaques};

use crate::listed::opaque_types;
use indexmap::IndexMap;
use std::alloc::{AllocError, Global};
use uc_lookup::SystemRef;

/// A type, as the table knows it: the name of its module, and its own.
#[derive(Clone, Copy, PartialEq, Eq, Hash)]
struct TypeKey {
    owner: u32,
    name: u32,
}

/// The number of each type without a definition: that of the first one of its names.
#[derive(Drop)]
pub struct OpaqueNumbers {
    numbers: IndexMap<TypeKey, usize>,
}

impl OpaqueNumbers {
    fn new(alloc: Global) -> OpaqueNumbers
        ensures { (m x : ℕ) → number_at result m x ≡ None }
    {
        OpaqueNumbers {
            numbers: IndexMap::new(alloc),
        }
    }

    /// The numbers of the types of a design.
    pub fn of(alloc: Global, system: SystemRef<'_>) -> Result<OpaqueNumbers, AllocError>
        ensures { IfOk result (λ t. KnowsOpaques (system_in system.entry) t) }
    {
        let types = opaque_types(alloc, system.modules)?;
        let numbers = OpaqueNumbers::of_types(alloc, types.as_slice())?;
        Ok(numbers)
    }

    /// The numbers of some types: their places in the list.
    fn of_types(alloc: Global, types: &[(u32, u32)]) -> Result<OpaqueNumbers, AllocError>
        ensures { IfOk result (λ t. AreNumbered t types.now) }
    {
        let mut numbers = OpaqueNumbers::new(alloc);
        for (number, declared) in types.iter().enumerate() {
            numbers.enter(declared.0, declared.1, number)?;
        }
        Ok(numbers)
    }

    fn enter(&mut self, owner: u32, name: u32, number: usize) -> Result<(), AllocError>
        ensures { OnOk result ((m x : ℕ) → number_at self.new m x ≡ or_else (number_at self.old m x) (only_if (nat_eq owner m && nat_eq name x) (Some number))) }
    {
        match self.get(owner, name) {
            Some(_) => Ok(()),
            None => {
                let key = TypeKey { owner, name };
                self.numbers.insert(key, number)?;
                Ok(())
            }
        }
    }

    fn get(&self, owner: u32, name: u32) -> Option<usize>
        ensures { result ≡ number_at self.now owner name }
    {
        let key = TypeKey { owner, name };
        self.numbers.get(&key).copied()
    }

    /// The number of a type by the names of its module and its own, and 0 for another one.
    pub fn number(&self, owner: u32, name: u32) -> usize
        ensures { (s : System) → KnowsOpaques s self.now → result ≡ opaque_number s owner name }
    {
        self.get(owner, name).unwrap_or(0)
    }
}
