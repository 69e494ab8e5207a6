//! What it is to step the instances of a module.

ghost use Rattle.std.specs.Prelude.{◌≡◌, ℕ, None, Some, nat_eq, OnOk};
ghost use Rattle.std.specs.Option.{option_copied};
ghost use Rattle.uc_meaning.specs.Lookup.{or_else};
ghost use Rattle.uc_rules.specs.Names.{only_if};
ghost use Rattle.uc_module_writes.specs.Found.{entered_by};

use crate::written::WrittenPairs;
use indexmap::IndexMap;
use std::alloc::{AllocError, Global};
use uc_type_names::NameSet;

/// The names whose parts are paired, and what the steps of a module's instances write; of several entries of a name the first.
#[derive(Drop)]
pub struct StepTable<'a> {
    names: &'a NameSet,
    steps: IndexMap<u32, WrittenPairs>,
}

impl<'a> StepTable<'a> {
    /// No instances.
    pub fn new(alloc: Global, names: &'a NameSet) -> StepTable<'a>
        ensures names { result.names.now ≡ names.now }
        ensures steps { (i : ℕ) → entered_by result i ≡ None }
    {
        let steps = IndexMap::new(alloc);
        StepTable { names, steps }
    }

    /// The names whose parts are paired.
    pub(crate) fn names(&self) -> &'a NameSet
        ensures { result.now ≡ self.now.names.now }
    {
        self.names
    }

    /// What the step of the instance of a name writes.
    pub(crate) fn step(&self, name: u32) -> Option<&WrittenPairs>
        ensures { option_copied result ≡ entered_by self.now name }
    {
        self.steps.get(&name)
    }

    /// Enters what the step of the instance of a name writes, unless that was entered.
    pub fn enter(&mut self, name: u32, step: WrittenPairs) -> Result<(), AllocError>
        ensures names { OnOk result (self.new.names.now ≡ self.old.names.now) }
        ensures steps { OnOk result ((i : ℕ) → entered_by self.new i ≡ or_else (entered_by self.old i) (only_if (nat_eq name i) (Some step))) }
    {
        if self.steps.contains_key(&name) {
            drop(step);
            return Ok(());
        }
        let before = self.steps.insert(name, step)?;
        drop(before);
        Ok(())
    }
}
