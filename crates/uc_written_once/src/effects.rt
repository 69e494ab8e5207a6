//! What calls and steps write.

ghost use Rattle.std.specs.Prelude.{◌≡◌, ℕ, None, Some, nat_eq, OnOk};
ghost use Rattle.std.specs.Option.{option_copied};
ghost use Rattle.uc_meaning.specs.Lookup.{or_else};
ghost use Rattle.uc_rules.specs.Names.{only_if};
ghost use Rattle.uc_written_once.specs.Effects.{procedure_by, stepped_by};

use indexmap::IndexMap;
use std::alloc::{AllocError, Global};
use uc_items::Items;
use uc_names::Firsts;
use uc_syntax::Procedure;

/// What it is to step an instance: the parts that are written, and whether some of them, written on one path inside, meet.
#[derive(Drop)]
pub struct Stepped {
    pub parts: Items<Items<u32>>,
    pub meet: bool,
}

/// What the calls and the steps of a module write, by the names of procedures and of instances; of several entries of a name the first.
#[derive(Drop)]
pub struct Effects<'a> {
    procedures: Firsts<&'a Procedure>,
    steps: IndexMap<u32, Stepped>,
}

impl<'a> Effects<'a> {
    /// No procedures and no instances.
    pub fn new(alloc: Global) -> Effects<'a>
        ensures procedures { (f : ℕ) → procedure_by result f ≡ None }
        ensures steps { (i : ℕ) → stepped_by result i ≡ None }
    {
        let procedures = Firsts::new(alloc);
        let steps = IndexMap::new(alloc);
        Effects { procedures, steps }
    }

    /// The procedure of a name.
    pub fn procedure(&self, name: u32) -> Option<&'a Procedure>
        ensures { option_copied result ≡ procedure_by self.now name }
    {
        self.procedures.get(name)
    }

    /// The step of the instance of a name.
    pub(crate) fn step(&self, name: u32) -> Option<&Stepped>
        ensures { option_copied result ≡ stepped_by self.now name }
    {
        self.steps.get(&name)
    }

    /// Enters a procedure, unless one of its name was entered.
    pub fn enter_procedure(&mut self, procedure: &'a Procedure) -> Result<(), AllocError>
        ensures procedures { OnOk result ((f : ℕ) → procedure_by self.new f ≡ or_else (procedure_by self.old f) (only_if (nat_eq procedure.entry.now.identifier.name f) (Some procedure.entry.now))) }
        ensures steps { OnOk result ((i : ℕ) → stepped_by self.new i ≡ stepped_by self.old i) }
    {
        self.procedures
            .enter(procedure.identifier.name, Some(procedure))?;
        Ok(())
    }

    /// Enters what it is to step the instance of a name, unless that was entered.
    pub fn enter_instance(&mut self, name: u32, step: Stepped) -> Result<(), AllocError>
        ensures procedures { OnOk result ((f : ℕ) → procedure_by self.new f ≡ procedure_by self.old f) }
        ensures steps { OnOk result ((i : ℕ) → stepped_by self.new i ≡ or_else (stepped_by self.old i) (only_if (nat_eq name i) (Some step))) }
    {
        if self.steps.contains_key(&name) {
            return Ok(());
        }
        self.steps.insert(name, step)?;
        Ok(())
    }
}
