//! A table of names by what the first fitting entry of each says.

ghost use Rattle.std.specs.Prelude.{◌≡◌, ◌++◌, ◌∷◌, [], List, IfOk, OnOk};
ghost use Rattle.std.specs.List.{find, list_any};
ghost use Rattle.std.specs.Option.{option_copied, option_map};
ghost use Rattle.uc_syntax.specs.declared.declaration.Module.{Module};
ghost use Rattle.uc_rules.specs.Names.{Entry as Meant, as_called, as_instance, as_procedure, as_type, as_value, first_fitting, is_entry};
ghost use Rattle.uc_lookup.specs.Parts.{instance_parts};
ghost use Rattle.uc_names.specs.Senses.{called_meant, declared_meant, entries_meant, entry_meant, value_meant};
ghost use Rattle.uc_names.specs.Tables.{Holds};

use crate::firsts::Firsts;
use crate::senses::{Called, DeclaredType, Entry, Value};
use std::alloc::{AllocError, Global};
use uc_lookup::InstanceParts;
use uc_syntax::Procedure;

/// For each name, the first entry, and the first that is a value, that takes arguments, that is a type, a procedure or an instance.
#[derive(Drop)]
pub struct NameTable<'a> {
    entries: Firsts<Entry<'a>>,
    values: Firsts<Value<'a>>,
    calls: Firsts<Called<'a>>,
    types: Firsts<DeclaredType>,
    procedures: Firsts<&'a Procedure>,
    instances: Firsts<InstanceParts<'a>>,
}

impl<'a> NameTable<'a> {
    /// No names.
    pub fn new(alloc: Global) -> NameTable<'a>
        ensures { (ms : List Module) → Holds ms result [] }
    {
        let entries = Firsts::new(alloc);
        let values = Firsts::new(alloc);
        let calls = Firsts::new(alloc);
        let types = Firsts::new(alloc);
        let procedures = Firsts::new(alloc);
        let instances = Firsts::new(alloc);
        NameTable {
            entries,
            values,
            calls,
            types,
            procedures,
            instances,
        }
    }

    /// The table of some entries.
    pub fn of(alloc: Global, entries: &[Entry<'a>]) -> Result<NameTable<'a>, AllocError>
        ensures { IfOk result (λ t. (ms : List Module) → Holds ms t (entries_meant ms entries.now)) }
    {
        let mut table = NameTable::new(alloc);
        for entry in entries {
            table.add(*entry)?;
        }
        Ok(table)
    }

    /// Adds an entry behind those that are held.
    pub fn add(&mut self, entry: Entry<'a>) -> Result<(), AllocError>
        ensures { OnOk result ((ms : List Module) (es : List Meant) → Holds ms self.old es → Holds ms self.new (es ++ entry_meant ms entry.entry ∷ [])) }
    {
        let name = entry.identifier.name;
        self.entries.enter(name, Some(entry))?;
        self.values.enter(name, entry.sense.as_value())?;
        self.calls.enter(name, entry.sense.as_called())?;
        self.types.enter(name, entry.sense.as_type())?;
        self.procedures.enter(name, entry.sense.as_procedure())?;
        self.instances.enter(name, entry.sense.as_instance())?;
        Ok(())
    }

    /// The first entry of a name.
    pub fn entry(&self, name: u32) -> Option<Entry<'a>>
        ensures { (ms : List Module) (es : List Meant) → Holds ms self.now es → option_map (entry_meant ms) result ≡ find (is_entry name) es }
    {
        self.entries.get(name)
    }

    /// Whether a name is one of the entries'.
    pub fn has(&self, name: u32) -> bool
        ensures { (ms : List Module) (es : List Meant) → Holds ms self.now es → result ≡ list_any (is_entry name) es }
    {
        self.entry(name).is_some()
    }

    /// What a name is as a value.
    pub fn value(&self, name: u32) -> Option<Value<'a>>
        ensures { (ms : List Module) (es : List Meant) → Holds ms self.now es → option_map value_meant result ≡ first_fitting as_value name es }
    {
        self.values.get(name)
    }

    /// What a name is where arguments follow.
    pub fn called(&self, name: u32) -> Option<Called<'a>>
        ensures { (ms : List Module) (es : List Meant) → Holds ms self.now es → option_map called_meant result ≡ first_fitting as_called name es }
    {
        self.calls.get(name)
    }

    /// The type of a name.
    pub fn declared_type(&self, name: u32) -> Option<DeclaredType>
        ensures { (ms : List Module) (es : List Meant) → Holds ms self.now es → option_map (declared_meant ms) result ≡ first_fitting as_type name es }
    {
        self.types.get(name)
    }

    /// The procedure of a name.
    pub fn procedure(&self, name: u32) -> Option<&'a Procedure>
        ensures { (ms : List Module) (es : List Meant) → Holds ms self.now es → option_copied result ≡ first_fitting as_procedure name es }
    {
        self.procedures.get(name)
    }

    /// The instance of a name.
    pub fn instance(&self, name: u32) -> Option<InstanceParts<'a>>
        ensures { (ms : List Module) (es : List Meant) → Holds ms self.now es → option_map instance_parts result ≡ first_fitting as_instance name es }
    {
        self.instances.get(name)
    }
}
