//! A design by reference, with what names of types stand for in each of its modules.

ghost use Rattle.std.specs.Prelude.{◌≡◌, IfOk};
ghost use Rattle.std.specs.Option.{option_copied, option_map};
ghost use Rattle.uc_meaning.specs.Types.{opaque_number};
ghost use Rattle.std.specs.List.{list_any};
ghost use Rattle.uc_rules.specs.Names.{called_named, instance_named, is_entry, names_in, procedure_named, type_named, type_of_module, value_named};
ghost use Rattle.uc_lookup.specs.Parts.{instance_parts, system_in};
ghost use Rattle.uc_names.specs.Senses.{called_meant, declared_meant, module_in, value_meant};

use crate::lists::tables_of;
use crate::numbers::OpaqueNumbers;
use crate::{Called, DeclaredType, DesignNames, Firsts, NameTable, Value};
use std::alloc::{AllocError, Global};
use std::marker::Model;
use uc_items::{Items, beside};
use uc_lookup::{InstanceParts, SystemRef};
use uc_syntax::Procedure;

/// A design with the tables of its modules.
#[derive(Drop)]
pub struct TypeHomes<'a> {
    design: DesignNames<'a>,
    names: Items<NameTable<'a>>,
    own: Items<Firsts<DeclaredType>>,
    opaques: OpaqueNumbers,
}

impl<'a> Model for TypeHomes<'a> {
    ghost use Rattle.uc_meaning.specs.Lookup.{System};
    ghost use Rattle.uc_names.specs.Homes.{KnowsHomes};
    ghost use Rattle.std.specs.Coded.{codes};
    ghost use Rattle.uc_syntax.specs.contracts.type_expression.TypeExpr as types;
    ghost use Rattle.uc_syntax.specs.contracts.expression.Expr as expressions;
    ghost use Rattle.uc_syntax.specs.contracts.statement.Stmt as statements;

    ghost Value = { System };

    ghost coded = { Prim.hlevel (codes, types.the_row.coded, expressions.the_row.coded, statements.the_row.coded) };

    ghost view = { λ t. t.design };

    ghost invariant = { λ t. KnowsHomes t.design t.names t.own t.opaques };
}

impl<'a> TypeHomes<'a> {
    /// The tables of a design.
    pub fn of(alloc: Global, system: SystemRef<'a>) -> Result<TypeHomes<'a>, AllocError>
        ensures { IfOk result (λ t. t ≡ system_in system.entry) }
    {
        let opaques = OpaqueNumbers::of(alloc, system)?;
        let design = DesignNames::of(alloc, system);
        let (opaques, design) = beside(opaques, design)?;
        let tables = tables_of(alloc, &design, system.modules.len());
        let ((opaques, design), (names, own)) = beside((opaques, design), tables)?;
        Ok(TypeHomes {
            design,
            names,
            own,
            opaques,
        })
    }

    /// The design, with its modules by their names and its enums by their places.
    pub fn design(&self) -> &DesignNames<'a>
        ensures { result.now ≡ self.now }
    {
        &self.design
    }

    /// What a name is as a value in the module at a place.
    pub fn value(&self, home: usize, name: u32) -> Option<Value<'a>>
        ensures { option_map value_meant result ≡ value_named self.now (module_in self.now.modules home) name }
    {
        match self.names.get(home) {
            None => None,
            Some(table) => table.value(name),
        }
    }

    /// What a name is where arguments follow, in the module at a place.
    pub fn called(&self, home: usize, name: u32) -> Option<Called<'a>>
        ensures { option_map called_meant result ≡ called_named self.now (module_in self.now.modules home) name }
    {
        match self.names.get(home) {
            None => None,
            Some(table) => table.called(name),
        }
    }

    /// The procedure of a name in the module at a place.
    pub fn procedure(&self, home: usize, name: u32) -> Option<&'a Procedure>
        ensures { option_copied result ≡ procedure_named self.now (module_in self.now.modules home) name }
    {
        match self.names.get(home) {
            None => None,
            Some(table) => table.procedure(name),
        }
    }

    /// The instance of a name in the module at a place.
    pub fn instance(&self, home: usize, name: u32) -> Option<InstanceParts<'a>>
        ensures { option_map instance_parts result ≡ instance_named self.now (module_in self.now.modules home) name }
    {
        match self.names.get(home) {
            None => None,
            Some(table) => table.instance(name),
        }
    }

    /// Whether the module at a place declares or brings in a name.
    pub fn has_name(&self, home: usize, name: u32) -> bool
        ensures { result ≡ list_any (is_entry name) (names_in self.now (module_in self.now.modules home)) }
    {
        match self.names.get(home) {
            None => false,
            Some(table) => table.has(name),
        }
    }

    /// The type that a name stands for in the module at a place.
    pub fn declared(&self, home: usize, name: u32) -> Option<DeclaredType>
        ensures { option_map (declared_meant self.now.modules) result ≡ type_named self.now (module_in self.now.modules home) name }
    {
        match self.names.get(home) {
            None => None,
            Some(table) => table.declared_type(name),
        }
    }

    /// The type of a name that the module at a place declares itself.
    pub fn declared_in(&self, home: usize, name: u32) -> Option<DeclaredType>
        ensures { option_map (declared_meant self.now.modules) result ≡ type_of_module (module_in self.now.modules home) name }
    {
        match self.own.get(home) {
            None => None,
            Some(table) => table.get(name),
        }
    }

    /// The number of a type without a definition, by the place of its module and by its name.
    pub fn opaque_number(&self, home: usize, name: u32) -> usize
        ensures { result ≡ opaque_number self.now (module_in self.now.modules home).name name }
    {
        self.opaques.number(self.name_of(home), name)
    }

    /// The name of the module at a place, and 0 where there is none.
    fn name_of(&self, home: usize) -> u32
        ensures { result ≡ (module_in self.now.modules home).name }
    {
        match self.design.module_at(home) {
            None => 0,
            Some(module) => module.name,
        }
    }
}
