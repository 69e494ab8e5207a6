//! A design by reference, with its modules by their names and its enums by their places.

ghost use Rattle.std.specs.Prelude.{◌≡◌, ◌++◌, slice_get, IfOk, OnOk};
ghost use Rattle.std.specs.Option.{option_copied, option_map};
ghost use Rattle.std.specs.List.{flat_map};
ghost use Rattle.uc_syntax.specs.WrittenTypes.{enums_of_module};
ghost use Rattle.uc_meaning.specs.Lookup.{module_named};
ghost use Rattle.uc_meaning.specs.Types.{enum_number};
ghost use Rattle.uc_lookup.specs.Parts.{system_in};
ghost use Rattle.uc_names.specs.Senses.{module_in};
ghost use Rattle.uc_type_names.specs.Lent.{meant};
ghost use Rattle.uc_names.specs.ModuleNamesNumbers.{AreModules};

use crate::Firsts;
use crate::enums::EnumNumbers;
use std::alloc::{AllocError, Global};
use std::marker::Model;
use uc_items::{Items, at};
use uc_lookup::SystemRef;
use uc_syntax::{Decl, Module, Place};
use uc_type_names::{WrittenEnum, enums_of};

/// A design with the number of its main module, by reference.
#[derive(Drop)]
pub struct DesignNames<'a> {
    system: SystemRef<'a>,
    modules: Firsts<usize>,
    enums: EnumNumbers,
}

impl<'a> Model for DesignNames<'a> {
    ghost use Rattle.uc_meaning.specs.Lookup.{System};
    ghost use Rattle.uc_lookup.specs.Parts.{system_in};
    ghost use Rattle.uc_names.specs.ModuleNamesNumbers.{KnowsDesign};
    ghost use Rattle.std.specs.Coded.{codes};
    ghost use Rattle.uc_syntax.specs.contracts.type_expression.TypeExpr as types;
    ghost use Rattle.uc_syntax.specs.contracts.expression.Expr as expressions;
    ghost use Rattle.uc_syntax.specs.contracts.statement.Stmt as statements;

    ghost Value = { System };

    ghost coded = { Prim.hlevel (codes, types.the_row.coded, expressions.the_row.coded, statements.the_row.coded) };

    ghost view = { λ d. system_in d.system };

    ghost invariant = { λ d. KnowsDesign (system_in d.system) d.modules d.enums };
}

impl<'a> DesignNames<'a> {
    /// The tables of a design.
    pub fn of(alloc: Global, system: SystemRef<'a>) -> Result<DesignNames<'a>, AllocError>
        ensures { IfOk result (λ d. d ≡ system_in system.entry) }
    {
        let modules = modules_of(alloc, system.modules)?;
        let written = all_enums(alloc, system.modules)?;
        let enums = EnumNumbers::of(alloc, written.as_slice())?;
        Ok(DesignNames {
            system,
            modules,
            enums,
        })
    }

    /// The design.
    pub fn system(&self) -> SystemRef<'a>
        ensures { system_in result ≡ self.now }
    {
        self.system
    }

    /// The module of a name, by its place among the modules.
    pub fn module_named(&self, name: u32) -> Option<usize>
        ensures { option_map (module_in self.now.modules) result ≡ module_named self.now name }
    {
        self.modules.get(name)
    }

    /// The module at a place among the modules.
    pub fn module_at(&self, number: usize) -> Option<&'a Module>
        ensures { option_copied result ≡ slice_get self.now.modules number }
    {
        at(self.system.modules, number)
    }

    /// The declarations of the module at a place, and none where there is no module.
    pub fn declarations_of(&self, number: usize) -> &'a [Decl]
        ensures { result.now ≡ (module_in self.now.modules number).decls }
    {
        match self.module_at(number) {
            None => &[],
            Some(whole) => whole.decls.as_slice(),
        }
    }

    /// The number of the enum that is written at a place, and 0 for another place.
    pub fn enum_number(&self, place: Place) -> usize
        ensures { result ≡ enum_number self.now place }
    {
        self.enums.get(place).unwrap_or(0)
    }
}

/// The modules by their names: the first of each, by its place.
fn modules_of(alloc: Global, modules: &[Module]) -> Result<Firsts<usize>, AllocError>
    ensures { IfOk result (λ t. AreModules modules.now t modules.now) }
{
    let mut table = Firsts::new(alloc);
    for (number, module) in modules.iter().enumerate() {
        table.enter(module.name, Some(number))?;
    }
    Ok(table)
}

/// The enums that a design writes.
fn all_enums<'a>(alloc: Global, modules: &'a [Module]) -> Result<Items<WrittenEnum<'a>>, AllocError>
    ensures { IfOk result (λ es. meant es ≡ flat_map enums_of_module modules.now) }
{
    let mut enums = Items::new(alloc);
    for module in modules {
        add_enums(alloc, module, &mut enums)?;
    }
    Ok(enums)
}

fn add_enums<'a>(
    alloc: Global,
    whole: &'a Module,
    enums: &mut Items<WrittenEnum<'a>>,
) -> Result<(), AllocError>
    ensures { OnOk result (meant enums.new ≡ meant enums.old ++ enums_of_module whole.now) }
{
    let more = enums_of(alloc, whole)?;
    enums.append(more)?;
    Ok(())
}
