//! The types that a written type names.

ghost use Rattle.std.specs.Prelude.{◌≡◌, ◌++◌, OnOk};
ghost use Rattle.std.specs.List.{flat_map};
ghost use Rattle.std.specs.Option.{option_map};
ghost use Rattle.uc_rules.specs.Cycles.{entry_name, mentioned, name_of_module};
ghost use Rattle.uc_meaning.specs.Lookup.{module_named};
ghost use Rattle.uc_names.specs.Senses.{declared_meant, module_in};
ghost use Rattle.uc_cycles.specs.Numbers.{listed, type_places};

use crate::types::{TypeKey, TypeNumbers};
use std::alloc::AllocError;
use uc_items::Items;
use uc_names::{DeclaredType, TypeHomes};
use uc_syntax::{Parameter, TypeExpr};

/// Adds the places of the types that a written type of the module at a place names.
#[cycle(add_mentioned)]
pub(crate) fn add_mentioned(
    homes: &TypeHomes<'_>,
    numbers: &TypeNumbers,
    home: usize,
    ty: &TypeExpr,
    needs: &mut Items<usize>,
) -> Result<(), AllocError>
    ensures { OnOk result (needs.new ≡ needs.old ++ type_places numbers.now (mentioned homes.now (module_in homes.now.modules home) ty.now)) }
{
    match ty {
        TypeExpr::Record(_, fields) => {
            add_all_mentioned(homes, numbers, home, fields.as_slice(), needs)?;
            Ok(())
        }
        TypeExpr::Array(_, index, element) => {
            add_mentioned(homes, numbers, home, index.get(), needs)?;
            add_mentioned(homes, numbers, home, element.get(), needs)?;
            Ok(())
        }
        TypeExpr::Named(_, name) => {
            add_declared(homes, numbers, *name, homes.declared(home, *name), needs)?;
            Ok(())
        }
        TypeExpr::OfModule(_, owner, identifier) => {
            add_of_module(homes, numbers, *owner, identifier.name, needs)?;
            Ok(())
        }
        TypeExpr::Boolean(_) => Ok(()),
        TypeExpr::Integer(_) => Ok(()),
        TypeExpr::Bits(_, _) => Ok(()),
        TypeExpr::Enumeration(_, _) => Ok(()),
    }
}

/// The same of several fields.
#[cycle(add_mentioned)]
fn add_all_mentioned(
    homes: &TypeHomes<'_>,
    numbers: &TypeNumbers,
    home: usize,
    fields: &[Parameter<TypeExpr>],
    needs: &mut Items<usize>,
) -> Result<(), AllocError>
    ensures { OnOk result (needs.new ≡ needs.old ++ type_places numbers.now (flat_map (λ p. mentioned homes.now (module_in homes.now.modules home) p.ty) fields.now)) }
{
    for field in fields {
        add_mentioned(homes, numbers, home, &field.ty, needs)?;
    }
    Ok(())
}

/// Adds the place of the type that a module declares by a name.
fn add_of_module(
    homes: &TypeHomes<'_>,
    numbers: &TypeNumbers,
    owner: u32,
    name: u32,
    needs: &mut Items<usize>,
) -> Result<(), AllocError>
    ensures { OnOk result (needs.new ≡ needs.old ++ type_places numbers.now (name_of_module name (module_named homes.now owner))) }
{
    match homes.design().module_named(owner) {
        None => Ok(()),
        Some(home) => {
            add_declared(homes, numbers, name, homes.declared_in(home, name), needs)?;
            Ok(())
        }
    }
}

/// Adds the place of what a name stands for.
fn add_declared(
    homes: &TypeHomes<'_>,
    numbers: &TypeNumbers,
    name: u32,
    declared: Option<DeclaredType>,
    needs: &mut Items<usize>,
) -> Result<(), AllocError>
    ensures { OnOk result (needs.new ≡ needs.old ++ type_places numbers.now (entry_name name (option_map (declared_meant homes.now.modules) declared))) }
{
    match declared {
        None => Ok(()),
        Some(declared) => {
            let owner = name_of(homes, declared.home);
            add_place(numbers.get(TypeKey { owner, name }), needs)?;
            Ok(())
        }
    }
}

/// Adds a place, where there is one.
pub(crate) fn add_place(place: Option<usize>, needs: &mut Items<usize>) -> Result<(), AllocError>
    ensures { OnOk result (needs.new ≡ needs.old ++ listed place) }
{
    match place {
        None => Ok(()),
        Some(place) => {
            needs.push(place)?;
            Ok(())
        }
    }
}

/// The name of the module at a place, and 0 where there is none.
pub(crate) fn name_of(homes: &TypeHomes<'_>, home: usize) -> u32
    ensures { result ≡ (module_in homes.now.modules home).name }
{
    match homes.design().module_at(home) {
        None => 0,
        Some(whole) => whole.name,
    }
}
