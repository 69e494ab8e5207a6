//! The aliases of a design as the nodes of a graph.

ghost use Rattle.std.specs.Prelude.{◌≡◌, Some, map, slice_get, IfOk, OnOk};
ghost use Rattle.std.specs.Option.{option_copied, option_map};
ghost use Rattle.uc_rules.specs.Cycles.{alias_steps, alias_steps_in, entry_steps};
ghost use Rattle.uc_names.specs.Senses.{declared_meant, entry_at, module_in};
ghost use Rattle.uc_cycles.specs.Numbers.{EntersAliases, HasAliases, KnowsTypes, alias_of, alias_written, key_name, type_places};
ghost use Rattle.uc_declared_types.specs.Names.{names_in};

use crate::mentioned::{add_mentioned, name_of};
use crate::types::{TypeKey, TypeNumbers};
use std::alloc::{AllocError, Global};
use uc_items::{Items, at};
use uc_names::{DeclaredType, TypeHomes};
use uc_syntax::{Decl, TypeExpr};

/// The aliases that the first so many modules of a design declare.
pub(crate) fn alias_numbers(
    alloc: Global,
    homes: &TypeHomes<'_>,
    count: usize,
) -> Result<TypeNumbers, AllocError>
    ensures { IfOk result (λ t. HasAliases homes.now count t) }
{
    let mut numbers = TypeNumbers::new(alloc);
    for home in 0..count {
        enter_aliases(homes, home, &mut numbers)?;
    }
    Ok(numbers)
}

/// Enters the aliases that the module at a place declares.
fn enter_aliases(
    homes: &TypeHomes<'_>,
    home: usize,
    numbers: &mut TypeNumbers,
) -> Result<(), AllocError>
    ensures { OnOk result (KnowsTypes numbers.old → EntersAliases (names_in (module_in homes.now.modules home)) numbers.old numbers.new) }
{
    let owner = name_of(homes, home);
    let declarations = homes.design().declarations_of(home);
    for declaration in declarations {
        enter_alias(owner, declaration, numbers)?;
    }
    Ok(())
}

fn enter_alias(owner: u32, declaration: &Decl, numbers: &mut TypeNumbers) -> Result<(), AllocError>
    ensures { OnOk result (KnowsTypes numbers.old → EntersAliases (alias_of owner declaration.now) numbers.old numbers.new) }
{
    match declaration {
        Decl::TypeAlias(_, identifier, _) => {
            let name = identifier.name;
            numbers.enter(TypeKey { owner, name })?;
            Ok(())
        }
        _ => Ok(()),
    }
}

/// For each alias the places of those that it names.
pub(crate) fn alias_graph(
    alloc: Global,
    homes: &TypeHomes<'_>,
    numbers: &TypeNumbers,
) -> Result<Items<Items<usize>>, AllocError>
    ensures { IfOk result (λ graph. graph ≡ map (λ k. type_places numbers.now (alias_steps homes.now (key_name k))) numbers.now.keys) }
{
    let mut graph = Items::new(alloc);
    let keys = numbers.keys();
    for key in keys {
        let needs = alias_needs(alloc, homes, numbers, *key)?;
        graph.push(needs)?;
    }
    Ok(graph)
}

/// The places of the aliases that an alias names.
fn alias_needs(
    alloc: Global,
    homes: &TypeHomes<'_>,
    numbers: &TypeNumbers,
    key: TypeKey,
) -> Result<Items<usize>, AllocError>
    ensures { IfOk result (λ needs. needs ≡ type_places numbers.now (alias_steps homes.now (key_name key))) }
{
    match homes.design().module_named(key.owner) {
        None => Ok(Items::new(alloc)),
        Some(home) => {
            let needs = declared_needs(alloc, homes, numbers, homes.declared_in(home, key.name))?;
            Ok(needs)
        }
    }
}

fn declared_needs(
    alloc: Global,
    homes: &TypeHomes<'_>,
    numbers: &TypeNumbers,
    declared: Option<DeclaredType>,
) -> Result<Items<usize>, AllocError>
    ensures { IfOk result (λ needs. needs ≡ type_places numbers.now (alias_steps_in homes.now (option_map (declared_meant homes.now.modules) declared))) }
{
    match declared {
        None => Ok(Items::new(alloc)),
        Some(declared) => {
            let needs = written_needs(alloc, homes, numbers, declared)?;
            Ok(needs)
        }
    }
}

fn written_needs(
    alloc: Global,
    homes: &TypeHomes<'_>,
    numbers: &TypeNumbers,
    declared: DeclaredType,
) -> Result<Items<usize>, AllocError>
    ensures { IfOk result (λ needs. needs ≡ type_places numbers.now (entry_steps homes.now (module_in homes.now.modules declared.home) (entry_at (slice_get (module_in homes.now.modules declared.home).decls declared.declaration)))) }
{
    match written(homes, declared) {
        None => Ok(Items::new(alloc)),
        Some(ty) => {
            let mut needs = Items::new(alloc);
            add_mentioned(homes, numbers, declared.home, ty, &mut needs)?;
            Ok(needs)
        }
    }
}

/// The type that an alias writes, where the declared type is an alias.
fn written<'a>(homes: &TypeHomes<'a>, declared: DeclaredType) -> Option<&'a TypeExpr>
    ensures { option_copied result ≡ alias_written (entry_at (slice_get (module_in homes.now.modules declared.home).decls declared.declaration)) }
{
    let declarations = homes.design().declarations_of(declared.home);
    match at(declarations, declared.declaration) {
        None => None,
        Some(declaration) => written_by(declaration),
    }
}

fn written_by(declaration: &Decl) -> Option<&TypeExpr>
    ensures { option_copied result ≡ alias_written (entry_at (Some declaration.now)) }
{
    match declaration {
        Decl::TypeAlias(_, _, ty) => Some(ty),
        _ => None,
    }
}
