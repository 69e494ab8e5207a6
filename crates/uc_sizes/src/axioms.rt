//! The axioms of the modules in use.

ghost use Rattle.std.specs.Prelude.{◌≡◌, suc, [], is_some, length, map, unwrap_or, IfOk};
ghost use Rattle.std.specs.List.{filter_map, list_any};
ghost use Rattle.std.specs.Option.{option_copied};
ghost use Rattle.uc_lookup.specs.Parts.{system_in};
ghost use Rattle.uc_meaning.specs.Lookup.{axiom_in};
ghost use Rattle.uc_meaning.specs.Cells.{InstanceAt, instances_from, longest_chain, modules_in_use};
ghost use Rattle.uc_order_rules.specs.Sizes.{axiom_nodes, size, total};
ghost use Rattle.uc_uses.specs.Counting.{instances_of_main};
ghost use Rattle.uc_sizes.specs.Spending.{Spends, size_in};
ghost use Rattle.uc_sizes.specs.Expanding.{IsHere, expression_sizes, first_place, place_inside, used_axioms};

use crate::instances::{declared, path_to};
use crate::parts::spend_expression;
use crate::{Halt, Spent};
use std::alloc::{AllocError, Global};
use uc_items::Items;
use uc_lookup::SystemRef;
use uc_syntax::{Decl, Expr, Module};

/// How many modules stand on one chain of instances at most.
const LONGEST_CHAIN: u128 = 32;

/// Counts the axioms of the modules in use, each where the first instance of its module is.
pub(crate) fn spend_axioms(
    alloc: Global,
    system: &SystemRef<'_>,
    spent: &mut Spent,
) -> Result<(), Halt>
    ensures { Spends (size_in spent.old) (size_in spent.new) result (size 0 (total (map (axiom_nodes (system_in system.now)) (modules_in_use (system_in system.now))))) }
{
    for module in system.modules {
        spend_axioms_of(alloc, system, module, spent)?;
    }
    Ok(())
}

/// Counts the axioms of a module, if it is in use.
fn spend_axioms_of(
    alloc: Global,
    system: &SystemRef<'_>,
    code: &Module,
    spent: &mut Spent,
) -> Result<(), Halt>
    ensures { Spends (size_in spent.old) (size_in spent.new) result (used_axioms (system_in system.now) code.now) }
{
    if !has_axioms(code.decls.as_slice()) {
        return Ok(());
    }
    let used = is_used(alloc, system, code.name)?;
    if !used {
        return Ok(());
    }
    let path = path_of(alloc, system, code.name)?;
    spend_axiom_list(alloc, system, path.as_slice(), code.decls.as_slice(), spent)
}

/// Whether a module is in use.
fn is_used(alloc: Global, system: &SystemRef<'_>, name: u32) -> Result<bool, AllocError>
    ensures { IfOk result (λ b. b ≡ is_some (first_place name (instances_of_main longest_chain (system_in system.now)))) }
{
    let place = find_below_main(alloc, system, LONGEST_CHAIN, name)?;
    Ok(place.is_some())
}

/// The path of the first instance of a module, and that of main where there is none.
fn path_of(alloc: Global, system: &SystemRef<'_>, name: u32) -> Result<Items<u32>, AllocError>
    ensures { IfOk result (λ p. p ≡ unwrap_or (first_place name (instances_of_main (suc (length system.now.modules.now)) (system_in system.now))) []) }
{
    let depth = system.modules.len() as u128 + 1;
    let place = find_below_main(alloc, system, depth, name)?;
    match place {
        Some(path) => Ok(path),
        None => Ok(Items::new(alloc)),
    }
}

/// Whether there is an axiom among declarations.
fn has_axioms(declarations: &[Decl]) -> bool
    ensures { result ≡ list_any (λ d. is_some (axiom_in d)) declarations.now }
{
    declarations
        .iter()
        .any(|declaration| axiom_in(declaration).is_some())
}

fn spend_axiom_list(
    alloc: Global,
    system: &SystemRef<'_>,
    path: &[u32],
    declarations: &[Decl],
    spent: &mut Spent,
) -> Result<(), Halt>
    ensures { Spends (size_in spent.old) (size_in spent.new) result (expression_sizes (system_in system.now) path.now (filter_map axiom_in declarations.now)) }
{
    for declaration in declarations {
        spend_expression(alloc, system, path, axiom_in(declaration), spent)?;
    }
    Ok(())
}

/// The formula of an axiom.
fn axiom_in(declaration: &Decl) -> Option<&Expr>
    ensures { option_copied result ≡ axiom_in declaration.now }
{
    match declaration {
        Decl::Axiom(_, _, formula) => Some(formula),
        _ => None,
    }
}

/// The path of the first instance of a module, from main down on chains of at most so many modules.
fn find_below_main(
    alloc: Global,
    system: &SystemRef<'_>,
    depth: u128,
    name: u32,
) -> Result<Option<Items<u32>>, AllocError>
    ensures { IfOk result (λ p. p ≡ first_place name (instances_of_main depth (system_in system.now))) }
{
    match system.main_module() {
        Some(code) => find_from(alloc, system, depth, &[], code, name),
        None => Ok(None),
    }
}

#[cycle(find_from)]
fn find_from(
    alloc: Global,
    system: &SystemRef<'_>,
    depth: u128,
    path: &[u32],
    code: &Module,
    name: u32,
) -> Result<Option<Items<u32>>, AllocError>
    ensures { IfOk result (λ p. (here : InstanceAt) → IsHere path.now code.now here → p ≡ first_place name (instances_from depth (system_in system.now) here)) }
{
    if depth == 0 {
        return Ok(None);
    }
    if code.name == name {
        let path = Items::from_slice(alloc, path)?;
        return Ok(Some(path));
    }
    for declaration in code.decls.as_slice() {
        let found = find_inside(alloc, system, depth - 1, path, declaration, name)?;
        if found.is_some() {
            return Ok(found);
        }
    }
    Ok(None)
}

#[cycle(find_from)]
fn find_inside(
    alloc: Global,
    system: &SystemRef<'_>,
    depth: u128,
    path: &[u32],
    declaration: &Decl,
    name: u32,
) -> Result<Option<Items<u32>>, AllocError>
    ensures { IfOk result (λ p. (here : InstanceAt) → here.path ≡ path.now → p ≡ place_inside name depth (system_in system.now) here declaration.now) }
{
    match declared(declaration) {
        Some(instance) => match system.module_named(instance.module_name) {
            Some(code) => {
                let inside = path_to(alloc, path, instance.name)?;
                find_from(alloc, system, depth, inside.as_slice(), code, name)
            }
            None => Ok(None),
        },
        None => Ok(None),
    }
}
