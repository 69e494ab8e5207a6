//! The instances below main.

ghost use Rattle.std.specs.Prelude.{◌≡◌, ◌++◌, ◌∷◌, [], map, IfOk};
ghost use Rattle.std.specs.Option.{option_map};
ghost use Rattle.uc_lookup.specs.Parts.{instance_parts, system_in};
ghost use Rattle.uc_meaning.specs.Lookup.{instance_in};
ghost use Rattle.uc_meaning.specs.Cells.{InstanceAt, instances_from};
ghost use Rattle.uc_order_rules.specs.Sizes.{instance_size, sum};
ghost use Rattle.uc_sizes.specs.Spending.{Spends, size_in};
ghost use Rattle.uc_sizes.specs.Expanding.{IsHere, instances_size, sizes_inside};

use crate::parts::{spend_formulas, spend_init};
use crate::{Halt, Spent};
use std::alloc::{AllocError, Global};
use uc_items::Items;
use uc_lookup::{InstanceParts, SystemRef};
use uc_syntax::{Decl, Module};

/// Counts what an instance and those inside it have, on chains of at most so many modules.
#[cycle(spend_instances)]
pub(crate) fn spend_instances(
    alloc: Global,
    system: &SystemRef<'_>,
    depth: u128,
    path: &[u32],
    code: &Module,
    spent: &mut Spent,
) -> Result<(), Halt>
    ensures { (here : InstanceAt) → IsHere path.now code.now here → Spends (size_in spent.old) (size_in spent.new) result (instances_size (system_in system.now) (instances_from depth (system_in system.now) here)) }
{
    if depth == 0 {
        return Ok(());
    }
    spend_instance(alloc, system, path, code, spent)?;
    spend_all_inside(alloc, system, depth - 1, path, code.decls.as_slice(), spent)
}

/// Counts the init code and the formulas of an instance.
fn spend_instance(
    alloc: Global,
    system: &SystemRef<'_>,
    path: &[u32],
    code: &Module,
    spent: &mut Spent,
) -> Result<(), Halt>
    ensures { (here : InstanceAt) → IsHere path.now code.now here → Spends (size_in spent.old) (size_in spent.new) result (instance_size (system_in system.now) here) }
{
    spend_init(alloc, system, path, code, spent)?;
    spend_formulas(alloc, system, path, code.decls.as_slice(), spent)
}

#[cycle(spend_instances)]
fn spend_all_inside(
    alloc: Global,
    system: &SystemRef<'_>,
    depth: u128,
    path: &[u32],
    declarations: &[Decl],
    spent: &mut Spent,
) -> Result<(), Halt>
    ensures { (here : InstanceAt) → here.path ≡ path.now → Spends (size_in spent.old) (size_in spent.new) result (sum (map (sizes_inside depth (system_in system.now) here) declarations.now)) }
{
    for declaration in declarations {
        spend_inside(alloc, system, depth, path, declaration, spent)?;
    }
    Ok(())
}

/// Counts what the instance has that a declaration declares, with those inside it.
#[cycle(spend_instances)]
fn spend_inside(
    alloc: Global,
    system: &SystemRef<'_>,
    depth: u128,
    path: &[u32],
    declaration: &Decl,
    spent: &mut Spent,
) -> Result<(), Halt>
    ensures { (here : InstanceAt) → here.path ≡ path.now → Spends (size_in spent.old) (size_in spent.new) result (sizes_inside depth (system_in system.now) here declaration.now) }
{
    match declared(declaration) {
        Some(instance) => match system.module_named(instance.module_name) {
            Some(code) => {
                let inside = path_to(alloc, path, instance.name)?;
                spend_instances(alloc, system, depth, inside.as_slice(), code, spent)
            }
            None => Ok(()),
        },
        None => Ok(()),
    }
}

/// The instance that a declaration declares.
pub(crate) fn declared(declaration: &Decl) -> Option<InstanceParts<'_>>
    ensures { option_map instance_parts result ≡ instance_in declaration.now }
{
    match declaration {
        Decl::Instance(_, identifier, module, bindings) => Some(InstanceParts {
            name: identifier.name,
            module_name: module.name,
            bindings: bindings.as_slice(),
        }),
        _ => None,
    }
}

/// The path of an instance inside the one at a path.
pub(crate) fn path_to(alloc: Global, path: &[u32], name: u32) -> Result<Items<u32>, AllocError>
    ensures { IfOk result (λ p. p ≡ path.now ++ name ∷ []) }
{
    let mut inside = Items::from_slice(alloc, path)?;
    inside.push(name)?;
    Ok(inside)
}
