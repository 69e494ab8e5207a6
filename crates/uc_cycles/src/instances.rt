//! The modules of a design as the nodes of a graph.

ghost use Rattle.std.specs.Prelude.{◌≡◌, ◌++◌, map, IfOk, OnOk};
ghost use Rattle.uc_rules.specs.Cycles.{instance_steps};
ghost use Rattle.uc_cycles.specs.Numbers.{HasModules, instance_name, instance_names, name_places};

use crate::mentioned::{add_place, name_of};
use crate::names::NameNumbers;
use std::alloc::{AllocError, Global};
use uc_items::Items;
use uc_names::TypeHomes;
use uc_syntax::Decl;

/// The names of the first so many modules of a design.
pub(crate) fn module_numbers(
    alloc: Global,
    homes: &TypeHomes<'_>,
    count: usize,
) -> Result<NameNumbers, AllocError>
    ensures { IfOk result (λ t. HasModules homes.now count t) }
{
    let mut numbers = NameNumbers::new(alloc);
    for home in 0..count {
        numbers.enter(name_of(homes, home))?;
    }
    Ok(numbers)
}

/// For each module the places of those of its instances.
pub(crate) fn instance_graph(
    alloc: Global,
    homes: &TypeHomes<'_>,
    numbers: &NameNumbers,
) -> Result<Items<Items<usize>>, AllocError>
    ensures { IfOk result (λ graph. graph ≡ map (λ x. name_places numbers.now (instance_steps homes.now x)) numbers.now.keys) }
{
    let mut graph = Items::new(alloc);
    let keys = numbers.keys();
    for name in keys {
        let needs = instance_needs(alloc, homes, numbers, *name)?;
        graph.push(needs)?;
    }
    Ok(graph)
}

/// The places of the modules of a module's instances.
fn instance_needs(
    alloc: Global,
    homes: &TypeHomes<'_>,
    numbers: &NameNumbers,
    name: u32,
) -> Result<Items<usize>, AllocError>
    ensures { IfOk result (λ needs. needs ≡ name_places numbers.now (instance_steps homes.now name)) }
{
    match homes.design().module_named(name) {
        None => Ok(Items::new(alloc)),
        Some(home) => {
            let needs = declared_instances(alloc, numbers, homes.design().declarations_of(home))?;
            Ok(needs)
        }
    }
}

fn declared_instances(
    alloc: Global,
    numbers: &NameNumbers,
    declarations: &[Decl],
) -> Result<Items<usize>, AllocError>
    ensures { IfOk result (λ needs. needs ≡ name_places numbers.now (instance_names declarations.now)) }
{
    let mut needs = Items::new(alloc);
    for declaration in declarations {
        add_instance(numbers, declaration, &mut needs)?;
    }
    Ok(needs)
}

fn add_instance(
    numbers: &NameNumbers,
    declaration: &Decl,
    needs: &mut Items<usize>,
) -> Result<(), AllocError>
    ensures { OnOk result (needs.new ≡ needs.old ++ name_places numbers.now (instance_name declaration.now)) }
{
    match declaration {
        Decl::Instance(_, _, target, _) => {
            add_place(numbers.get(target.name), needs)?;
            Ok(())
        }
        _ => Ok(()),
    }
}
