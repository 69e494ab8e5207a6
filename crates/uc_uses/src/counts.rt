//! The walk over instances.

ghost use Rattle.std.specs.Prelude.{◌≡◌, map};
ghost use Rattle.uc_order_rules.specs.Sizes.{total};
ghost use Rattle.std.specs.Option.{option_map};
ghost use Rattle.uc_meaning.specs.Lookup.{System, instance_in};
ghost use Rattle.uc_meaning.specs.Cells.{InstanceAt, instances_from};
ghost use Rattle.uc_lookup.specs.Parts.{instance_parts, system_in};
ghost use Rattle.uc_uses.specs.Counting.{Counts, IsPlace, all_own, own, own_inside};

use crate::cells::count_cells;
use uc_lookup::{InstanceParts, SystemRef};
use uc_syntax::{Binding, Decl, Module};

/// What is counted.
#[derive(Clone, Copy, Debug, PartialEq, Eq)]
pub(crate) enum Counted {
    Instances,
    Cells,
}

/// An instance by its module, what is bound, and whether it is main.
#[derive(Clone, Copy)]
pub(crate) struct Place<'a> {
    pub(crate) code: &'a Module,
    pub(crate) bindings: &'a [Binding],
    pub(crate) is_main: bool,
}

/// Counts one more, if that does not pass the limit.
pub(crate) fn count_one(limit: u64, count: &mut u64) -> bool
    ensures { Counts limit result count.old count.new 1 }
{
    if *count < limit {
        *count += 1;
        true
    } else {
        false
    }
}

/// Counts an instance and those inside it, on chains of at most so many modules.
#[cycle(count_instances)]
pub(crate) fn count_instances(
    system: &SystemRef<'_>,
    counted: Counted,
    depth: u128,
    place: Place<'_>,
    limit: u64,
    count: &mut u64,
) -> bool
    ensures { (here : InstanceAt) → IsPlace place.entry here → Counts limit result count.old count.new (all_own counted (system_in system.now) (instances_from depth (system_in system.now) here)) }
{
    if depth == 0 {
        return true;
    }
    if !count_own(counted, place, limit, count) {
        return false;
    }
    count_all_inside(
        system,
        counted,
        depth - 1,
        place.code.decls.as_slice(),
        limit,
        count,
    )
}

/// Counts what an instance has itself.
fn count_own(counted: Counted, place: Place<'_>, limit: u64, count: &mut u64) -> bool
    ensures { (s : System) (here : InstanceAt) → IsPlace place.entry here → Counts limit result count.old count.new (own counted s here) }
{
    match counted {
        Counted::Instances => count_one(limit, count),
        Counted::Cells => count_cells(place, limit, count),
    }
}

#[cycle(count_instances)]
fn count_all_inside(
    system: &SystemRef<'_>,
    counted: Counted,
    depth: u128,
    declarations: &[Decl],
    limit: u64,
    count: &mut u64,
) -> bool
    ensures { (here : InstanceAt) → Counts limit result count.old count.new (total (map (own_inside counted depth (system_in system.now) here) declarations.now)) }
{
    for declaration in declarations {
        if !count_inside(system, counted, depth, declaration, limit, count) {
            return false;
        }
    }
    true
}

/// Counts the instance that a declaration declares, and those inside it.
#[cycle(count_instances)]
fn count_inside(
    system: &SystemRef<'_>,
    counted: Counted,
    depth: u128,
    declaration: &Decl,
    limit: u64,
    count: &mut u64,
) -> bool
    ensures { (here : InstanceAt) → Counts limit result count.old count.new (own_inside counted depth (system_in system.now) here declaration.now) }
{
    match declared(declaration) {
        Some(instance) => match system.module_named(instance.module_name) {
            Some(code) => {
                let place = Place {
                    code,
                    bindings: instance.bindings,
                    is_main: false,
                };
                count_instances(system, counted, depth, place, limit, count)
            }
            None => true,
        },
        None => true,
    }
}

/// The instance that a declaration declares.
fn declared(declaration: &Decl) -> Option<InstanceParts<'_>>
    ensures { option_map instance_parts result ≡ instance_in declaration.now }
{
    match declaration {
        Decl::Instance(_, identifier, module, bindings) => Some(InstanceParts {
            name: identifier.name,
            module_name: module.name,
            bindings: bindings.as_slice(),
        }),
        _ => None,
    }
}
