//! What lies on a cycle in a design.

ghost use Rattle.std.specs.Prelude.{◌≡◌, ◌≤◌, ℕ, length, map, IfOk};
ghost use Rattle.uc_graph.specs.Cycles.{MarksCycles};
ghost use Rattle.uc_rules.specs.Cycles.{TypeName, alias_steps, instance_steps, on_alias_cycle, on_instance_cycle};
ghost use Rattle.uc_cycles.specs.Numbers.{KnowsCycles, flag_at, is_alias_flagged, is_name_flagged, key_name, key_of, name_number, name_places, type_number, type_places};

use crate::aliases::{alias_graph, alias_numbers};
use crate::instances::{instance_graph, module_numbers};
use crate::names::NameNumbers;
use crate::types::{TypeKey, TypeNumbers};
use std::alloc::{AllocError, Global};
use uc_graph::on_cycles;
use uc_items::{Items, beside};
use uc_names::TypeHomes;

/// The aliases and the modules of a design, with those that lie on a cycle.
#[derive(Drop)]
pub struct DesignCycles {
    aliases: TypeNumbers,
    alias_flags: Items<bool>,
    modules: NameNumbers,
    module_flags: Items<bool>,
}

/// What lies on a cycle in a design.
pub fn cycles_of(alloc: Global, homes: &TypeHomes<'_>) -> Result<DesignCycles, AllocError>
    ensures { IfOk result (λ c. KnowsCycles homes.now c) }
{
    let count = homes.design().system().modules.len();
    let aliases = flagged_aliases(alloc, homes, count)?;
    let modules = flagged_modules(alloc, homes, count);
    let ((aliases, alias_flags), (modules, module_flags)) = beside(aliases, modules)?;
    Ok(DesignCycles {
        aliases,
        alias_flags,
        modules,
        module_flags,
    })
}

/// The aliases of the first so many modules of a design, with those that lie on a cycle.
fn flagged_aliases(
    alloc: Global,
    homes: &TypeHomes<'_>,
    count: usize,
) -> Result<(TypeNumbers, Items<bool>), AllocError>
    ensures { IfOk result (λ r. length homes.now.modules ≤ count → (p : TypeName) → flag_at r.1 (type_number r.0 (key_of p)) ≡ on_alias_cycle homes.now p) }
{
    let aliases = alias_numbers(alloc, homes, count)?;
    let flags = alias_flags(alloc, homes, &aliases);
    let (aliases, flags) = beside(aliases, flags)?;
    Ok((aliases, flags))
}

fn alias_flags(
    alloc: Global,
    homes: &TypeHomes<'_>,
    aliases: &TypeNumbers,
) -> Result<Items<bool>, AllocError>
    ensures { IfOk result (λ flags. MarksCycles (map (λ k. type_places aliases.now (alias_steps homes.now (key_name k))) aliases.now.keys) flags) }
{
    let graph = alias_graph(alloc, homes, aliases)?;
    let flags = on_cycles(alloc, graph.as_slice())?;
    Ok(flags)
}

/// The first so many modules of a design, with those that lie on a cycle.
fn flagged_modules(
    alloc: Global,
    homes: &TypeHomes<'_>,
    count: usize,
) -> Result<(NameNumbers, Items<bool>), AllocError>
    ensures { IfOk result (λ r. length homes.now.modules ≤ count → (x : ℕ) → flag_at r.1 (name_number r.0 x) ≡ on_instance_cycle homes.now x) }
{
    let modules = module_numbers(alloc, homes, count)?;
    let flags = module_flags(alloc, homes, &modules);
    let (modules, flags) = beside(modules, flags)?;
    Ok((modules, flags))
}

fn module_flags(
    alloc: Global,
    homes: &TypeHomes<'_>,
    modules: &NameNumbers,
) -> Result<Items<bool>, AllocError>
    ensures { IfOk result (λ flags. MarksCycles (map (λ x. name_places modules.now (instance_steps homes.now x)) modules.now.keys) flags) }
{
    let graph = instance_graph(alloc, homes, modules)?;
    let flags = on_cycles(alloc, graph.as_slice())?;
    Ok(flags)
}

impl DesignCycles {
    /// Whether a type lies on a cycle of aliases, by the names of its module and its own.
    pub(crate) fn has_alias(&self, owner: u32, name: u32) -> bool
        ensures { result ≡ is_alias_flagged self.now (owner, name) }
    {
        is_flagged(&self.alias_flags, self.aliases.get(TypeKey { owner, name }))
    }

    /// Whether a module lies on a cycle of instances.
    pub(crate) fn has_module(&self, name: u32) -> bool
        ensures { result ≡ is_name_flagged self.now name }
    {
        is_flagged(&self.module_flags, self.modules.get(name))
    }
}

fn is_flagged(flags: &Items<bool>, place: Option<usize>) -> bool
    ensures { result ≡ flag_at flags.now place }
{
    match place {
        None => false,
        Some(place) => match flags.get(place) {
            None => false,
            Some(flag) => *flag,
        },
    }
}
