//! Where names lead.

ghost use Rattle.std.specs.Prelude.{◌≡◌, take, is_some, None, if◌then◌else◌, IfOk};
ghost use Rattle.std.specs.Option.{option_and_then, option_map};
ghost use Rattle.uc_meaning.specs.Lookup.{module_at, variable_of};
ghost use Rattle.uc_meaning.specs.Expressions.{binding_of};
ghost use Rattle.uc_lookup.specs.Parts.{bound_parts, system_in};
ghost use Rattle.uc_order_rules.specs.Roots.{instance_named_at, is_bound_input, is_input, led, name_at};
ghost use Rattle.uc_order_rules.specs.Mentions.{dotted};
ghost use Rattle.uc_sizes.specs.Spending.{field_of, name_in};

use std::alloc::{AllocError, Global};
use uc_items::Items;
use uc_lookup::{Bound, SystemRef, instance_of, variable_of};
use uc_syntax::{Expr, Selection, VariableKind};

/// A name of the module at a path.
#[derive(Drop)]
pub(crate) struct NameAt {
    pub(crate) path: Items<u32>,
    pub(crate) name: u32,
}

/// Where a name leads with the names behind its dots: through instances to a name of one of them.
pub(crate) fn led(
    alloc: Global,
    system: &SystemRef<'_>,
    path: &[u32],
    name: u32,
    selections: &[Selection<Expr>],
) -> Result<NameAt, AllocError>
    ensures { IfOk result (λ n. name_in n ≡ led (system_in system.now) path.now name (dotted selections.now)) }
{
    let mut there = Items::from_slice(alloc, path)?;
    let mut last = name;
    for selection in selections {
        match field_of(selection) {
            Some(inner) => {
                if !is_instance(system, there.as_slice(), last) {
                    return Ok(name_at(there, last));
                }
                there.push(last)?;
                last = inner;
            }
            None => return Ok(name_at(there, last)),
        }
    }
    Ok(name_at(there, last))
}

fn name_at(path: Items<u32>, name: u32) -> NameAt
    ensures { name_in result ≡ name_at path name }
{
    NameAt { path, name }
}

/// The name behind a dot.
fn field_of(selection: &Selection<Expr>) -> Option<u32>
    ensures { result ≡ field_of selection.now }
{
    match selection {
        Selection::Field(_, identifier) => Some(identifier.name),
        _ => None,
    }
}

/// Whether a name of the module at a path is that of an instance.
fn is_instance(system: &SystemRef<'_>, path: &[u32], name: u32) -> bool
    ensures { result ≡ is_some (instance_named_at (system_in system.now) path.now name) }
{
    match system.module_at(path) {
        Some(code) => instance_of(code.decls.as_slice(), name).is_some(),
        None => false,
    }
}

/// What the parent of the instance at a path binds to a name, where the name is an input. Bindings are looked at first, since main has none and
/// an instance has fewer of them than its module has names.
pub(crate) fn bound_input<'a>(system: &SystemRef<'a>, path: &[u32], name: u32) -> Option<Bound<'a>>
    ensures { option_map (bound_parts path.now) result ≡ (if is_bound_input (system_in system.now) (name_at path.now name) then binding_of (system_in system.now) path.now name else None) }
{
    let bound = system.binding_of(path, name)?;
    if is_input(system, path, name) {
        Some(bound)
    } else {
        None
    }
}

/// Whether a name of the module at a path is an input.
fn is_input(system: &SystemRef<'_>, path: &[u32], name: u32) -> bool
    ensures { result ≡ is_input (option_and_then (λ m. variable_of m name) (module_at (system_in system.now) path.now)) }
{
    match system.module_at(path) {
        Some(code) => match variable_of(code.decls.as_slice(), name) {
            Some(variable) => matches!(variable.kind, VariableKind::Input),
            None => false,
        },
        None => false,
    }
}

/// The first so many names of a path.
#[tactic(auto, using(std::proofs::lemmas::List::take_all))]
pub(crate) fn prefix(path: &[u32], depth: usize) -> &[u32]
    ensures { result.now ≡ take depth path.now }
{
    if depth >= path.len() {
        path
    } else {
        &path[..depth]
    }
}
