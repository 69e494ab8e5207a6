//! The cells of an instance.

ghost use Rattle.std.specs.Prelude.{◌≡◌, map};
ghost use Rattle.uc_order_rules.specs.Sizes.{total};
ghost use Rattle.uc_meaning.specs.Lookup.{System};
ghost use Rattle.uc_meaning.specs.Cells.{InstanceAt, is_cell};
ghost use Rattle.uc_uses.specs.Counting.{Counts, IsPlace, cell_count, one_cell};

use crate::counts::{Place, count_one};
use uc_lookup::bound_to;
use uc_syntax::{Decl, Identifier, VariableKind};

/// Counts the cells of an instance.
pub(crate) fn count_cells(place: Place<'_>, limit: u64, count: &mut u64) -> bool
    ensures { (s : System) (here : InstanceAt) → IsPlace place.entry here → Counts limit result count.old count.new (total (map (cell_count s here) here.code.decls)) }
{
    for declaration in place.code.decls.as_slice() {
        if !count_declared(place, declaration, limit, count) {
            return false;
        }
    }
    true
}

fn count_declared(place: Place<'_>, declaration: &Decl, limit: u64, count: &mut u64) -> bool
    ensures { (s : System) (here : InstanceAt) → IsPlace place.entry here → Counts limit result count.old count.new (cell_count s here declaration.now) }
{
    match declaration {
        Decl::Variables(_, kind, names, _) => {
            count_names(place, *kind, names.as_slice(), limit, count)
        }
        _ => true,
    }
}

fn count_names(
    place: Place<'_>,
    kind: VariableKind,
    names: &[Identifier],
    limit: u64,
    count: &mut u64,
) -> bool
    ensures { (here : InstanceAt) → IsPlace place.entry here → Counts limit result count.old count.new (total (map (one_cell here kind) names.now)) }
{
    for identifier in names {
        if !count_name(place, kind, *identifier, limit, count) {
            return false;
        }
    }
    true
}

fn count_name(
    place: Place<'_>,
    kind: VariableKind,
    identifier: Identifier,
    limit: u64,
    count: &mut u64,
) -> bool
    ensures { (here : InstanceAt) → IsPlace place.entry here → Counts limit result count.old count.new (one_cell here kind identifier) }
{
    if is_cell(place, kind, identifier.name) {
        count_one(limit, count)
    } else {
        true
    }
}

/// A variable is a cell; an input is one of main alone; an output is one where it is not bound.
fn is_cell(place: Place<'_>, kind: VariableKind, name: u32) -> bool
    ensures { (here : InstanceAt) → IsPlace place.entry here → result ≡ is_cell here kind name }
{
    match kind {
        VariableKind::Variable => true,
        VariableKind::Input => place.is_main,
        VariableKind::Output => bound_to(place.bindings, name).is_none(),
        VariableKind::Constant => false,
    }
}
