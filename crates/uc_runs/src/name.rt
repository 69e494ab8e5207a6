//! A name that is given a value.

ghost use Rattle.std.specs.Prelude.{◌≡◌};
ghost use Rattle.uc_meaning.specs.Code.{set_name, set_local, set_cell, written_cell};
ghost use Rattle.uc_runs.specs.Writes.{has_local, with_cell};

use crate::cell::written_cell;
use uc_items::Items;
use uc_layout::Layout;
use uc_meaning::{Local, Scope};
use uc_values::Value;

/// The scope after a name is given a value: its newest local, else the cell that it stands for.
#[tactic(auto, using(crate::proofs::Naming::names_local, crate::proofs::Naming::names_cell))]
pub fn set_name(layout: &Layout, scope: Scope, name: u32, value: Value) -> Scope
    ensures { result ≡ set_name layout.now scope name value }
{
    if is_local(scope.locals.as_slice(), name) {
        set_local(scope, name, value)
    } else {
        set_cell(layout, scope, name, value)
    }
}

fn is_local(locals: &[Local], name: u32) -> bool
    ensures { result ≡ has_local locals.now name }
{
    locals.iter().any(|local| local.name == name)
}

/// The scope after the newest local of a name is given a value.
fn set_local(scope: Scope, name: u32, value: Value) -> Scope
    ensures { result ≡ record scope { locals = set_local scope.locals name value } }
{
    let Scope {
        path,
        before,
        after,
        at_entry,
        copies,
        locals,
        interp,
    } = scope;
    Scope {
        path,
        before,
        after,
        at_entry,
        copies,
        locals: changed(locals, name, value),
        interp,
    }
}

fn changed(locals: Items<Local>, name: u32, value: Value) -> Items<Local>
    ensures { result ≡ set_local locals name value }
{
    let mut locals = locals.into_vec();
    change(&mut locals, name, value);
    Items::from_vec(locals)
}

#[tactic(auto, using(crate::proofs::Naming::local_turn, crate::proofs::Naming::local_here, crate::proofs::Naming::local_end))]
fn change(locals: &mut [Local], name: u32, value: Value)
    ensures { locals.new ≡ set_local locals.old name value }
{
    for place in 0..locals.len() {
        if locals[place].name == name {
            locals[place].value = value;
            return;
        }
    }
}

/// The scope after the cell that a name stands for is given a value.
fn set_cell(layout: &Layout, scope: Scope, name: u32, value: Value) -> Scope
    ensures { result ≡ record scope { before = set_cell scope.before (written_cell layout.now scope.path name) value } }
{
    let mut scope = scope;
    let cell = written_cell(layout, scope.path.as_slice(), name);
    change_cell(&mut scope.before.cells, cell, value);
    scope
}

#[tactic(auto, using(std::proofs::lemmas::List::set_past))]
fn change_cell(cells: &mut Items<Value>, cell: Option<usize>, value: Value)
    ensures { cells.new ≡ with_cell cells.old cell value }
{
    if let Some(place) = cell {
        if place < cells.len() {
            cells.set(place, value);
        }
    }
}
