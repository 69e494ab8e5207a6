//! What an expression or a statement is read in.

ghost use Rattle.std.specs.Prelude.{◌≡◌, IfOk};

use crate::path::Path;
use std::alloc::{AllocError, Global};
use uc_items::Items;
use uc_syntax::Place;
use uc_values::{Table, Ty, Value, copy_all};

/// A value for each constant and a table for each function of the modules in use, by module and declaration.
#[derive(Drop)]
pub struct Interp {
    pub consts: Items<Value>,
    pub tables: Items<Table>,
}

/// A value for each cell.
#[derive(Drop)]
pub struct State {
    pub cells: Items<Value>,
}

/// The same state again.
pub fn copy_state(alloc: Global, state: &State) -> Result<State, AllocError>
    ensures { IfOk result (λ s. s ≡ state.now) }
{
    let cells = copy_all(alloc, state.cells.as_slice())?;
    Ok(State { cells })
}

/// A parameter, a result, a local variable or a loop variable.
#[derive(Drop)]
pub struct Local {
    pub name: u32,
    pub ty: Ty,
    pub value: Value,
}

/// Where and when an expression is read. The newest local comes first.
#[derive(Drop)]
pub struct Scope {
    pub path: Path,
    pub before: State,
    pub after: Option<State>,
    pub at_entry: Option<State>,
    pub copies: Items<State>,
    pub locals: Items<Local>,
    pub interp: Interp,
}

/// An assertion, which has number 0, or a `requires` of a call, numbered from 1.
#[derive(Drop)]
pub struct Site {
    pub path: Path,
    pub place: Place,
    pub requires_: u32,
}
