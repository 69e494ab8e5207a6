//! The code over cells of a next block.

ghost use Rattle.std.specs.Prelude.{◌≡◌, map, slice_get};
ghost use Rattle.std.specs.Option.{option_to_list};
ghost use Rattle.uc_flat_expressions.specs.Answers.{IsAnswer};
ghost use Rattle.uc_flat_code.specs.Code.{in_order};
ghost use Rattle.uc_flat_code.specs.Once.{code_once};
ghost use Rattle.uc_flat_order.specs.Slices.{all_slices};
ghost use Rattle.uc_flat_order.specs.Arranged.{in_turn, code_arranged};
ghost use Rattle.uc_flat_order.specs.Uses.{code_at};

use crate::all_slices;
use crate::uses::order_of;
use std::alloc::Global;
use uc_flat::Statement;
use uc_flat_code::{Writing, flat_code};
use uc_flat_expressions::{FlatError, Meant};
use uc_items::Items;
use uc_syntax::Stmt;

/// The code over cells of a next block, where names stand for what is listed by their numbers: that of its statements, each time the first
/// that may be run before all that are left, or, where each order of them writes a part of a cell on some way after it was written there, or
/// read in the new state, that of its slices. Not built is what `flat_code` does not build, and where these have no such order.
pub fn code_arranged(
    alloc: Global,
    names: &[Meant],
    writing: Writing,
    code: &[Stmt],
) -> Result<Items<Statement>, FlatError>
    ensures { IsAnswer (code_arranged names.now writing code.now) result }
{
    match order_of(alloc, names, writing.shift, code)? {
        Some(order) => code_along(alloc, names, writing, code, order.as_slice()),
        None => code_apart(alloc, names, writing, code),
    }
}

/// The code of the slices of a block.
fn code_apart(
    alloc: Global,
    names: &[Meant],
    writing: Writing,
    code: &[Stmt],
) -> Result<Items<Statement>, FlatError>
    ensures { IsAnswer (code_once names.now writing (in_turn names.now writing.shift (all_slices code.now))) result }
{
    let statements = all_slices(alloc, code)?;
    code_in_turn(alloc, names, writing, statements.as_slice())
}

/// The code of statements, each time the first that may be run before all that are left.
fn code_in_turn(
    alloc: Global,
    names: &[Meant],
    writing: Writing,
    code: &[Stmt],
) -> Result<Items<Statement>, FlatError>
    ensures { IsAnswer (code_once names.now writing (in_turn names.now writing.shift code.now)) result }
{
    let Some(order) = order_of(alloc, names, writing.shift, code)? else {
        return Err(FlatError::NotBuilt);
    };
    code_along(alloc, names, writing, code, order.as_slice())
}

/// The code of the statements at these places, in this order.
fn code_along(
    alloc: Global,
    names: &[Meant],
    writing: Writing,
    code: &[Stmt],
    order: &[usize],
) -> Result<Items<Statement>, FlatError>
    ensures { IsAnswer (in_order (map (code_at names.now writing code.now) order.now)) result }
{
    let mut all = Items::new(alloc);
    for place in order {
        let more = code_at(alloc, names, writing, code, *place)?;
        all.append(more)?;
    }
    Ok(all)
}

fn code_at(
    alloc: Global,
    names: &[Meant],
    writing: Writing,
    code: &[Stmt],
    place: usize,
) -> Result<Items<Statement>, FlatError>
    ensures { IsAnswer (code_at names.now writing code.now place) result }
{
    flat_code(alloc, names, writing, statement_at(code, place))
}

/// The statement at a place, as code: past the block there is none.
#[tactic(auto, using(crate::proofs::Along::one_there, crate::proofs::Along::none_there))]
fn statement_at(code: &[Stmt], place: usize) -> &[Stmt]
    ensures { result.now ≡ option_to_list (slice_get code.now place) }
{
    if place < code.len() {
        &code[place..place + 1]
    } else {
        &[]
    }
}
