//! Statements that have no code over cells.

ghost use Rattle.std.specs.Prelude.{◌≡◌, ◌+◌, ◌∷◌, [], IfOk, IfSome};
ghost use Rattle.std.specs.Option.{is_some};
ghost use Rattle.uc_flat_code.specs.Code.{code_of};
ghost use Rattle.uc_flat_code.specs.CellTypes.{cell_type_of};
ghost use Rattle.uc_flat_code.specs.Init.{making_of};
ghost use Rattle.uc_flat_order.specs.Arranged.{code_arranged};
ghost use Rattle.uc_runnable.specs.Unfit.{begins_at, unless_there, unfit_statement, unfit_block, unfit_next, unfit_init, IsBehind};

use std::alloc::{AllocError, Global};
use uc_flat_code::{Writing, copy_names, flat_code, statement_code};
use uc_flat_expressions::{FlatError, Meant};
use uc_flat_order::code_arranged;
use uc_items::Items;
use uc_syntax::{Module, Place, Stmt};
use uc_type_reader::Tables;

/// The place where a statement begins.
#[tactic(auto, using(crate::proofs::Begins::begins_local, crate::proofs::Begins::begins_skip, crate::proofs::Begins::begins_block, crate::proofs::Begins::begins_assert, crate::proofs::Begins::begins_assume, crate::proofs::Begins::begins_havoc, crate::proofs::Begins::begins_assign, crate::proofs::Begins::begins_if, crate::proofs::Begins::begins_case, crate::proofs::Begins::begins_for, crate::proofs::Begins::begins_call, crate::proofs::Begins::begins_next))]
fn begins_at(statement: &Stmt) -> Place
    ensures { result ≡ begins_at statement.now }
{
    match statement {
        Stmt::Local(place, _, _) => *place,
        Stmt::Skip(place) => *place,
        Stmt::Block(place, _) => *place,
        Stmt::Assert(place, _, _) => *place,
        Stmt::Assume(place, _) => *place,
        Stmt::Havoc(place, _, _) => *place,
        Stmt::Assign(place, _, _) => *place,
        Stmt::If(place, _, _) => *place,
        Stmt::Case(place, _, _) => *place,
        Stmt::For(place, _, _, _, _, _) => *place,
        Stmt::Call(place, _, _, _) => *place,
        Stmt::Next(place, _) => *place,
    }
}

/// Whether code has code over cells.
#[tactic(auto, using(crate::proofs::Answers::there, crate::proofs::Answers::not_there))]
fn has_code(
    alloc: Global,
    names: &[Meant],
    writing: Writing,
    block: &[Stmt],
) -> Result<bool, AllocError>
    ensures { IfOk result (λ b. b ≡ is_some (code_of names.now writing block.now)) }
{
    match flat_code(alloc, names, writing, block) {
        Ok(_) => Ok(true),
        Err(FlatError::NotBuilt) => Ok(false),
        Err(FlatError::NoMemory) => Err(AllocError),
    }
}

/// Whether a next block has code over cells, and writes no part of a cell on a way after it was written there, or read in the new state.
#[tactic(auto, using(crate::proofs::Answers::there, crate::proofs::Answers::not_there))]
fn has_code_arranged(
    alloc: Global,
    names: &[Meant],
    writing: Writing,
    block: &[Stmt],
) -> Result<bool, AllocError>
    ensures { IfOk result (λ b. b ≡ is_some (code_arranged names.now writing block.now)) }
{
    match code_arranged(alloc, names, writing, block) {
        Ok(_) => Ok(true),
        Err(FlatError::NotBuilt) => Ok(false),
        Err(FlatError::NoMemory) => Err(AllocError),
    }
}

/// The place of the first statement of a block that has no code over cells.
#[tactic(auto, unfolding(uc_meaning::specs::Lookup::first_some))]
fn unfit_block(
    alloc: Global,
    names: &[Meant],
    writing: Writing,
    block: &[Stmt],
) -> Result<Option<Place>, AllocError>
    ensures { IfOk result (λ p. p ≡ unfit_block names.now writing block.now) }
{
    for k in 0..block.len() {
        if !has_code(alloc, names, writing, &block[k..k + 1])? {
            return Ok(Some(begins_at(&block[k])));
        }
    }
    Ok(None)
}

/// The same of a next block that begins at a place; then the block itself, where it writes a part of a cell on a way after it was written
/// there, or read in the new state.
pub(crate) fn unfit_next(
    alloc: Global,
    names: &[Meant],
    writing: Writing,
    place: Place,
    block: &[Stmt],
) -> Result<Option<Place>, AllocError>
    ensures { IfOk result (λ p. p ≡ unfit_next names.now writing place block.now) }
{
    if let Some(found) = unfit_block(alloc, names, writing, block)? {
        return Ok(Some(found));
    }
    if !has_code_arranged(alloc, names, writing, block)? {
        return Ok(Some(place));
    }
    Ok(None)
}

/// The number of the next further cell behind a statement of an init block, where names stand for its locals from then on; none where it has
/// no code over cells. Numbers of cells are below 2^32: a greater one counts as want of memory.
#[tactic(auto, using(crate::proofs::Beginnings::behind_made))]
fn number_behind(
    alloc: Global,
    tables: &Tables,
    code: &Module,
    names: &mut Items<Meant>,
    number: u32,
    statement: &Stmt,
) -> Result<Option<u32>, AllocError>
    ensures { IfOk result (IsBehind (making_of (cell_type_of tables.now code.now) statement.now names.old number) names.new number) }
{
    match statement_code(alloc, tables, code, names, number, statement) {
        Ok(made) => match later(number, made.further.len()) {
            Some(next) => Ok(Some(next)),
            None => Err(AllocError),
        },
        Err(FlatError::NotBuilt) => Ok(None),
        Err(FlatError::NoMemory) => Err(AllocError),
    }
}

/// The number so many behind another, where it is below 2^32.
fn later(number: u32, count: usize) -> Option<u32>
    ensures { IfSome result (λ k. number + count ≡ k) }
{
    let Ok(count) = u32::try_from(count) else {
        return None;
    };
    number.checked_add(count)
}

/// The place of the first statement of an init block that has no code over cells.
pub(crate) fn unfit_init(
    alloc: Global,
    tables: &Tables,
    code: &Module,
    names: &[Meant],
    count: u32,
    block: &[Stmt],
) -> Result<Option<Place>, AllocError>
    ensures { IfOk result (λ p. p ≡ unfit_init (cell_type_of tables.now code.now) names.now count block.now) }
{
    let mut standing = copy_names(alloc, names)?;
    let mut number = count;
    for statement in block {
        match number_behind(alloc, tables, code, &mut standing, number, statement)? {
            Some(next) => number = next,
            None => return Ok(Some(begins_at(statement))),
        }
    }
    Ok(None)
}
