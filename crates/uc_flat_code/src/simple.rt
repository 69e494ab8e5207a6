//! Statements that have no statements inside them.

ghost use Rattle.std.specs.Prelude.{◌≡◌, ◌+◌, ◌∷◌, [], if◌then◌else◌, Some, None, slice_get, IfOk};
ghost use Rattle.std.specs.Option.{option_map, option_and_then};
ghost use Rattle.uc_flat_expressions.specs.Answers.{IsAnswer};
ghost use Rattle.uc_flat_expressions.specs.Expressions.{flat_of};
ghost use Rattle.uc_flat_code.specs.Code.{may_write, may_havoc, written_as, written, havocked, assume_of, havoc_of, assigned, spares, assign_of};

use crate::holding::built_where;
use crate::parts::replaced_in;
use crate::reading::spares;
use crate::writing::{Writing, Written};
use std::alloc::{AllocError, Global};
use uc_flat::Statement;
use uc_flat_expressions::{FlatError, Meant, TypedExpression, flat_expression, is_boolean};
use uc_items::{Items, at, beside};
use uc_syntax::{Expr, Target, TargetPart};
use uc_values::{Ty, copy_ty};

/// Code of one statement.
pub(crate) fn one(alloc: Global, statement: Statement) -> Result<Items<Statement>, AllocError>
    ensures { IfOk result (λ code. code ≡ statement ∷ []) }
{
    let mut code = Items::new(alloc);
    code.push(statement)?;
    Ok(code)
}

/// Whether a target with a prime, or with none, may be written.
fn may_write(primes: bool, primed: bool) -> bool
    ensures { result ≡ may_write primes primed }
{
    primes == primed
}

/// Whether `havoc` with a prime, or with none, may stand where targets have primes, or have none.
fn may_havoc(primes: bool, primed: bool) -> bool
    ensures { result ≡ may_havoc primes primed }
{
    primes || !primed
}

/// The cell that is written for a name, so many numbers behind that of the old state. Numbers of cells are below 2^32: a greater one counts
/// as want of memory.
fn written_as(alloc: Global, names: &[Meant], shift: u32, name: u32) -> Result<Written, FlatError>
    ensures { IsAnswer (written_as shift (slice_get names.now name)) result }
{
    match at(names, name as usize) {
        Some(Meant::Cell(old, _, ty)) => behind(alloc, shift, *old, ty),
        _ => Err(FlatError::NotBuilt),
    }
}

/// The cell so many numbers behind another, of the same type.
fn behind(alloc: Global, shift: u32, old: u32, ty: &Ty) -> Result<Written, FlatError>
    ensures { IsAnswer (Some (record { cell = old + shift; ty = ty.now })) result }
{
    let Some(cell) = old.checked_add(shift) else {
        return Err(FlatError::NoMemory);
    };
    let ty = copy_ty(alloc, ty)?;
    Ok(Written { cell, ty })
}

/// The cell that a name writes, where its prime is as it must be.
pub fn written(
    alloc: Global,
    names: &[Meant],
    writing: Writing,
    name: u32,
    primed: bool,
) -> Result<Written, FlatError>
    ensures { IsAnswer (written names.now writing name primed) result }
{
    if !may_write(writing.primed, primed) {
        return Err(FlatError::NotBuilt);
    }
    written_as(alloc, names, writing.shift, name)
}

/// The cell that `havoc` writes for a name, where its prime is as it may be.
fn havocked(
    alloc: Global,
    names: &[Meant],
    writing: Writing,
    name: u32,
    primed: bool,
) -> Result<Written, FlatError>
    ensures { IsAnswer (havocked names.now writing name primed) result }
{
    if !may_havoc(writing.primed, primed) {
        return Err(FlatError::NotBuilt);
    }
    written_as(alloc, names, writing.shift, name)
}

/// A condition is assumed.
pub fn assume(alloc: Global, names: &[Meant], e: &Expr) -> Result<Items<Statement>, FlatError>
    ensures { IsAnswer (option_and_then assume_of (flat_of names.now e.now)) result }
{
    let t = flat_expression(alloc, names, e)?;
    let t = built_where(is_boolean(&t.ty), t)?;
    let code = one(alloc, Statement::Assume(t.expression))?;
    Ok(code)
}

/// A cell takes any value of its type, which is a choice where targets have no prime.
pub fn havoc(
    alloc: Global,
    names: &[Meant],
    writing: Writing,
    name: u32,
    primed: bool,
) -> Result<Items<Statement>, FlatError>
    ensures { IsAnswer (option_map (havoc_of writing) (havocked names.now writing name primed)) result }
{
    let target = havocked(alloc, names, writing, name, primed)?;
    let code = one(alloc, Statement::Havoc(target.cell, !writing.primed))?;
    Ok(code)
}

/// A cell, or a part of it behind fields, takes a value of its type.
#[tactic(auto, unfolding(crate::specs::Walk::behind))]
pub fn assigned(
    alloc: Global,
    target: Written,
    parts: &[TargetPart],
    t: TypedExpression,
) -> Result<Items<Statement>, FlatError>
    ensures { IsAnswer (assigned target parts.now t) result }
{
    let e = replaced_in(alloc, target.cell, Items::new(alloc), &target.ty, parts, t)?;
    let code = one(alloc, Statement::Assign(target.cell, e))?;
    Ok(code)
}

/// One target takes the value of one source, which reads none of the cells.
fn one_assigned(
    alloc: Global,
    names: &[Meant],
    before: &[u32],
    written: Written,
    parts: &[TargetPart],
    source: &Expr,
) -> Result<Items<Statement>, FlatError>
    ensures { IsAnswer (option_and_then (λ x. if spares before.now x.expression then assigned written parts.now x else None) (flat_of names.now source.now)) result }
{
    let (written, t) = beside(written, flat_expression(alloc, names, source))?;
    let (t, written) = built_where(spares(before, &t.expression), (t, written))?;
    assigned(alloc, written, parts, t)
}

/// Each target takes the value of its source, from left to right.
#[tactic(auto, using(crate::proofs::FlatCodeAssigning::uneven_none, crate::proofs::FlatCodeAssigning::targets_begin))]
pub(crate) fn assign(
    alloc: Global,
    names: &[Meant],
    writing: Writing,
    targets: &[Target],
    sources: &[Expr],
) -> Result<Items<Statement>, FlatError>
    ensures { IsAnswer (assign_of names.now writing targets.now sources.now) result }
{
    if targets.len() != sources.len() {
        return Err(FlatError::NotBuilt);
    }
    let mut all = Items::new(alloc);
    let mut before = Items::new(alloc);
    for k in 0..targets.len() {
        let target = &targets[k];
        let written = written(alloc, names, writing, target.name, target.is_primed)?;
        let cell = written.cell;
        let parts = target.parts.as_slice();
        let more = one_assigned(alloc, names, before.as_slice(), written, parts, &sources[k])?;
        all.append(more)?;
        before.push(cell)?;
    }
    Ok(all)
}
