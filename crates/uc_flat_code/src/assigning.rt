//! Assignments.

ghost use Rattle.std.specs.Prelude.{◌≡◌, ◌+◌, map, IfOk};
ghost use Rattle.std.specs.Option.{option_and_then, option_map};
ghost use Rattle.uc_flat.specs.declared.expression.Expression.TheVariants.{Cell as ReadCell};
ghost use Rattle.uc_flat_expressions.specs.Answers.{IsAnswer};
ghost use Rattle.uc_flat_expressions.specs.Expressions.{flat_of, all_of};
ghost use Rattle.uc_flat_code.specs.Code.{in_order as all_in_order};
ghost use Rattle.uc_flat_code.specs.Zero.{zero_of};
ghost use Rattle.uc_flat_code.specs.Init.{alone, plainly, given, kept, kept_in, each_given, through_kept, assigned_by};
ghost use Rattle.uc_flat_code.specs.FlatInitWalk.{IsWalked};

use crate::made::{MadeCode, behind};
use crate::zero::zero_expression;
use crate::{Writing, assigned, written};
use std::alloc::{AllocError, Global};
use uc_flat::{Expression, Statement};
use uc_flat_expressions::{FlatError, Meant, TypedExpression, flat_expression};
use uc_items::{Items, beside};
use uc_syntax::{Expr, Target};
use uc_values::copy_ty;

/// Targets have no prime, and write the cells themselves.
pub(crate) fn plainly() -> Writing
    ensures { result ≡ plainly }
{
    Writing {
        primed: false,
        shift: 0,
    }
}

/// The values of all sources.
fn flat_expressions(
    alloc: Global,
    names: &[Meant],
    sources: &[Expr],
) -> Result<Items<TypedExpression>, FlatError>
    ensures { IsAnswer (all_of (map (flat_of names.now) sources.now)) result }
{
    let mut all = Items::new(alloc);
    for source in sources {
        let value = flat_expression(alloc, names, source)?;
        all.push(value)?;
    }
    Ok(all)
}

/// A target takes a value.
fn given(
    alloc: Global,
    names: &[Meant],
    target: &Target,
    value: TypedExpression,
) -> Result<Items<Statement>, FlatError>
    ensures { IsAnswer (given names.now target.now value) result }
{
    let cell = written(alloc, names, plainly(), target.name, target.is_primed);
    let (value, cell) = beside(value, cell)?;
    assigned(alloc, cell, target.parts.as_slice(), value)
}

/// What a further cell keeps.
fn kept_in(alloc: Global, cell: u32, value: &TypedExpression) -> Result<TypedExpression, AllocError>
    ensures { IfOk result (λ x. x ≡ kept_in cell value.now) }
{
    let ty = copy_ty(alloc, &value.ty)?;
    Ok(TypedExpression {
        expression: Expression::Cell(cell),
        ty,
        number: value.number,
    })
}

/// A target takes what is kept for it in the further cell so many behind the first.
fn given_kept(
    alloc: Global,
    names: &[Meant],
    first: u32,
    k: usize,
    target: &Target,
    value: &TypedExpression,
) -> Result<Items<Statement>, FlatError>
    ensures { IsAnswer (given names.now target.now (kept_in (first + k) value.now)) result }
{
    let cell = behind(first, k)?;
    let value = kept_in(alloc, cell, value)?;
    given(alloc, names, target, value)
}

/// Targets from left to right, each with what is kept for it.
#[tactic(auto, using(crate::proofs::Targets::uneven_none))]
fn each_given(
    alloc: Global,
    names: &[Meant],
    first: u32,
    targets: &[Target],
    values: &[TypedExpression],
) -> Result<Items<Statement>, FlatError>
    ensures { IsAnswer (all_in_order (each_given names.now first targets.now values.now)) result }
{
    if targets.len() != values.len() {
        return Err(FlatError::NotBuilt);
    }
    let mut all = Items::new(alloc);
    for k in 0..targets.len() {
        let more = given_kept(alloc, names, first, k, &targets[k], &values[k])?;
        all.append(more)?;
    }
    Ok(all)
}

/// What the further cells begin with that keep values.
fn beginnings(alloc: Global, values: &[TypedExpression]) -> Result<Items<Expression>, AllocError>
    ensures { IfOk result (λ es. es ≡ map (λ x. zero_of x.ty) values.now) }
{
    let mut all = Items::new(alloc);
    for value in values {
        let zero = zero_expression(alloc, &value.ty)?;
        all.push(zero)?;
    }
    Ok(all)
}

/// Values in further cells from a number on.
#[tactic(auto, unfolding(crate::specs::Init::kept))]
fn keep(
    alloc: Global,
    first: u32,
    values: Items<TypedExpression>,
) -> Result<Items<Statement>, AllocError>
    ensures { IfOk result (λ code. code ≡ kept first values) }
{
    let mut all = Items::new(alloc);
    let mut cell = first;
    for value in values.into_vec() {
        all.push(Statement::Assign(cell, value.expression))?;
        cell = behind(cell, 1)?;
    }
    Ok(all)
}

/// Values in further cells from a number on, with what these begin with.
fn kept_values(
    alloc: Global,
    first: u32,
    values: Items<TypedExpression>,
) -> Result<MadeCode, AllocError>
    ensures { IfOk result (λ a. a ≡ record { code = kept first values; further = map (λ x. zero_of x.ty) values }) }
{
    let further = beginnings(alloc, values.as_slice());
    let (values, further) = beside(values, further)?;
    let (further, code) = beside(further, keep(alloc, first, values))?;
    Ok(MadeCode { code, further })
}

/// Of several targets all sources are kept before any target is written.
fn assign_several(
    alloc: Global,
    names: &[Meant],
    first: u32,
    targets: &[Target],
    sources: &[Expr],
) -> Result<MadeCode, FlatError>
    ensures { IsWalked (option_and_then (λ xs. option_map (through_kept names.now first xs) (all_in_order (each_given names.now first targets.now xs))) (all_of (map (flat_of names.now) sources.now))) names.now result }
{
    let values = flat_expressions(alloc, names, sources)?;
    let writes = each_given(alloc, names, first, targets, values.as_slice());
    let (values, writes) = beside(values, writes)?;
    let (writes, mut made) = beside(writes, kept_values(alloc, first, values))?;
    made.code.append(writes)?;
    Ok(made)
}

/// One target takes its source.
fn assign_one(
    alloc: Global,
    names: &[Meant],
    target: &Target,
    source: &Expr,
) -> Result<MadeCode, FlatError>
    ensures { IsWalked (option_and_then (λ x. option_map (alone names.now) (given names.now target.now x)) (flat_of names.now source.now)) names.now result }
{
    let value = flat_expression(alloc, names, source)?;
    let code = given(alloc, names, target, value)?;
    Ok(MadeCode::alone(alloc, code))
}

/// Targets take the values of their sources.
pub(crate) fn assign(
    alloc: Global,
    names: &[Meant],
    first: u32,
    targets: &[Target],
    sources: &[Expr],
) -> Result<MadeCode, FlatError>
    ensures { IsWalked (option_and_then (λ xs. assigned_by targets.now xs names.now first) (all_of (map (flat_of names.now) sources.now))) names.now result }
{
    if targets.len() == 1 && sources.len() == 1 {
        return assign_one(alloc, names, &targets[0], &sources[0]);
    }
    assign_several(alloc, names, first, targets, sources)
}
