//! The operations on truth values, integers, functions, arrays and records.

ghost use Rattle.std.specs.Prelude.{◌≡◌, IfOk};
ghost use Rattle.uc_terms_table.specs.Types.{array_of_integers, record_of_two};

use crate::building::{
    model_of, model_of_one, model_of_three, model_of_two, of_none, of_one, of_three, of_two,
};
use std::alloc::{AllocError, Global};
use uc_items::{Boxed, Items};
use uc_linear::LinearError;
use uc_terms::{Model, Op};
use uc_values::{Field, Row, Table, Ty, Value};

pub(crate) fn on_truth(alloc: Global, a: bool) -> Result<Value, LinearError> {
    let model = model_of_one(alloc, Value::Bool(a))?;
    of_one(alloc, Op::Not, Ty::Bool, &model)
}

/// Whether all of the three hold.
pub(crate) fn all_of(alloc: Global, a: bool, b: bool, c: bool) -> Result<Value, LinearError> {
    let model = model_of_three(alloc, Value::Bool(a), Value::Bool(b), Value::Bool(c))?;
    of_three(alloc, Op::And, Ty::Bool, Ty::Bool, Ty::Bool, &model)
}

/// Whether one of the three holds.
pub(crate) fn one_of(alloc: Global, a: bool, b: bool, c: bool) -> Result<Value, LinearError> {
    let model = model_of_three(alloc, Value::Bool(a), Value::Bool(b), Value::Bool(c))?;
    of_three(alloc, Op::Or, Ty::Bool, Ty::Bool, Ty::Bool, &model)
}

pub(crate) fn choice(alloc: Global, test: bool, a: i128, b: i128) -> Result<Value, LinearError> {
    let model = model_of_three(alloc, Value::Bool(test), Value::Int(a), Value::Int(b))?;
    of_three(alloc, Op::Ite, Ty::Bool, Ty::Int, Ty::Int, &model)
}

pub(crate) fn are_equal(alloc: Global, a: i128, b: i128) -> Result<Value, LinearError> {
    let model = model_of_two(alloc, Value::Int(a), Value::Int(b))?;
    of_two(alloc, Op::Eq, Ty::Int, Ty::Int, &model)
}

pub(crate) fn is_at_most(alloc: Global, a: i128, b: i128) -> Result<Value, LinearError> {
    let model = model_of_two(alloc, Value::Int(a), Value::Int(b))?;
    of_two(alloc, Op::Le, Ty::Int, Ty::Int, &model)
}

pub(crate) fn sum(alloc: Global, a: i128, b: i128, c: i128) -> Result<Value, LinearError> {
    let model = model_of_three(alloc, Value::Int(a), Value::Int(b), Value::Int(c))?;
    of_three(alloc, Op::Add, Ty::Int, Ty::Int, Ty::Int, &model)
}

pub(crate) fn multiple(alloc: Global, factor: i128, a: i128) -> Result<Value, LinearError> {
    let model = model_of_one(alloc, Value::Int(a))?;
    of_one(alloc, Op::Scale(factor), Ty::Int, &model)
}

pub(crate) fn constant(alloc: Global, number: i128) -> Result<Value, LinearError> {
    let model = model_of(alloc, Vec::new(alloc));
    of_none(alloc, Op::Const(Ty::Int, Value::Int(number)), &model)
}

/// An integer symbol where the model has this value for it.
pub(crate) fn told(alloc: Global, value: Value) -> Result<Value, LinearError> {
    let model = model_of_one(alloc, value)?;
    of_none(alloc, Op::Symbol(0, Ty::Int), &model)
}

/// A function of one row, and 0 elsewhere.
fn function(alloc: Global, from: i128, to: i128) -> Result<Table, AllocError> {
    let mut arguments = Items::new(alloc);
    arguments.push(Value::Int(from))?;
    let mut rows = Items::new(alloc);
    rows.push(Row {
        arguments,
        result: Value::Int(to),
    })?;
    Ok(Table {
        rows,
        default: Value::Int(0),
    })
}

/// The function that has one row, at an integer.
pub(crate) fn applied(
    alloc: Global,
    row: (i128, i128),
    argument: i128,
) -> Result<Value, LinearError> {
    let (from, to) = row;
    let mut model = model_of_one(alloc, Value::Int(argument))?;
    model.tables.push(function(alloc, from, to)?)?;
    of_one(alloc, Op::App(0, Ty::Int), Ty::Int, &model)
}

fn array_ty(alloc: Global) -> Result<Ty, AllocError>
    ensures { IfOk result (λ t. t ≡ array_of_integers) }
{
    Ok(Ty::Arr(Boxed::new(alloc, Ty::Int)?, Boxed::new(alloc, Ty::Int)?))
}

/// An array with these exceptions, and 0 elsewhere.
fn array(alloc: Global, exceptions: &[(i128, i128)]) -> Result<Value, AllocError> {
    let mut rows = Items::new(alloc);
    for &(index, element) in exceptions {
        rows.push((Value::Int(index), Value::Int(element)))?;
    }
    Ok(Value::Arr(Boxed::new(alloc, Value::Int(0))?, rows))
}

#[tactic(auto, using(crate::proofs::Suiting::array_is_valid, crate::proofs::Suiting::select_suits))]
pub(crate) fn selected(
    alloc: Global,
    exceptions: &[(i128, i128)],
    index: i128,
) -> Result<Value, LinearError> {
    let array = array(alloc, exceptions)?;
    let model = model_of_two(alloc, array, Value::Int(index))?;
    let ty = array_ty(alloc)?;
    of_two(alloc, Op::Select, ty, Ty::Int, &model)
}

#[tactic(auto, using(crate::proofs::Suiting::array_is_valid, crate::proofs::Suiting::store_suits))]
pub(crate) fn stored(
    alloc: Global,
    exceptions: &[(i128, i128)],
    index: i128,
    element: i128,
) -> Result<Value, LinearError> {
    let array = array(alloc, exceptions)?;
    let model = model_of_three(alloc, array, Value::Int(index), Value::Int(element))?;
    let ty = array_ty(alloc)?;
    of_three(alloc, Op::Store, ty, Ty::Int, Ty::Int, &model)
}

fn model_of_arrays(
    alloc: Global,
    left: &[(i128, i128)],
    right: &[(i128, i128)],
) -> Result<Model, AllocError> {
    let left = array(alloc, left)?;
    let right = array(alloc, right)?;
    model_of_two(alloc, left, right)
}

#[tactic(auto, using(crate::proofs::Suiting::array_is_valid, crate::proofs::Suiting::diff_suits))]
pub(crate) fn difference(
    alloc: Global,
    left: &[(i128, i128)],
    right: &[(i128, i128)],
) -> Result<Value, LinearError> {
    let model = model_of_arrays(alloc, left, right)?;
    let ty = array_ty(alloc)?;
    let other = array_ty(alloc)?;
    of_two(alloc, Op::Diff, ty, other, &model)
}

fn record_ty(alloc: Global) -> Result<Ty, AllocError>
    ensures { IfOk result (λ t. t ≡ record_of_two) }
{
    let mut fields = Items::new(alloc);
    fields.push(Field {
        name: 0,
        ty: Ty::Bool,
    })?;
    fields.push(Field {
        name: 1,
        ty: Ty::Int,
    })?;
    Ok(Ty::Rec(fields))
}

pub(crate) fn record(alloc: Global, truth: bool, number: i128) -> Result<Value, AllocError> {
    let mut values = Items::new(alloc);
    values.push(Value::Bool(truth))?;
    values.push(Value::Int(number))?;
    Ok(Value::Rec(values))
}

#[tactic(auto, using(crate::proofs::Suiting::make_suits))]
pub(crate) fn made_record(alloc: Global, truth: bool, number: i128) -> Result<Value, LinearError> {
    let model = model_of_two(alloc, Value::Bool(truth), Value::Int(number))?;
    let ty = record_ty(alloc)?;
    of_two(alloc, Op::MkRec(ty), Ty::Bool, Ty::Int, &model)
}

#[tactic(auto, using(crate::proofs::Suiting::record_is_valid, crate::proofs::Suiting::field_suits))]
pub(crate) fn taken_field(
    alloc: Global,
    truth: bool,
    number: i128,
    second: bool,
) -> Result<Value, LinearError> {
    let model = model_of_one(alloc, record(alloc, truth, number)?)?;
    let ty = record_ty(alloc)?;
    of_one(alloc, Op::GetField(u32::from(second)), ty, &model)
}
