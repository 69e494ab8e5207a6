//! Sums, differences, products and the operators on one operand.

ghost use Rattle.std.specs.Prelude.{◌≡◌, ◌≤◌, ◌<◌, ◌+ℤ◌, ◌-ℤ◌, ◌*ℤ◌, pos, [], ◌∷◌, length, slice_index_or, All, IfOk};
ghost use Rattle.uc_syntax.specs.declared.expression.SumSign.{SumSign};
ghost use Rattle.uc_meaning.specs.declared.overflow.WideOp.TheVariants.{Add, Sub, Mul};
ghost use Rattle.uc_meaning.specs.Operators.{plus, minus, product, summed, chained, unary};
ghost use Rattle.uc_meaning.specs.Overflow.{operation, operations_of_sum, operations_of_product, unary_operations};
ghost use Rattle.uc_values.specs.Operators.{subtracted};
ghost use Rattle.uc_operators.specs.Words.{IsWord, signed_sum, sum_operation};
ghost use Rattle.uc_operators.specs.Overflows.{first_wide, TellsWide};

use crate::error::EvalError;
use std::alloc::Global;
use uc_meaning::{Wide, WideOp};
use uc_syntax::{SumSign, UnaryOperator};
use uc_values::{Value, copy, word};

/// A sum with the sign before each operand after the first, from the left.
pub fn summed(alloc: Global, signs: &[SumSign], values: &[Value]) -> Result<Value, EvalError>
    requires { All IsWord values.now }
    ensures value { IfOk result (λ v. v ≡ summed signs.now values.now) }
    ensures wide { TellsWide (first_wide (operations_of_sum signs.now values.now)) result }
{
    if values.is_empty() {
        return Ok(Value::Bool(false));
    }
    let mut total = copy(alloc, &values[0])?;
    let count = signs.len().min(values.len() - 1);
    for place in 0..count {
        total = added(is_minus(signs, place), &total, &values[place + 1])?;
    }
    Ok(total)
}

/// Whether the sign at a place is a minus.
fn is_minus(signs: &[SumSign], place: usize) -> bool
    requires { place < length signs.now }
    ensures { (z : SumSign) → result ≡ (slice_index_or signs.now place z).is_minus }
{
    signs[place].is_minus
}

/// A product from the left.
pub fn multiplied(alloc: Global, values: &[Value]) -> Result<Value, EvalError>
    requires { All IsWord values.now }
    ensures value { IfOk result (λ v. v ≡ chained product values.now) }
    ensures wide { TellsWide (first_wide (operations_of_product values.now)) result }
{
    if values.is_empty() {
        return Ok(Value::Bool(false));
    }
    let mut total = copy(alloc, &values[0])?;
    for place in 1..values.len() {
        total = product(&total, &values[place])?;
    }
    Ok(total)
}

/// What an operator on one operand gives.
pub fn unary(operator: UnaryOperator, value: &Value) -> Result<Value, EvalError>
    requires { IsWord value.now }
    ensures value { IfOk result (λ v. v ≡ unary operator value.now) }
    ensures wide { TellsWide (first_wide (unary_operations operator value.now)) result }
{
    match (operator, value) {
        (UnaryOperator::Not, Value::Bool(truth)) => Ok(Value::Bool(!*truth)),
        (UnaryOperator::Negate, Value::Int(number)) => Ok(Value::Int(whole_difference(
            0, *number,
        )?)),
        (UnaryOperator::Negate, Value::Bv(width, bits)) => {
            Ok(Value::Bv(*width, word::negate(*width, *bits)))
        }
        (UnaryOperator::Complement, Value::Bv(width, bits)) => {
            Ok(Value::Bv(*width, word::complement(*width, *bits)))
        }
        _ => Ok(Value::Bool(false)),
    }
}

/// A sum or a difference of two values.
fn added(is_minus: bool, left: &Value, right: &Value) -> Result<Value, EvalError>
    requires left { IsWord left.now }
    requires right { IsWord right.now }
    ensures word { IfOk result IsWord }
    ensures value { IfOk result (λ v. v ≡ signed_sum is_minus left.now right.now) }
    ensures wide { TellsWide (first_wide (sum_operation is_minus left.now right.now)) result }
{
    match (left, right) {
        (Value::Int(a), Value::Int(b)) => {
            let number = if is_minus {
                whole_difference(*a, *b)?
            } else {
                whole_sum(*a, *b)?
            };
            Ok(Value::Int(number))
        }
        (Value::Bv(width, a), Value::Bv(_, b)) => {
            let bits = if is_minus {
                difference(*width, *a, *b)
            } else {
                word::add(*width, *a, *b)
            };
            Ok(Value::Bv(*width, bits))
        }
        _ => Ok(Value::Bool(false)),
    }
}

/// A product of two values.
fn product(left: &Value, right: &Value) -> Result<Value, EvalError>
    requires { IsWord left.now }
    ensures word { IfOk result IsWord }
    ensures value { IfOk result (λ v. v ≡ product left.now right.now) }
    ensures wide { TellsWide (first_wide (operation Mul left.now right.now)) result }
{
    match (left, right) {
        (Value::Int(a), Value::Int(b)) => Ok(Value::Int(whole_product(*a, *b)?)),
        (Value::Bv(width, a), Value::Bv(_, b)) => {
            Ok(Value::Bv(*width, word::multiply(*width, *a, *b)))
        }
        _ => Ok(Value::Bool(false)),
    }
}

/// The difference of two numbers of bits, where the second may have more bits than the width.
fn difference(width: u8, a: u64, b: u64) -> u64
    requires { width ≤ 64 }
    ensures { result ≡ subtracted width a b }
{
    if u128::from(b) < 1u128 << width {
        word::subtract(width, a, b)
    } else {
        word::add(width, a, 0)
    }
}

fn whole_sum(a: i128, b: i128) -> Result<i128, EvalError>
    ensures value { IfOk result (λ z. z ≡ a +ℤ b) }
    ensures wide { TellsWide (first_wide (record { op = Add; a = a; b = b } ∷ [])) result }
{
    a.checked_add(b).ok_or(EvalError::Wide(Wide {
        op: WideOp::Add,
        a,
        b,
    }))
}

fn whole_difference(a: i128, b: i128) -> Result<i128, EvalError>
    ensures value { IfOk result (λ z. z ≡ a -ℤ b) }
    ensures wide { TellsWide (first_wide (record { op = Sub; a = a; b = b } ∷ [])) result }
{
    a.checked_sub(b).ok_or(EvalError::Wide(Wide {
        op: WideOp::Sub,
        a,
        b,
    }))
}

fn whole_product(a: i128, b: i128) -> Result<i128, EvalError>
    ensures value { IfOk result (λ z. z ≡ a *ℤ b) }
    ensures wide { TellsWide (first_wide (record { op = Mul; a = a; b = b } ∷ [])) result }
{
    a.checked_mul(b).ok_or(EvalError::Wide(Wide {
        op: WideOp::Mul,
        a,
        b,
    }))
}
