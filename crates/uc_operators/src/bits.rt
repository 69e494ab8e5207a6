//! The operators on bit-vectors.

ghost use Rattle.std.specs.Prelude.{◌≡◌, ◌+◌, ◌-◌, ◌≤◌, All, IfOk};
ghost use Rattle.uc_values.specs.Values.{width_in, bits_of};
ghost use Rattle.uc_values.specs.Operators.{shifted_right};
ghost use Rattle.uc_syntax.specs.declared.expression.BitFunction.TheVariants.{ZeroExtend, SignExtend};
ghost use Rattle.uc_meaning.specs.Operators.{chained, concatenated, extracted, on_bits};
ghost use Rattle.uc_operators.specs.Words.{IsWord, total_width};
ghost use Rattle.uc_operators.specs.Bits.{combined, IsCount};

use std::alloc::{AllocError, Global};
use uc_syntax::BitFunction;
use uc_values::{Value, copy, word};

/// The operators that work bit by bit.
#[derive(Clone, Copy, Debug, PartialEq, Eq)]
pub enum BitOperator {
    And,
    Or,
    Xor,
}

/// A chain of an operator that works bit by bit, from the left.
pub fn bitwise(alloc: Global, operator: BitOperator, values: &[Value]) -> Result<Value, AllocError>
    ensures { IfOk result (λ v. v ≡ chained (combined operator) values.now) }
{
    if values.is_empty() {
        return Ok(Value::Bool(false));
    }
    let mut total = copy(alloc, &values[0])?;
    for place in 1..values.len() {
        total = combined(operator, &total, &values[place]);
    }
    Ok(total)
}

fn combined(operator: BitOperator, left: &Value, right: &Value) -> Value
    ensures { result ≡ combined operator left.now right.now }
{
    let a = bits_of(left);
    let b = bits_of(right);
    let bits = match operator {
        BitOperator::And => a & b,
        BitOperator::Or => a | b,
        BitOperator::Xor => a ^ b,
    };
    Value::Bv(width_in(left), bits)
}

/// The width of a bit-vector, and 0 for another value.
fn width_in(value: &Value) -> u8
    ensures { result ≡ width_in value.now }
{
    match value {
        Value::Bv(width, _) => *width,
        _ => 0,
    }
}

/// The number of a bit-vector, and 0 for another value.
fn bits_of(value: &Value) -> u64
    ensures { result ≡ bits_of value.now }
{
    match value {
        Value::Bv(_, bits) => *bits,
        _ => 0,
    }
}

/// A chain of `++`, whose first operand is the high part.
#[tactic(auto, unfolding(crate::specs::Words::total_width))]
pub fn concatenated(alloc: Global, values: &[Value]) -> Result<Value, AllocError>
    requires words { All IsWord values.now }
    requires width { total_width values.now ≤ 64 }
    ensures { IfOk result (λ v. v ≡ chained concatenated values.now) }
{
    if values.is_empty() {
        return Ok(Value::Bool(false));
    }
    let mut total = copy(alloc, &values[0])?;
    for place in 1..values.len() {
        total = joined(&total, &values[place]);
    }
    Ok(total)
}

/// Two bit-vectors as one.
fn joined(high: &Value, low: &Value) -> Value
    requires high { IsWord high.now }
    requires low { IsWord low.now }
    requires width { width_in high.now + width_in low.now ≤ 64 }
    ensures { result ≡ concatenated high.now low.now }
{
    let high_width = width_in(high);
    let low_width = width_in(low);
    let bits = word::concat(high_width, bits_of(high), low_width, bits_of(low));
    Value::Bv(high_width + low_width, bits)
}

/// The bits from high down to low, both included.
pub fn extracted(high: u128, low: u128, value: &Value) -> Value
    requires { high - low + 1 ≤ 64 }
    ensures { result ≡ extracted high low value.now }
{
    let width = (high.saturating_sub(low) + 1) as u8;
    let bits = shifted_right(bits_of(value), low);
    Value::Bv(width, word::extract(width - 1, 0, bits))
}

/// The shift to the right by any amount, which fills with 0.
fn shifted_right(bits: u64, amount: u128) -> u64
    ensures { result ≡ shifted_right bits amount }
{
    if amount >= 64 {
        return 0;
    }
    word::shift_right(bits, amount as u64)
}

/// What a function on bits gives for its first operand, a number or an amount, and the bits.
pub fn on_bits(function: BitFunction, number: &Value, value: &Value) -> Value
    requires value { IsWord value.now }
    requires result { IsWord (on_bits function number.now value.now) }
    ensures { result ≡ on_bits function number.now value.now }
{
    match function {
        BitFunction::ZeroExtend => zero_extended(number, value),
        BitFunction::SignExtend => sign_extended(number, value),
        BitFunction::ShiftLeft => match (number, value) {
            (Value::Bv(_, amount), Value::Bv(width, bits)) => {
                Value::Bv(*width, word::shift_left(*width, *bits, *amount))
            }
            _ => Value::Bool(false),
        },
        BitFunction::ShiftRight => match (number, value) {
            (Value::Bv(_, amount), Value::Bv(width, bits)) => {
                Value::Bv(*width, word::shift_right(*bits, *amount))
            }
            _ => Value::Bool(false),
        },
        BitFunction::ShiftRightSigned => match (number, value) {
            (Value::Bv(_, amount), Value::Bv(width, bits)) => {
                Value::Bv(*width, word::shift_right_signed(*width, *bits, *amount))
            }
            _ => Value::Bool(false),
        },
    }
}

/// Zeros before a bit-vector.
#[tactic(auto, using(crate::proofs::Extensions::no_zero_extension))]
fn zero_extended(number: &Value, value: &Value) -> Value
    requires { IsWord (on_bits ZeroExtend number.now value.now) }
    ensures { result ≡ on_bits ZeroExtend number.now value.now }
{
    let Value::Bv(width, bits) = value else {
        return Value::Bool(false);
    };
    match count(number) {
        Some(more) => Value::Bv(*width + more, *bits),
        None => Value::Bool(false),
    }
}

/// Copies of the highest bit before a bit-vector.
#[tactic(auto, using(crate::proofs::Extensions::no_sign_extension))]
fn sign_extended(number: &Value, value: &Value) -> Value
    requires value { IsWord value.now }
    requires result { IsWord (on_bits SignExtend number.now value.now) }
    ensures { result ≡ on_bits SignExtend number.now value.now }
{
    let Value::Bv(width, bits) = value else {
        return Value::Bool(false);
    };
    match count(number) {
        Some(more) => Value::Bv(*width + more, word::sign_extend(*width, more, *bits)),
        None => Value::Bool(false),
    }
}

/// The number of a whole number that fits a byte.
fn count(number: &Value) -> Option<u8>
    ensures { IsCount result number.now }
{
    match number {
        Value::Int(number) => u8::try_from(*number).ok(),
        _ => None,
    }
}
