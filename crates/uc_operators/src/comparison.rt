//! Comparisons.

ghost use Rattle.std.specs.Prelude.{◌≡◌, ◌≤◌, int_lt, int_le, nat_lt, nat_le};
ghost use Rattle.uc_meaning.specs.Operators.{compared, ordered, ordered_unsigned};
ghost use Rattle.uc_operators.specs.Words.{IsWord};

use uc_syntax::Comparison;
use uc_values::{Ty, Value, same, word};

/// Whether a comparison of two values of a type holds.
pub fn compared(comparison: Comparison, ty: &Ty, left: &Value, right: &Value) -> bool
    requires left { IsWord left.now }
    requires right { IsWord right.now }
    ensures { result ≡ compared comparison ty.now left.now right.now }
{
    match comparison {
        Comparison::Equal => same(left, right, ty),
        Comparison::Unequal => !same(left, right, ty),
        Comparison::Less => less(left, right),
        Comparison::AtMost => at_most(left, right),
        Comparison::Greater => less(right, left),
        Comparison::AtLeast => at_most(right, left),
        Comparison::LessUnsigned => less_unsigned(left, right),
        Comparison::AtMostUnsigned => at_most_unsigned(left, right),
        Comparison::GreaterUnsigned => less_unsigned(right, left),
        Comparison::AtLeastUnsigned => at_most_unsigned(right, left),
    }
}

/// Whether a number is below another. Bit-vectors count as signed.
fn less(left: &Value, right: &Value) -> bool
    requires left { IsWord left.now }
    requires right { IsWord right.now }
    ensures { result ≡ ordered int_lt left.now right.now }
{
    match (left, right) {
        (Value::Int(a), Value::Int(b)) => a < b,
        (Value::Bv(width, a), Value::Bv(own, b)) => word::signed(*width, *a)
            < word::signed(*own, *b),
        _ => false,
    }
}

/// Whether a number is at most another. Bit-vectors count as signed.
fn at_most(left: &Value, right: &Value) -> bool
    requires left { IsWord left.now }
    requires right { IsWord right.now }
    ensures { result ≡ ordered int_le left.now right.now }
{
    match (left, right) {
        (Value::Int(a), Value::Int(b)) => a <= b,
        (Value::Bv(width, a), Value::Bv(own, b)) => word::signed(*width, *a)
            <= word::signed(*own, *b),
        _ => false,
    }
}

fn less_unsigned(left: &Value, right: &Value) -> bool
    ensures { result ≡ ordered_unsigned nat_lt left.now right.now }
{
    match (left, right) {
        (Value::Bv(_, a), Value::Bv(_, b)) => a < b,
        _ => false,
    }
}

fn at_most_unsigned(left: &Value, right: &Value) -> bool
    ensures { result ≡ ordered_unsigned nat_le left.now right.now }
{
    match (left, right) {
        (Value::Bv(_, a), Value::Bv(_, b)) => a <= b,
        _ => false,
    }
}
