//! The walk through two values.

ghost use Rattle.std.specs.Prelude.{◌≡◌};
ghost use Rattle.std.specs.Bool.{Decides};

use uc_values::Value;

/// Whether two values are equal.
#[cycle(equal)]
pub fn equal(left: &Value, right: &Value) -> bool
    ensures { Decides result (left.now ≡ right.now) }
{
    match left {
        Value::Bool(truth) => {
            let Value::Bool(other) = right else {
                return false;
            };
            truth == other
        }
        Value::Int(number) => {
            let Value::Int(other) = right else {
                return false;
            };
            number == other
        }
        Value::Bv(width, bits) => {
            let Value::Bv(own, other) = right else {
                return false;
            };
            width == own && bits == other
        }
        Value::Enum(number, label) => {
            let Value::Enum(own, other) = right else {
                return false;
            };
            number == own && label == other
        }
        Value::Un(number, place) => {
            let Value::Un(own, other) = right else {
                return false;
            };
            number == own && place == other
        }
        Value::Rec(parts) => {
            let Value::Rec(others) = right else {
                return false;
            };
            equal_all(parts.as_slice(), others.as_slice())
        }
        Value::Arr(default, rows) => {
            let Value::Arr(other, others) = right else {
                return false;
            };
            equal(default.get(), other.get()) && equal_rows(rows.as_slice(), others.as_slice())
        }
    }
}

/// Whether two lists of values are equal.
#[cycle(equal)]
pub fn equal_all(left: &[Value], right: &[Value]) -> bool
    ensures { Decides result (left.now ≡ right.now) }
{
    if left.len() != right.len() {
        return false;
    }
    for place in 0..left.len() {
        if !equal(&left[place], &right[place]) {
            return false;
        }
    }
    true
}

#[cycle(equal)]
fn equal_rows(left: &[(Value, Value)], right: &[(Value, Value)]) -> bool
    ensures { Decides result (left.now ≡ right.now) }
{
    if left.len() != right.len() {
        return false;
    }
    for place in 0..left.len() {
        if !equal(&left[place].0, &right[place].0) {
            return false;
        }
        if !equal(&left[place].1, &right[place].1) {
            return false;
        }
    }
    true
}
