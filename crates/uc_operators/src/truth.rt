//! The operators on truth values.

ghost use Rattle.std.specs.Prelude.{◌≡◌};
ghost use Rattle.uc_values.specs.Values.{same_truth};
ghost use Rattle.uc_meaning.specs.Operators.{holds, any_holds, all_hold, implied, equivalent};

use uc_values::Value;

/// Whether a value is true.
pub fn holds(value: &Value) -> bool
    ensures { result ≡ holds value.now }
{
    matches!(value, Value::Bool(true))
}

/// Whether some operand of `||` is true.
#[tactic(auto, unfolding(uc_meaning::specs::Operators::any_holds))]
pub fn any_holds(values: &[Value]) -> bool
    ensures { result ≡ any_holds values.now }
{
    for value in values {
        if holds(value) {
            return true;
        }
    }
    false
}

/// Whether all operands of `&&` are true.
#[tactic(auto, unfolding(uc_meaning::specs::Operators::all_hold))]
pub fn all_hold(values: &[Value]) -> bool
    ensures { result ≡ all_hold values.now }
{
    for value in values {
        if !holds(value) {
            return false;
        }
    }
    true
}

/// What a chain of `==>` gives, which is grouped from the right.
pub fn implied(values: &[Value]) -> bool
    ensures { result ≡ implied values.now }
{
    for (place, value) in values.iter().enumerate() {
        if place + 1 == values.len() {
            return holds(value);
        }
        if !holds(value) {
            return true;
        }
    }
    true
}

/// What a chain of `<==>` gives, which is grouped from the left.
#[tactic(auto, unfolding(uc_meaning::specs::Operators::equivalent_from))]
pub fn equivalent(values: &[Value]) -> bool
    ensures { result ≡ equivalent values.now }
{
    let mut truth = true;
    for value in values {
        truth = same_truth(truth, holds(value));
    }
    truth
}

fn same_truth(left: bool, right: bool) -> bool
    ensures { result ≡ same_truth left right }
{
    if left { right } else { !right }
}
