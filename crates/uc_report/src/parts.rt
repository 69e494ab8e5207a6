//! What a value is made of.

ghost use Rattle.std.specs.Prelude.{◌≡◌};
ghost use Rattle.uc_values.specs.Values.{truth_of, number_of, bits_of, label_of, member_of, parts_of};
ghost use Rattle.uc_report.specs.Values.{rows_of, default_of};

use uc_values::Value;

/// The truth of a value, and false for one of another kind.
pub(crate) fn truth_of(value: &Value) -> bool
    ensures { result ≡ truth_of value.now }
{
    match value {
        Value::Bool(truth) => *truth,
        _ => false,
    }
}

/// The whole number of a value, and 0 for one of another kind.
pub(crate) fn number_of(value: &Value) -> i128
    ensures { result ≡ number_of value.now }
{
    match value {
        Value::Int(number) => *number,
        _ => 0,
    }
}

/// The number of a bit-vector, and 0 for another value.
pub(crate) fn bits_of(value: &Value) -> u64
    ensures { result ≡ bits_of value.now }
{
    match value {
        Value::Bv(_, bits) => *bits,
        _ => 0,
    }
}

/// The place of a label, and 0 for another value.
pub(crate) fn label_of(value: &Value) -> u32
    ensures { result ≡ label_of value.now }
{
    match value {
        Value::Enum(_, label) => *label,
        _ => 0,
    }
}

/// Which value of its type it is, and 0 for a value of a type with a definition.
pub(crate) fn member_of(value: &Value) -> u64
    ensures { result ≡ member_of value.now }
{
    match value {
        Value::Un(_, member) => *member,
        _ => 0,
    }
}

/// The parts of a record, none for another value.
pub(crate) fn parts_of(value: &Value) -> &[Value]
    ensures { result.now ≡ parts_of value.now }
{
    match value {
        Value::Rec(parts) => parts.as_slice(),
        _ => &[],
    }
}

/// The exceptions of an array, none for another value.
pub(crate) fn rows_of(value: &Value) -> &[(Value, Value)]
    ensures { result.now ≡ rows_of value.now }
{
    match value {
        Value::Arr(_, rows) => rows.as_slice(),
        _ => &[],
    }
}

/// What an array holds at every other index, and any other value itself.
pub(crate) fn default_of(value: &Value) -> &Value
    ensures { result.now ≡ default_of value.now }
{
    match value {
        Value::Arr(default, _) => default.get(),
        _ => value,
    }
}
