//! An index at which two arrays differ.

ghost use Rattle.std.specs.Prelude.{◌≡◌, ◌+◌, ◌<◌, ◌++◌, ◌||◌, length, IfOk};
ghost use Rattle.std.specs.Option.{option_copied, option_map};
ghost use Rattle.uc_values.specs.Values.{nothing, indices, lists};
ghost use Rattle.uc_values.specs.Sameness.{same};
ghost use Rattle.uc_ops.specs.Typing.{index_of, element_of};
ghost use Rattle.uc_ops.specs.Differences.{nth_value, at_most, unlisted, rows_in, listed_in, default_of, first_difference, default_difference, difference_in, difference};

use crate::typing::{element, index};
use std::alloc::{AllocError, Global};
use uc_values::{Ty, Value, copy, lookup, same, same_scalar, zero};

/// An index at which two arrays of a type differ, where they differ. It takes a step for each pair of an exception of the one
/// and an exception of the other.
pub(crate) fn difference(
    alloc: Global,
    ty: &Ty,
    left: &Value,
    right: &Value,
) -> Result<Value, AllocError>
    ensures { IfOk result (λ v. v ≡ difference ty.now left.now right.now) }
{
    let boolean = Ty::Bool;
    let of_index = match index(Some(ty)) {
        Some(index) => index,
        None => &boolean,
    };
    let of_element = match element(Some(ty)) {
        Some(element) => element,
        None => &boolean,
    };
    difference_in(alloc, of_index, of_element, left, right)
}

/// The same, by the types of an index and of an element.
fn difference_in(
    alloc: Global,
    index: &Ty,
    element: &Ty,
    left: &Value,
    right: &Value,
) -> Result<Value, AllocError>
    ensures { IfOk result (λ v. v ≡ difference_in index.now element.now left.now right.now) }
{
    if let Some(at) = listed_difference(element, left, right) {
        return copy(alloc, at);
    }
    match default_difference(index, element, left, right) {
        Some(at) => Ok(at),
        None => zero(alloc, index),
    }
}

/// The first listed index at which two arrays differ, those of the first array first.
fn listed_difference<'a>(element: &Ty, left: &'a Value, right: &'a Value) -> Option<&'a Value>
    ensures { option_copied result ≡ first_difference element.now left.now right.now (listed_in left.now ++ listed_in right.now) }
{
    match first_difference(element, left, right, rows(left)) {
        Some(at) => Some(at),
        None => first_difference(element, left, right, rows(right)),
    }
}

/// Where the defaults differ, an index that neither array lists.
fn default_difference(index: &Ty, element: &Ty, left: &Value, right: &Value) -> Option<Value>
    ensures { result ≡ default_difference index.now element.now left.now right.now }
{
    if same_defaults(element, left, right) {
        return None;
    }
    unlisted(index, rows(left), rows(right))
}

fn same_defaults(element: &Ty, left: &Value, right: &Value) -> bool
    ensures { result ≡ same element.now (default_of left.now) (default_of right.now) }
{
    let absent = Value::Bool(false);
    same(default(left, &absent), default(right, &absent), element)
}

/// The exceptions of an array.
fn rows(array: &Value) -> &[(Value, Value)]
    ensures { result.now ≡ rows_in array.now }
{
    match array {
        Value::Arr(_, rows) => rows.as_slice(),
        _ => &[],
    }
}

/// What an array holds where it lists nothing, and `absent` for any other value.
fn default<'a>(array: &'a Value, absent: &'a Value) -> &'a Value
    requires { absent.now ≡ nothing }
    ensures { result.now ≡ default_of array.now }
{
    match array {
        Value::Arr(default, _) => default.get(),
        _ => absent,
    }
}

/// The first of the indices of the exceptions at which two arrays differ.
fn first_difference<'a>(
    element: &Ty,
    left: &Value,
    right: &Value,
    rows: &'a [(Value, Value)],
) -> Option<&'a Value>
    ensures { option_copied result ≡ first_difference element.now left.now right.now (indices rows.now) }
{
    for (index, _) in rows {
        if !same(lookup(left, index), lookup(right, index), element) {
            return Some(index);
        }
    }
    None
}

/// The first value of a type that is listed in neither of two lists of exceptions.
fn unlisted(ty: &Ty, rows: &[(Value, Value)], others: &[(Value, Value)]) -> Option<Value>
    ensures { result ≡ unlisted ty.now (indices rows.now ++ indices others.now) }
{
    let count = rows.len() as u64 + others.len() as u64 + 1;
    let limit = at_most(ty, count);
    for place in 0..limit {
        let value = nth(ty, place, count);
        if !either_lists(rows, others, &value) {
            return Some(value);
        }
    }
    None
}

/// So many, but no more than the type has values.
fn at_most(ty: &Ty, count: u64) -> u64
    ensures { result ≡ at_most ty.now count }
{
    match ty {
        Ty::Bool => count.min(2),
        Ty::Bv(width) => {
            if *width < 64 {
                count.min(1u64 << *width)
            } else {
                count
            }
        }
        Ty::Enum(_, labels) => count.min(u64::from(*labels)),
        _ => count,
    }
}

/// The value of a scalar type at a place of their order.
fn nth(ty: &Ty, place: u64, count: u64) -> Value
    requires { place < at_most ty.now count }
    ensures { result ≡ nth_value ty.now place }
{
    match ty {
        Ty::Bool => Value::Bool(place != 0),
        Ty::Bv(width) => Value::Bv(*width, place),
        Ty::Enum(number, labels) => { Value::Enum(*number, place.min(u64::from(*labels)) as u32) }
        Ty::Un(number) => Value::Un(*number, place),
        _ => Value::Int(i128::from(place)),
    }
}

/// Whether an index is listed.
fn lists(rows: &[(Value, Value)], index: &Value) -> bool
    ensures { result ≡ lists (indices rows.now) index.now }
{
    for (place, _) in rows {
        if same_scalar(place, index) {
            return true;
        }
    }
    false
}

/// Whether an index is in one of two lists.
fn either_lists(rows: &[(Value, Value)], others: &[(Value, Value)], index: &Value) -> bool
    ensures { result ≡ lists (indices rows.now ++ indices others.now) index.now }
{
    lists(rows, index) || lists(others, index)
}
