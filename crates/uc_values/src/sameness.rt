//! When two values of a type are the same.

ghost use Rattle.std.specs.Prelude.{◌≡◌, length, map};
ghost use Rattle.std.specs.List.{list_all};
ghost use Rattle.uc_values.specs.Values.{indices, lists};
ghost use Rattle.uc_values.specs.Arrays.{at};
ghost use Rattle.uc_values.specs.Sameness.{same, sameness, same_parts, joined, are_all, all_or_listed, sames, IsAgreement};

use crate::array::{lookup, same_scalar};
use crate::fit::lists;
use crate::ty::{Field, Ty};
use crate::value::Value;

/// Whether two values of a type are the same. For arrays this takes a step for each pair of an
/// exception of the one and an exception of the other.
pub fn same(left: &Value, right: &Value, ty: &Ty) -> bool
    ensures value { result ≡ same ty.now left.now right.now }
    ensures arrays { IsAgreement ty.now left.now right.now result }
{
    same_values(ty, left, right)
}

#[cycle(same_values)]
fn same_values(ty: &Ty, left: &Value, right: &Value) -> bool
    ensures { result ≡ same ty.now left.now right.now }
{
    match ty {
        Ty::Rec(fields) => {
            let (Value::Rec(parts), Value::Rec(others)) = (left, right) else {
                return true;
            };
            same_parts(fields.as_slice(), parts.as_slice(), others.as_slice())
        }
        Ty::Arr(index, element) => {
            let (Value::Arr(default, rows), Value::Arr(other, others)) = (left, right) else {
                return false;
            };
            if !same_at_unlisted(
                element.get(),
                left,
                right,
                rows.as_slice(),
                others.as_slice(),
            ) {
                return false;
            }
            if !same_at(element.get(), left, right, others.as_slice()) {
                return false;
            }
            if are_all(
                index.get(),
                count_joined(rows.as_slice(), others.as_slice()),
            ) {
                return true;
            }
            same_values(element.get(), default.get(), other.get())
        }
        _ => same_scalar(left, right),
    }
}

/// Whether the parts are the same, field by field.
#[cycle(same_values)]
fn same_parts(fields: &[Field<Ty>], parts: &[Value], others: &[Value]) -> bool
    ensures { result ≡ same_parts (sames fields.now) parts.now others.now }
{
    let count = fields.len().min(parts.len()).min(others.len());
    for place in 0..count {
        if !same_values(&fields[place].ty, &parts[place], &others[place]) {
            return false;
        }
    }
    true
}

/// Whether two arrays hold the same at each listed index.
#[cycle(same_values)]
fn same_at(element: &Ty, left: &Value, right: &Value, rows: &[(Value, Value)]) -> bool
    ensures { result ≡ list_all (λ i. same element.now (at left.now i) (at right.now i)) (indices rows.now) }
{
    for (index, _) in rows {
        if !same_values(element, lookup(left, index), lookup(right, index)) {
            return false;
        }
    }
    true
}

/// Whether two arrays hold the same at each index that is listed first and not second.
#[cycle(same_values)]
fn same_at_unlisted(
    element: &Ty,
    left: &Value,
    right: &Value,
    rows: &[(Value, Value)],
    others: &[(Value, Value)],
) -> bool
    ensures { result
        ≡ all_or_listed (λ i. same element.now (at left.now i) (at right.now i)) (indices rows.now) (indices others.now) }
{
    for (index, _) in rows {
        if !lists(others, index)
            && !same_values(element, lookup(left, index), lookup(right, index))
        {
            return false;
        }
    }
    true
}

/// How many indices are listed.
fn count_joined(rows: &[(Value, Value)], others: &[(Value, Value)]) -> u128
    ensures { result ≡ length (joined (indices rows.now) (indices others.now)) }
{
    let mut count = others.len() as u128;
    for (index, _) in rows {
        if !lists(others, index) {
            count += 1;
        }
    }
    count
}

/// Whether so many distinct values are all values of a type.
fn are_all(ty: &Ty, listed: u128) -> bool
    ensures { result ≡ are_all (sameness ty.now).count listed }
{
    match ty {
        Ty::Bool => listed == 2,
        Ty::Bv(width) => *width < 128 && listed == 1u128 << *width,
        Ty::Enum(_, labels) => listed == u128::from(*labels),
        _ => false,
    }
}
