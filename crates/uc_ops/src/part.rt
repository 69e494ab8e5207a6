//! What the value of a part is.

ghost use Rattle.std.specs.Prelude.{◌≡◌, map, IfOk};
ghost use Rattle.uc_values.specs.Values.{truth_of, number_of, bits_of, width_in, nothing};
ghost use Rattle.uc_ops.specs.Meaning.{part};

use crate::term_id::TermId;
use std::alloc::{AllocError, Global};
use uc_items::at;
use uc_values::{Value, copy};

/// The value of a part, by its place among the parts, and `absent` where there is none.
pub(crate) fn part<'a>(
    given: &'a [Value],
    parts: &[TermId],
    place: usize,
    absent: &'a Value,
) -> &'a Value
    requires { absent.now ≡ nothing }
    ensures { result.now ≡ part (map (part given.now) parts.now) place }
{
    match at(parts, place) {
        Some(part) => item(given, part.index(), absent),
        None => absent,
    }
}

/// The value at a place, and `absent` where there is none.
pub(crate) fn item<'a>(values: &'a [Value], place: usize, absent: &'a Value) -> &'a Value
    requires { absent.now ≡ nothing }
    ensures { result.now ≡ part values.now place }
{
    match at(values, place) {
        Some(value) => value,
        None => absent,
    }
}

pub(crate) fn truth(given: &[Value], parts: &[TermId], place: usize) -> bool
    ensures { result ≡ truth_of (part (map (part given.now) parts.now) place) }
{
    match part(given, parts, place, &Value::Bool(false)) {
        Value::Bool(truth) => *truth,
        _ => false,
    }
}

pub(crate) fn number(given: &[Value], parts: &[TermId], place: usize) -> i128
    ensures { result ≡ number_of (part (map (part given.now) parts.now) place) }
{
    match part(given, parts, place, &Value::Bool(false)) {
        Value::Int(number) => *number,
        _ => 0,
    }
}

pub(crate) fn bits(given: &[Value], parts: &[TermId], place: usize) -> u64
    ensures { result ≡ bits_of (part (map (part given.now) parts.now) place) }
{
    match part(given, parts, place, &Value::Bool(false)) {
        Value::Bv(_, bits) => *bits,
        _ => 0,
    }
}

pub(crate) fn width(given: &[Value], parts: &[TermId], place: usize) -> u8
    ensures { result ≡ width_in (part (map (part given.now) parts.now) place) }
{
    match part(given, parts, place, &Value::Bool(false)) {
        Value::Bv(width, _) => *width,
        _ => 0,
    }
}

/// A copy of the value of a part.
pub(crate) fn copy_part(
    alloc: Global,
    given: &[Value],
    parts: &[TermId],
    place: usize,
) -> Result<Value, AllocError>
    ensures { IfOk result (λ v. v ≡ part (map (part given.now) parts.now) place) }
{
    copy(alloc, part(given, parts, place, &Value::Bool(false)))
}

/// Copies of the values of the parts.
pub(crate) fn copy_parts(
    alloc: Global,
    given: &[Value],
    parts: &[TermId],
) -> Result<Vec<Value>, AllocError>
    ensures { IfOk result (λ vs. vs.items ≡ map (part given.now) parts.now) }
{
    let mut values = Vec::new(alloc);
    for part in parts {
        values.push(copy(alloc, item(given, part.index(), &Value::Bool(false)))?)?;
    }
    Ok(values)
}
