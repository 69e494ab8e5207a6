//! The parts of a type that keep their values.

ghost use Rattle.std.specs.Prelude.{◌≡◌, ◌<◌, ◌↔◌, ℕ, [], length, slice_index_or, IsTrue, IfOk};
ghost use Rattle.std.specs.Option.{option_map};
ghost use Rattle.std.specs.List.{list_any};
ghost use Rattle.uc_values.specs.Values.{parts_of};
ghost use Rattle.uc_values.specs.Sameness.{same};
ghost use Rattle.uc_meaning.specs.Expressions.{field_number};
ghost use Rattle.uc_layout.specs.Kept.{lent, is_nil, behind, tails, has_field, KeepsParts, KeepsField};

use std::alloc::{AllocError, Global};
use uc_items::{Items, at};
use uc_values::{Field, Ty, Value, same};

/// Whether each part that touches no written part is the same in two values.
#[cycle(keeps)]
pub(crate) fn keeps_parts(
    alloc: Global,
    ty: &Ty,
    old: &Value,
    new: &Value,
    written: &[&[u32]],
) -> Result<bool, AllocError>
    ensures { IfOk result (λ keeps. IsTrue keeps ↔ KeepsParts ty.now old.now new.now (lent written.now)) }
{
    if is_covered(written) {
        return Ok(true);
    }
    if !keeps_whole(ty, old, new, written) {
        return Ok(false);
    }
    match ty {
        Ty::Rec(fields) => {
            let fields = fields.as_slice();
            keeps_fields(alloc, fields, parts_of(old), parts_of(new), written)
        }
        _ => Ok(true),
    }
}

/// Whether a type is written whole.
fn is_covered(written: &[&[u32]]) -> bool
    ensures { result ≡ list_any is_nil (lent written.now) }
{
    for fields in written {
        if is_nil(fields) {
            return true;
        }
    }
    false
}

fn is_nil(fields: &[u32]) -> bool
    ensures { result ≡ is_nil fields.now }
{
    match fields {
        [] => true,
        [_, ..] => false,
    }
}

/// Whether two values of a type are the same, unless something is written in it.
fn keeps_whole(ty: &Ty, old: &Value, new: &Value, written: &[&[u32]]) -> bool
    ensures { IsTrue result ↔ (lent written.now ≡ [] → IsTrue (same ty.now old.now new.now)) }
{
    !written.is_empty() || same(old, new, ty)
}

/// The same for each field of a record, where no written part is the whole record.
#[cycle(keeps)]
fn keeps_fields(
    alloc: Global,
    fields: &[Field<Ty>],
    old: &[Value],
    new: &[Value],
    written: &[&[u32]],
) -> Result<bool, AllocError>
    ensures { IfOk result (λ keeps. IsTrue keeps ↔ ((f : ℕ) → IsTrue (has_field fields.now f) → KeepsField fields.now old.now new.now (lent written.now) f)) }
{
    let missing = Value::Bool(false);
    for field in fields {
        let place = field_number(fields, field.name);
        let inside = tails(alloc, written, field.name)?;
        let keeps = keeps_parts(
            alloc,
            &fields[place].ty,
            part_or(old, place, &missing),
            part_or(new, place, &missing),
            inside.as_slice(),
        )?;
        if !keeps {
            return Ok(false);
        }
    }
    Ok(true)
}

/// What of written parts is behind a field.
fn tails<'a>(
    alloc: Global,
    written: &[&'a [u32]],
    name: u32,
) -> Result<Items<&'a [u32]>, AllocError>
    ensures { IfOk result (λ ws. lent ws ≡ tails name (lent written.now)) }
{
    let mut inside = Items::new(alloc);
    for fields in written {
        if let Some(rest) = behind(fields, name) {
            inside.push(rest)?;
        }
    }
    Ok(inside)
}

/// What of a written part is behind a field, if it leads through it.
fn behind(fields: &[u32], name: u32) -> Option<&[u32]>
    ensures { option_map (λ r. r.now) result ≡ behind name fields.now }
{
    match fields.split_first() {
        Some((first, rest)) => { if name == *first { Some(rest) } else { None } }
        None => None,
    }
}

fn parts_of(value: &Value) -> &[Value]
    ensures { result.now ≡ parts_of value.now }
{
    match value {
        Value::Rec(parts) => parts.as_slice(),
        _ => &[],
    }
}

/// The part at a place, and another value where there is none.
fn part_or<'v>(parts: &'v [Value], place: usize, missing: &'v Value) -> &'v Value
    ensures { result.now ≡ slice_index_or parts.now place missing.now }
{
    match at(parts, place) {
        Some(part) => part,
        None => missing,
    }
}

/// The place of the field of a name, and 0 where there is none.
fn field_number(fields: &[Field<Ty>], name: u32) -> usize
    ensures is { result ≡ field_number fields.now name }
    ensures within { 0 < length fields.now → result < length fields.now }
{
    for (place, field) in fields.iter().enumerate() {
        if field.name == name {
            return place;
        }
    }
    0
}
