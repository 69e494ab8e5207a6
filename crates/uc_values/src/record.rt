//! The parts of a record.

ghost use Rattle.std.specs.Prelude.{◌≡◌, ◌<◌, length, IfOk, slice_set};
ghost use Rattle.uc_values.specs.Values.{parts_of, field_of, with_field};

use crate::copying::copy;
use crate::value::Value;
use std::alloc::{AllocError, Global};
use uc_items::Items;

/// The part of a record at a place, from 0.
pub fn field(whole: &Value, place: usize) -> &Value
    requires { place < length (parts_of whole.now) }
    ensures { result.now ≡ field_of whole.now place }
{
    match whole {
        Value::Rec(parts) => &parts.as_slice()[place],
        _ => whole,
    }
}

/// The record with the part at a place changed.
pub fn with_field(
    alloc: Global,
    whole: &Value,
    place: usize,
    part: &Value,
) -> Result<Value, AllocError>
    requires { place < length (parts_of whole.now) }
    ensures { IfOk result (λ v. v ≡ with_field whole.now place part.now) }
{
    match whole {
        Value::Rec(parts) => {
            let parts = changed(alloc, parts.as_slice(), place, part)?;
            Ok(Value::Rec(parts))
        }
        _ => copy(alloc, whole),
    }
}

/// The parts with the one at a place changed.
fn changed(
    alloc: Global,
    parts: &[Value],
    place: usize,
    part: &Value,
) -> Result<Items<Value>, AllocError>
    requires { place < length parts.now }
    ensures { IfOk result (λ vs. vs ≡ slice_set parts.now place part.now) }
{
    let mut copies = Items::new(alloc);
    for (at, old) in parts.iter().enumerate() {
        let new = if at == place { part } else { old };
        copies.push(copy(alloc, new)?)?;
    }
    Ok(copies)
}
