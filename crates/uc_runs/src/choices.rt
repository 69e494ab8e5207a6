//! Choices.

ghost use Rattle.std.specs.Prelude.{◌≡◌, slice_get, IfOk};
ghost use Rattle.uc_runs.specs.Parts.{fitting};

use std::alloc::{AllocError, Global};
use uc_items::at;
use uc_values::{Ty, Value, copy, fits};

/// The choice at a place, if it is there and fits a type.
pub fn choice(
    alloc: Global,
    ty: &Ty,
    choices: &[Value],
    place: usize,
) -> Result<Option<Value>, AllocError>
    ensures { IfOk result (λ v. v ≡ fitting ty.now (slice_get choices.now place)) }
{
    match at(choices, place) {
        Some(value) => fitting(alloc, ty, value),
        None => Ok(None),
    }
}

fn fitting(alloc: Global, ty: &Ty, value: &Value) -> Result<Option<Value>, AllocError>
    ensures { IfOk result (λ v. v ≡ fitting ty.now (Some value.now)) }
{
    if !fits(ty, value) {
        return Ok(None);
    }
    let value = copy(alloc, value)?;
    Ok(Some(value))
}
