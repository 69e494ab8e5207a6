//! What is held where code may not be built.

ghost use Rattle.std.specs.Prelude.{◌≡◌, ◌∷◌, [], if◌then◌else◌, Some, None, IfOk};
ghost use Rattle.uc_flat_expressions.specs.Answers.{IsAnswer};

use std::alloc::{AllocError, Global};
use uc_flat_expressions::FlatError;
use uc_items::Items;

/// A value that is built on where this holds.
pub(crate) fn built_where<T: Drop>(holds: bool, value: T) -> Result<T, FlatError>
    ensures { IsAnswer (if holds then Some value else None) result }
{
    if !holds {
        return Err(FlatError::NotBuilt);
    }
    Ok(value)
}

/// A list of one value.
pub(crate) fn one<T: Drop>(alloc: Global, value: T) -> Result<Items<T>, AllocError>
    ensures { IfOk result (λ items. items ≡ value ∷ []) }
{
    let mut items = Items::new(alloc);
    items.push(value)?;
    Ok(items)
}
