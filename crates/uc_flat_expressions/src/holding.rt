//! What is held while another value may be missing.

ghost use Rattle.std.specs.Prelude.{if◌then◌else◌, Some, None};
ghost use Rattle.std.specs.Option.{option_map};
ghost use Rattle.uc_flat_expressions.specs.Answers.{IsAnswer};

use crate::typed::FlatError;

/// A value that is built on where this holds.
pub(crate) fn built_where<T: Drop>(holds: bool, value: T) -> Result<T, FlatError>
    ensures { IsAnswer (if holds then Some value else None) result }
{
    if !holds {
        return Err(FlatError::NotBuilt);
    }
    Ok(value)
}

/// A value that may be missing, and what is held beside it.
pub(crate) fn with<T: Drop, U: Drop>(value: Option<T>, held: U) -> Result<(T, U), FlatError>
    ensures { IsAnswer (option_map (λ x. (x, held)) value) result }
{
    match value {
        Some(value) => Ok((value, held)),
        None => Err(FlatError::NotBuilt),
    }
}
