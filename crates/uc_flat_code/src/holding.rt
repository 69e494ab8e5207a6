//! What is held while another value may be missing.

ghost use Rattle.std.specs.Prelude.{◌≡◌, if◌then◌else◌, Some, None, IfOk, IfErr};
ghost use Rattle.uc_flat_expressions.specs.Answers.{IsAnswer};
ghost use Rattle.uc_flat_expressions.specs.declared.typed.FlatError.TheVariants.{NotBuilt};

use uc_flat_expressions::FlatError;

/// A value that is built on where this holds.
pub(crate) fn built_where<T: Drop>(holds: bool, value: T) -> Result<T, FlatError>
    ensures { IsAnswer (if holds then Some value else None) result }
{
    if !holds {
        return Err(FlatError::NotBuilt);
    }
    Ok(value)
}

/// A value that may be missing, and what is held beside it.
pub(crate) fn with<T: Drop, U: Drop>(value: Option<T>, held: U) -> Result<(T, U), FlatError>
    ensures ok { IfOk result (λ both. (value ≡ Some both.0) × (both.1 ≡ held)) }
    ensures err { IfErr result (λ e. (value ≡ None) × (e ≡ NotBuilt)) }
{
    match value {
        Some(value) => Ok((value, held)),
        None => Err(FlatError::NotBuilt),
    }
}
