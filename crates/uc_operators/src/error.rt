//! Why a value is not given.

use std::alloc::{AllocError, AllocFailed};
use uc_meaning::Wide;

/// Why a value is not given.
#[derive(Clone, Copy, Debug, PartialEq, Eq)]
pub enum EvalError {
    NoMemory,
    /// An operation on whole numbers whose exact result leaves 128 signed bits.
    Wide(Wide),
}

impl From<AllocError> for EvalError {
    ghost use Rattle.std.specs.Prelude.{◌≡◌};
    ghost use Rattle.uc_operators.specs.declared.error.EvalError.TheVariants.{NoMemory};

    ghost from_gives = { λ _ error. error ≡ NoMemory };

    fn from(_: AllocError) -> EvalError {
        EvalError::NoMemory
    }
}

impl<T: Drop> From<AllocFailed<T>> for EvalError {
    ghost use Rattle.std.specs.Prelude.{◌≡◌};
    ghost use Rattle.uc_operators.specs.declared.error.EvalError.TheVariants.{NoMemory};

    ghost from_gives = { λ _ error. error ≡ NoMemory };

    fn from(_: AllocFailed<T>) -> EvalError {
        EvalError::NoMemory
    }
}
