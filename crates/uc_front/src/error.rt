//! Why no design is read.

ghost use Rattle.std.specs.Prelude.{◌≡◌};
ghost use Rattle.uc_front.specs.declared.error.FrontError.TheVariants.{NoMemory};

use crate::refusal::Refusal;
use std::alloc::AllocError;

/// Why no design is read.
#[derive(Clone, Copy, Debug, PartialEq, Eq)]
pub enum FrontError {
    NoMemory,
    /// A call of the texts failed.
    ReadFault,
    /// The texts are not accepted.
    Refused(Refusal),
}

impl From<AllocError> for FrontError {
    ghost from_gives = { λ _ e. e ≡ NoMemory };

    fn from(_: AllocError) -> FrontError {
        FrontError::NoMemory
    }
}
