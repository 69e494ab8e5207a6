ghost use Rattle.std.specs.Prelude.{◌≡◌};
ghost use Rattle.uc_lexer.specs.declared.error.LexError.TheVariants.{NoMemory};

use crate::fault::LexFault;
use std::alloc::AllocFailed;

/// Why the tokens of a text are not answered.
#[derive(Clone, Copy, Debug, PartialEq, Eq)]
pub enum LexError {
    NoMemory,
    /// The first fault of the text.
    Fault(LexFault),
}

impl<T: Drop> From<AllocFailed<T>> for LexError {
    ghost from_gives = { λ _ e. e ≡ NoMemory };

    fn from(_failed: AllocFailed<T>) -> LexError {
        LexError::NoMemory
    }
}
