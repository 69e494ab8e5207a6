//! Why a text is refused.

use std::alloc::AllocError;
use uc_lexer::Place;

/// Why a text is refused. Of several faults the one with the first place is answered.
#[derive(Clone, Copy, Debug, PartialEq, Eq)]
pub enum ParseError {
    /// There was no memory.
    NoMemory,
    /// The place of the first token that no text goes on with, or of the end.
    Syntax(Place),
    /// The place of the first token in more nested forms than there may be.
    TooDeep(Place),
    /// The place of the first declared name past the limit of its module.
    TooManyNames(Place),
}

impl From<AllocError> for ParseError {
    ghost use Rattle.std.specs.Prelude.{◌≡◌};
    ghost use Rattle.uc_parser.specs.declared.error.ParseError.TheVariants.{NoMemory};

    ghost from_gives = { λ _ e. e ≡ NoMemory };

    fn from(_e: AllocError) -> ParseError {
        ParseError::NoMemory
    }
}
