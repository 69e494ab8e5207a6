use crate::place::Place;

/// Why a text has no list of tokens, with the place of the first byte of what is wrong.
#[derive(Clone, Copy, Debug, PartialEq, Eq)]
pub enum LexFault {
    /// A byte that begins no token stands outside comments.
    BadByte(Place),
    /// A number is too large, has a width that is too large, or is followed by a letter or `_`.
    BadNumber(Place),
    /// A comment `/*` has no end.
    OpenComment(Place),
}
