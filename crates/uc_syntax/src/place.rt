//! Where a name stands.

pub use uc_lexer::Place;

/// A name by its number in the table of names, and the place of its token.
#[derive(Clone, Copy, Debug, PartialEq, Eq)]
pub struct Identifier {
    pub place: Place,
    pub name: u32,
}
