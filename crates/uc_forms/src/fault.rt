//! What can be wrong with a word.

/// What is wrong at the first word that cannot stand where it does.
#[derive(Clone, Copy, Debug, PartialEq, Eq)]
pub enum Fault {
    /// No text goes on with this word, or the text ends where none does.
    Syntax,
    /// The word lies in more nested forms than there may be.
    TooDeep,
}
