//! Reads a design: from the bytes of files to one that keeps the rules and runs, or to the first fault with its number and place.
//!
//! There are seven passes, and the first that refuses answers. Three go over all files, to the first one that is refused: their texts are
//! read, then lexed, then parsed. Four judge the design, which needs a module that is called `main`: by the static rules, by those on order
//! and sizes, by those on control blocks, and by what runs today, which also makes the design over cells.
#![tactic(auto)]

mod design;
mod error;
mod front;
mod lexing;
mod parsing;
mod reading;
mod refusal;

pub use error::FrontError;
pub use front::read_design;
pub use lexing::Source;
pub use reading::MAX_FILES;
pub use refusal::Refusal;
