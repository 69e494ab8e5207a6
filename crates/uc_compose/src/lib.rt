//! Copies of terms, in another table and with symbols of their own.
//!
//! A copy of a term reads other symbols in the place of those from a number on. The symbols below that number, the constants, and the
//! functions are shared by all copies. A slice is a copy in which no symbol moves: the term alone, in a table that has nothing else.
#![tactic(auto)]

mod below;
mod renaming;
mod transferring;
mod waiting;

pub use transferring::{slice, transfer};
