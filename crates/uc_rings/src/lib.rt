//! Watch lists: for each literal a list of slots, doubly linked by index.
//!
//! Clause c has the slots 2c and 2c + 1, so it can stand in the lists of two literals. A contract
//! sees the lists themselves; each call leaves just the lists that its contract names, and only
//! `grow` takes memory.
//!
//! Watched literals: each clause with two different literals watches two of them.
//!
//! Slots 2c and 2c + 1 of clause c stand in the lists of the two literals that it watches. Where no watched literal is
//! false, a clause is neither false nor unit, so only the lists of literals that became false have to be walked.
#![tactic(auto)]

mod fate;
mod rings;
mod watches;

pub use fate::{Fate, fate_of, is_true, partner};
pub use rings::Rings;
pub use watches::Watches;
