//! The walk of the static rules over statements: the first of the faults of a block.
#![tactic(auto)]

mod calls;
mod declared;
mod ranges;
mod targets;
mod walk;
mod written;

pub use declared::note_declared;
pub use walk::{judge_block, judge_statement};
pub use written::is_written;
