//! Aliases and defines that lead to themselves, and which defines read state.
//!
//! The rule on cycles of aliases and of instances, in time near linear in the design.
//!
//! Which defines of a module read state, in time near linear in the module's text.
#![tactic(auto)]

mod aliases;
mod bodies;
mod bound;
mod called;
mod cycles;
mod found;
mod instances;
mod mentioned;
mod names;
mod noting;
mod reading;
mod types;
mod uses;

pub use cycles::{DesignCycles, cycles_of};
pub use noting::note_cycles;
pub use reading::reading_defines;
