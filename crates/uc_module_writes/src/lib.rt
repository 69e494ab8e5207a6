//! Parts that are written twice, in one statement, by two, and over the modules of a design.
//!
//! Parts that are written twice on one path through a next block, in all modules of a design.
//!
//! The parts that a next block writes, and the pairs of parts of some names that it writes on one path.
//!
//! What stepping an instance writes in the names of the module that steps it.
#![tactic(auto)]

mod bound;
mod graph;
mod leaves;
mod noting;
mod outer;
mod overlap;
mod parts;
mod places;
mod sets;
mod stepping;
mod steps;
mod summaries;
mod tables;
mod walk;
mod written;

pub use noting::note_twice_in_step;
pub use outer::{OuterNames, name_in};
pub use overlap::overlaps;
pub use parts::{outer_part, stepped_parts};
pub use sets::{PairSet, PartSet};
pub use steps::StepTable;
pub use walk::written_pairs;
pub use written::WrittenPairs;
