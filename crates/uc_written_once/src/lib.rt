//! Parts that a block of a next block writes twice on one path, where it is known what procedures modify and what it is to step instances.
//!
//! Faults of order and size that a statement or an enum shows alone: loops with too many turns, enums with too many labels, and targets
//! that are named twice.
//!
//! Parts of variables that are written, as a stack that knows by hash which parts overlap one of its own.
//!
//! Instances that a next block steps twice on one path.
#![tactic(auto)]

mod effects;
mod lone_faults_walk;
mod loops;
mod names;
mod noting;
mod places;
mod stepping;
mod table;
mod targets;
mod turns;
mod walk;

pub use effects::{Effects, Stepped};
pub use loops::{note_large_enums, note_long_loops};
pub use noting::{modified_in, name_part, target_part};
pub use stepping::note_stepped_twice;
pub use table::PartTable;
pub use targets::note_named_twice;
pub use turns::turn_count;
pub use walk::{next_block, note_written_twice};
