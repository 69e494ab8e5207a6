//! Steps of a design with every form of the language, checked.
//!
//! `step_holds` answers exactly whether a new state follows an old one by a step with the given choices, and then the sites that it lists; or
//! the first operation on whole numbers that is met on the way and leaves 128 bits. Numbers past the ranges of the types are answered as want
//! of memory.
//!
//! The parts of a step that is checked: what the statements of a `next` block without statements inside them ask of an old and a new state.
//!
//! Each call gives exactly what the definitions of the meaning ask, or the first operation on whole numbers that is met on the way and
//! leaves 128 bits. Numbers past the ranges of the types are answered as want of memory.
//!
//! Whether given executions refute a line, for every form of the language.
//!
//! `accepts_trace` asks the conditions of the definition in its order, up to the first that does not hold, or gives the first operation on
//! whole numbers that is met on the way and leaves 128 bits. Numbers past the ranges of the types are answered as want of memory.
#![tactic(auto)]

mod accepting;
mod assignment;
mod bodies;
mod branch;
mod called;
mod calling;
mod checking;
mod copies;
mod fields;
mod inside;
mod judging;
mod left;
mod positions;
mod seen;
mod sites;
mod step;
mod target;
mod walk;
mod whole;

pub use accepting::accepts_trace;
pub use assignment::assigned;
pub use branch::taken;
pub use calling::left_by_call;
pub use judging::{assumed, judged};
pub use seen::{Seen, with_name};
pub use step::step_holds;
pub use whole::{copy_locals, whole_scope};
