//! The meaning of a design: its states, runs and lines.
//!
//! The shape of an expression: which parts it has, and how they are joined.
//!
//! `shape_of` gives the parts by reference, with the equations by which the type, the value and the operations that are met come from
//! those of the parts, at every level of uses, and that the parts are smaller.
//!
//! The operations on whole numbers that are met on the way where code runs, where initial states are reached and where steps are checked,
//! as definitions.
//!
//! `specs/` continues the operations that are met in an expression: statements are met in the order of the text, of each the expressions
//! from the left, and nothing behind a false `assume`, a choice that does not fit or a constraint that does not hold. No code computes
//! them yet.
#![tactic(auto)]

mod code;
mod line;
mod overflow;
mod path;
mod scope;
mod shape;

pub use code::CodeEnd;
pub use line::{At, Choices, Line, Trace, What};
pub use overflow::{Wide, WideOp};
pub use path::Path;
pub use scope::{Interp, Local, Scope, Site, State, copy_state};
pub use shape::{Chain, Shape, shape_of};
