//! Judges the formulas of a design over numbered cells: after 0, 1 and so on up to some number of steps from an initial state, and after
//! so many states that are linked by steps from any state, in which the formulas hold.
//!
//! The states after each step become terms of one table, and the solver decides for each formula of one copy whether its goal
//! is true under some model. A model that is found is read as a trace that refutes the formula. The goals of several formulas are asked at
//! once first, and one by one where that does not tell that all lines pass.
#![tactic(auto)]

mod deciding;
mod joint;
mod judging;
mod law;
mod line;
mod moments;
mod passing;
mod solving;

pub use deciding::judge;
pub use judging::{judge_flat, judge_linked};
pub use law::{is_even_where_known, reads_own_types};
pub use line::{FlatLine, FlatVerdict, FlatWhy};
