//! The rules that an expression breaks, and its type.
#![tactic(auto)]

mod about;
mod branches;
mod judging;
mod on_bits;
mod operators;
mod selections;

pub use about::{is_plain, name_of, number_of, place_of};
pub use judging::{judge, judge_all, note_condition};
