//! Runs from an initial state on, and traces of them, judged.
//!
//! Executions of the procedures of main: their entry, their body and their exit.
//!
//! Each call gives exactly what the definition of an execution says, or the first operation on whole numbers that is met on the way and
//! leaves 128 bits. Numbers past the ranges of the types are answered as want of memory.
//!
//! Initial states of designs of every form, reached by given choices.
//!
//! `init_end` gives exactly the ending of all init code that the definitions of the meaning give, or the first operation on whole numbers
//! that is met on the way and leaves 128 bits. Numbers past the ranges of the types are answered as want of memory.
//!
//! What a trace is asked of the formulas of a design of every form.
//!
//! Each call decides what the definitions of runs and of refuting traces ask, one formula after another up to the first that does not hold,
//! or gives the first operation on whole numbers that is met on the way and leaves 128 bits.
#![tactic(auto)]

mod asking;
mod body;
mod ensured;
mod entry;
mod formulas;
mod judged;
mod kind;
mod required;
mod running;
mod seen;
mod start;
mod starts_entry;

pub use asking::{axioms_hold, hyperaxioms_hold, hyperinvariants_hold, invariants_hold};
pub use body::body_end;
pub use ensured::ensures_fails;
pub use entry::{entry_scope, execution_end};
pub use formulas::formulas_hold;
pub use judged::{Judged, formula_of, is_false_at, states_at};
pub use kind::FormulaKind;
pub use required::requires_hold;
pub use seen::{Seen, no_state};
pub use start::start_holds;
pub use starts_entry::init_end;
