//! The static rules of a design: names, types, widths, primes, copies, what procedures modify, and cycles.
//!
//! `specs/` says for every design which rules it breaks and where. The functions here decide the rows of the type table and keep the
//! first fault.
#![tactic(auto)]

mod chain;
mod fault;
mod fault_order;
mod known;
mod literal;
mod outcome;
mod rows;
mod rule;
mod same;
mod selection;

pub use chain::judge_chain;
pub use fault::{Fault, note, note_where, verdict};
pub use fault_order::{faults_in_any_order, faults_noted_again};
pub use known::{Known, Role};
pub use literal::{bits_literal, extended_type, number_literal, width_outcome};
pub use outcome::{Outcome, settle};
pub use rows::{
    Chain, compared, comparison, condition, joined, same_outcome, unary, with_operator,
};
pub use rule::Rule;
pub use same::same_type;
pub use selection::{element_on, extract_on, field_on, update_on};
