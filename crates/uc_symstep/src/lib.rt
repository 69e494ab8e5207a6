//! Symbolic code: terms for the values that statements give, and for initial states, steps and formulas of a design.
#![tactic(auto)]

mod branch;
mod build;
mod code;
mod design;
mod formula;
mod simple;
mod state;
mod unroll;

pub use build::{both, literal, negated};
pub use code::sym_code;
pub use design::{sym_any, sym_formula, sym_init, sym_step};
pub use formula::sym_expression;
pub use state::{Choice, Fresh, Hit, SymState, Symbolic};
