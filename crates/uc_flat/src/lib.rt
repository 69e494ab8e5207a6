//! A design over numbered cells: its expressions, its code, what they mean, and laws of their meaning.
//!
//! Traces of a design over numbered cells, which traces refute a formula, and what they have to do with runs on free values.
#![tactic(auto)]

mod expression;
mod flat;
mod flat_front;
mod flat_traces_laws;
mod laws;
mod statement;
mod trace;

pub use expression::Expression;
pub use flat::{
    Cell, Constant, Flat, Formula, Function, Site, repeat_types, twice_types, types_of_cells,
};
pub use flat_front::more_cells;
pub use flat_traces_laws::{refutations_found, runs_refute};
pub use laws::{
    allows_order, code_runs, code_runs_on, counts_values, extends, initial_states,
    initial_states_found, keeps, order_allows, reads_constants, steps, steps_found,
};
pub use statement::Statement;
pub use trace::{FlatPosition, FlatTrace};
