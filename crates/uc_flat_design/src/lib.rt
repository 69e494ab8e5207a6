//! The design over numbered cells of a design of one module, and the laws that both do the same: the code of its `next` block, its initial
//! states and its steps.
#![tactic(auto)]

mod flat_design_law;
mod flat_init_law;
mod flat_meaning;
mod flat_names;

pub use flat_design_law::{initial_states, next_asks, next_fits, next_found, steps};
pub use flat_init_law::init_means;
pub use flat_meaning::flat_expressions;
pub use flat_names::{constants_mean, names_mean};
