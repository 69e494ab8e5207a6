//! What has to be shown of a design over numbered cells, as terms.
//!
//! An [`Unrolling`] has the states of the design after 0, 1 and so on steps, as terms over free symbols: [`begin`] makes its first
//! state and [`advance`] the next. [`goal`] is the term whose models are the traces that refute a formula after so many steps, and
//! [`build`] makes such a trace of a model. States are simplified as they are made, so that the steps of a design that leaves
//! nothing free stay small.
#![tactic(auto)]

mod axioms;
mod goals;
mod reading;
mod unrolling;

pub use goals::{build, goal};
pub use unrolling::{Unrolling, advance, begin};
