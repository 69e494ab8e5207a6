//! The solver: for a goal of booleans, bit-vectors, enums and records a model, or a log that refutes it.
//!
//! The goal is simplified, lowered to booleans and bit-vectors, and blasted to a problem. A search makes every clause of the problem
//! true, and from the values of the inputs a model of the goal is made by the map of the lowered goal; or the log of the search is
//! accepted, and then no model makes the goal true.
//!
//! Tests of terms, for callers that lower and blast a term: whether it has finitely many values, and whether each number in it
//! has one type. Each is exact and walks over all numbers up to the term's. A law joins lowering with blasting: what is lowered can be blasted.
//!
//! Models made from what a search has found: from the values of inputs a model of a term of booleans and bit-vectors, and from
//! that a model of the term that was lowered to it.
#![tactic(auto)]

mod answer;
mod codes;
mod even;
mod finite;
mod inputs;
mod law;
mod mapped;
mod reduction;
mod search;
mod signature;
mod solving;
mod symbols;

pub use answer::{Answer, SolveError};
pub use even::is_evenly_typed;
pub use finite::is_finite_term;
pub use inputs::model_of_inputs;
pub use law::lowered_is_blastable;
pub use mapped::through_map;
pub use solving::solve;
pub use symbols::model_of;
