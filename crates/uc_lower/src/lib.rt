//! Lowering: for a term with records and enums a term of booleans and bit-vectors.
//!
//! In: a boolean term of finitely many values. Out: a goal and a map. The models of the term and of the goal go over into each
//! other by the map, in which each symbol has one pair for each of its innermost fields.
#![tactic(auto)]

mod build;
mod fields;
mod lowering;
mod nodes;
mod symbols;

pub use lowering::{Lowered, lower};
pub use uc_terms::SymbolMap;
