//! Bit-blasting: the problem of a term of booleans and bit-vectors.
//!
//! In: a boolean term. Out: a problem, which is a circuit, a literal of it and what its inputs stand
//! for. Inputs that agree with a model give the literal the value of the term, so the models of the
//! term are those of the problem. An input stands for a bit of a symbol or of an applied function;
//! each other subterm has a word, the signals that stand for its value.
#![tactic(auto)]

mod blasting;
mod computed;
mod constants;
mod dispatch;
mod inputs;
mod logic;
mod operations;
mod walk;
mod words;

pub use blasting::{BlastError, blast};
pub use dispatch::operation_word;
