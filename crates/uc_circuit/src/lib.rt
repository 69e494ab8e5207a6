//! Circuits: literals, clauses, gates, the clauses of a gate, and unit propagation over clauses.
//!
//! In: inputs and gates, one after another. Out: clauses in which a variable stands for each of
//! them. The clauses of a gate are true exactly where its variable has the value of its function,
//! and unit propagation over them takes the values of the inputs to the values of all gates.
//!
//! Circuits for numbers: lists of signals, from the lowest bit, and what they stand for.
//!
//! In: signals of a circuit that is being built. Out: signals of the same circuit, with more
//! gates, which stand for the sum, the product, the order and so on of the numbers that the given
//! ones stand for, whatever the values of the inputs are. No gate stands twice, and a gate with a
//! constant operand is none.
#![tactic(auto)]

mod adding;
mod bitwise;
mod circuit;
mod clause;
mod clause_state;
mod comparing;
mod constants;
mod gate;
mod gates;
mod joining;
mod laws;
mod literal;
mod multiplying;
mod shifting;
mod signal;

pub use adding::{add, add_each, negate, subtract};
pub use bitwise::{and_each, choose_each, or_each, turn_each, xor_each};
pub use circuit::{Circuit, clauses_of_gate};
pub use clause::Clause;
pub use clause_state::{ClauseState, state_of};
pub use comparing::{at_most, at_most_signed, equal, less, less_signed};
pub use constants::constant;
pub use gate::Gate;
pub use gates::Gates;
pub use joining::{concat, extract, sign_extend, zero_extend};
pub use laws::propagation_fixes_gates;
pub use literal::Lit;
pub use multiplying::multiply;
pub use shifting::{Shift, any, shift_by};
pub use signal::Signal;
