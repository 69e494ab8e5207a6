//! What an expression says, its type and its value, from what its parts say.
//!
//! Each call joins parts whose types and values are known by one form of expression: exactly as the definitions join them, or with the
//! first operation on whole numbers that leaves 128 bits. A bit-vector of more than 64 bits, or one whose number has more bits than its
//! width, is answered as want of memory; no value that fits a type is one.
//!
//! Scopes by reference, and the names that are reached through instances and copies.
//!
//! What a name, or an applied name, stands for in a scope: a value, or an expression that is read in another scope.
//!
//! Each call gives exactly the source that the definitions of the meaning name. A number past the range of the types is answered as want
//! of memory.
#![tactic(auto)]

mod applying;
mod bits;
mod meant;
mod operators;
mod said;
mod scope;
mod selection;
mod way;
mod words;

pub use applying::{Applied, application, bound_locals, with_locals};
pub use bits::on_bits;
pub use meant::{Meant, meaning};
pub use operators::{applied, bitwise, compared, joined, multiple, total};
pub use said::{Said, bits_literal, number, truth};
pub use scope::ScopeRef;
pub use selection::{element, extracted, field, updated};
pub use way::{Arrival, reached};
