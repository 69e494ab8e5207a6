//! What the operators of expressions give, exactly: the defined value, or the operation on whole numbers that leaves 128 bits.
//!
//! The values are those of `uc_values`. An operator asks of its operands that their bit-vectors have at most 64 bits, and of a result
//! that widens its operand that it has at most 64.
#![tactic(auto)]

mod arithmetic;
mod bits;
mod comparison;
mod error;
mod truth;

pub use arithmetic::{multiplied, summed, unary};
pub use bits::{BitOperator, bitwise, concatenated, extracted, on_bits};
pub use comparison::compared;
pub use error::EvalError;
pub use truth::{all_hold, any_holds, equivalent, holds, implied};
