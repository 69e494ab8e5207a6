//! Linear forms over numbered variables, exact in 128 signed bits.
#![tactic(auto)]

mod divisor;
mod exact;
mod form;
mod merge;

pub use exact::{LinearError, Wide, WideOp, difference, product, sum};
pub use form::{Form, add, combine, scale, tighten};
