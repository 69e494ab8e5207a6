//! The rules on order and sizes: a design that keeps them all, or the first fault of one that doesn't.
//!
//! `order` accepts a design that keeps the static rules exactly where no rule on order or sizes is broken, and else answers the broken rule of
//! the first place and, there, of the least number.
#![tactic(auto)]

mod error;
mod ordered;
mod ordering;
mod sizes;
mod steps;

pub use error::OrderError;
pub use ordered::Ordered;
pub use ordering::order;
