//! The static rules: a design that keeps them all, or the first fault of one that doesn't.
//!
//! `check` accepts a design exactly where no rule is broken, and else answers the broken rule of the first place and, there, of the least
//! number.
#![tactic(auto)]

mod checking;
mod error;
mod main_module;
mod modules;
mod typed;

pub use checking::check;
pub use error::TypeError;
pub use typed::TypedDesign;
