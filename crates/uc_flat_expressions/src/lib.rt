//! Expressions of a design as expressions over numbered cells.
#![tactic(auto)]

mod building;
mod holding;
mod typed;
mod types;
mod walking;

pub use building::Chain;
pub use typed::{FlatError, Meant, TypedArm, TypedExpression};
pub use types::is_boolean;
pub use walking::flat_expression;
