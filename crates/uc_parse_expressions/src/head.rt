//! What stands at the front of a primary with its selections.

use uc_syntax::{Expr, Primary};

/// A primary, or an expression in parentheses.
#[derive(Drop)]
pub enum Head {
    Plain(Primary<Expr>),
    InParens(Expr),
}
