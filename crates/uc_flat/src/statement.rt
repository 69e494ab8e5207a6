//! Statements over numbered cells.

use crate::expression::Expression;
use uc_items::Items;

/// A statement over numbered cells. Code is a list of statements, one after another.
pub enum Statement {
    /// A cell takes a value.
    Assign(u32, Expression),
    /// A cell takes any value of its type. The flag tells whether that value is listed as a choice.
    Havoc(u32, bool),
    /// What goes on only where this is true.
    Assume(Expression),
    /// The number of the site, and what is to be true there.
    Assert(u32, Expression),
    /// The condition, the statements where it is true, and those where it is false.
    If(Expression, Items<Statement>, Items<Statement>),
}

impl Drop for Statement {
    fn drop(self) {
        match self {
            Statement::Assign(_, value) => drop(value),
            Statement::Havoc(_, _) => {}
            Statement::Assume(condition) | Statement::Assert(_, condition) => drop(condition),
            Statement::If(condition, then, otherwise) => {
                drop(condition);
                drop(then);
                drop(otherwise);
            }
        }
    }
}
