//! Expressions over numbered cells.

use uc_items::Items;
use uc_ops::Op;

/// An expression over numbered cells.
pub enum Expression {
    /// The value of a cell.
    Cell(u32),
    /// An operation on parts. `Symbol` reads the constant of its number, and `App` applies the function of its number.
    Apply(Op, Items<Expression>),
}

impl Drop for Expression {
    fn drop(self) {
        match self {
            Expression::Cell(_) => {}
            Expression::Apply(op, parts) => {
                drop(op);
                drop(parts);
            }
        }
    }
}
