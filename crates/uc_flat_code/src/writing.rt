//! How code writes, what it writes, and the arms of conditionals over cells.

use uc_flat::{Expression, Statement};
use uc_items::Items;
use uc_values::Ty;

/// How code writes. In sequential code targets have no prime and are the cells of their names, so `shift` is 0; in a next block they are
/// primed, and are the cells of the new state, which stand `shift` cells behind those of the old one.
#[derive(Clone, Copy, Debug, PartialEq, Eq)]
pub struct Writing {
    pub primed: bool,
    pub shift: u32,
}

/// A cell that is written, with its type.
#[derive(Drop)]
pub struct Written {
    pub cell: u32,
    pub ty: Ty,
}

/// A condition over cells, and the statements that are run where it is true.
#[derive(Drop)]
pub struct FlatArm {
    pub condition: Expression,
    pub body: Items<Statement>,
}
