//! A design as its counterexamples show it.

use crate::DesignView;
use uc_flat::{Cell, Constant};
use uc_items::Items;

/// A design, the labels of each enum by its number, the constants in their order, and the cells of its states in theirs.
#[derive(Clone, Copy)]
pub struct ShownDesign<'a> {
    pub view: DesignView<'a>,
    pub labels: &'a [Items<u32>],
    pub constants: &'a [Constant],
    pub cells: &'a [Cell],
}
