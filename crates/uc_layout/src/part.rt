//! Parts of cells.

use uc_items::Items;

/// A part of a cell: the number of the cell, and the names of the fields down to the part.
#[derive(Drop)]
pub struct Part {
    pub cell: usize,
    pub fields: Items<u32>,
}
