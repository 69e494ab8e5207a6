//! Traces of a design over numbered cells.

use uc_items::Items;
use uc_values::Value;

/// A state, with the choices that led to it and the sites whose assertions were false on the way, each in order.
#[derive(Drop)]
pub struct FlatPosition {
    pub cells: Items<Value>,
    pub choices: Items<Value>,
    pub sites: Items<u32>,
}

/// A value for each constant, and the positions from the initial state on.
#[derive(Drop)]
pub struct FlatTrace {
    pub constants: Items<Value>,
    pub positions: Items<FlatPosition>,
}
