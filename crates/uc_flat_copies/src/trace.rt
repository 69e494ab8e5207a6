//! Traces of several copies.

use uc_flat::FlatPosition;
use uc_items::Items;
use uc_values::Value;

/// How the copies of a trace begin.
#[derive(Clone, Copy, Drop)]
pub enum Start {
    /// In an initial state.
    Initially,
    /// In any state.
    Anywhere,
}

/// A value for each constant, and the positions of each copy.
#[derive(Drop)]
pub struct FlatCopies {
    pub constants: Items<Value>,
    pub copies: Items<Items<FlatPosition>>,
}
