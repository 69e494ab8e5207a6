//! Endings of code.

use crate::scope::{Scope, Site};
use uc_items::Items;

/// How code ends.
#[derive(Drop)]
pub enum CodeEnd {
    /// The scope after the code, the sites that are listed, and how many choices are used.
    Ended {
        scope: Scope,
        violated: Items<Site>,
        used: usize,
    },
    /// An `assume` is false.
    Stopped,
    /// The choice of this number is missing or does not fit.
    BadChoice(usize),
}
