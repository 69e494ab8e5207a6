//! Where an execution is, and how code ends.

use uc_items::Items;
use uc_meaning::{Scope, Site};

/// The scope, the sites that are listed, and how many choices are taken.
#[derive(Drop)]
pub struct Run {
    pub scope: Scope,
    pub violated: Items<Site>,
    pub used: usize,
}

/// How code ends.
#[derive(Drop)]
pub enum Ending {
    /// The code behind it goes on from there.
    Goes(Run),
    /// An `assume` is false.
    Stopped,
    /// The choice of this number is missing or does not fit.
    BadChoice(usize),
}
