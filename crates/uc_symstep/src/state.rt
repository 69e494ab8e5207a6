//! Symbolic states, while code is taken.

use uc_items::Items;
use uc_terms::TermId;

/// A term that stands for a choice, and the term that tells whether the choice is taken.
#[derive(Drop)]
pub struct Choice {
    pub term: TermId,
    pub taken: TermId,
}

/// The number of a site, and the term that tells whether its assertion is taken and false.
#[derive(Drop)]
pub struct Hit {
    pub site: u32,
    pub failed: TermId,
}

/// A symbolic state inside code: that of a way through it which may not be taken.
#[derive(Drop)]
pub struct Symbolic {
    pub cells: Items<TermId>,
    /// The path condition: all assumptions held.
    pub path: TermId,
    /// Whether the code is taken.
    pub taken: TermId,
    pub choices: Items<Choice>,
    pub sites: Items<Hit>,
    /// The number of the next free symbol.
    pub next: u32,
}

/// A symbolic state between steps.
#[derive(Drop)]
pub struct SymState {
    pub cells: Items<TermId>,
    /// The path condition: all assumptions held so far.
    pub path: TermId,
    /// The sites of the last step, or of the init code.
    pub sites: Items<Hit>,
    /// The choices of the last step, or of the init code.
    pub choices: Items<Choice>,
}

/// The number of the next symbol.
#[derive(Drop)]
pub struct Fresh {
    pub next: u32,
}
