//! Lines of a report and the traces that refute them.

use crate::path::Path;
use crate::scope::{Interp, Site, State};
use uc_items::Items;
use uc_values::Value;

/// When a line is judged.
#[derive(Clone, Copy, Debug, PartialEq, Eq)]
pub enum At {
    /// After just so many steps.
    Exactly(u32),
    /// The same, as the base of an induction.
    Base(u32),
    /// After so many linked states in which all invariants hold.
    Step(u32),
    /// At the exit of a procedure of main, by its declaration.
    Body(u32),
}

/// What a line judges.
#[derive(Drop)]
pub enum What {
    /// The formula at this place among the declarations of the module of an instance.
    Formula { path: Path, decl: u32 },
    AtSite(Site),
    /// An `ensures` by its number from 1.
    Ensures(u32),
}

/// What a command asks: what is judged, and when. The command is told by its place among all commands.
#[derive(Drop)]
pub struct Line {
    pub command: u32,
    pub at: At,
    pub what: What,
    /// The number of copies of a hyper formula, else 1.
    pub arity: u8,
}

/// The choices that led to a state.
pub type Choices = Items<Value>;

/// An interpretation, and for each copy its states with the choices that led to them.
#[derive(Drop)]
pub struct Trace {
    pub interp: Interp,
    pub copies: Items<Items<(State, Choices)>>,
}
