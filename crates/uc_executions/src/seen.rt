//! What formulas of instances are read in.

ghost use Rattle.std.specs.Prelude.{◌≡◌, []};
ghost use Rattle.uc_meaning.specs.Runs.{no_state};
ghost use Rattle.uc_readings.specs.Scopes.{scope_in};
ghost use Rattle.uc_executions.specs.Formulas.{scope_seen};

use std::alloc::Global;
use uc_items::Items;
use uc_meaning::{Interp, State};
use uc_readings::ScopeRef;

/// An interpretation, a state, and the states of several copies.
#[derive(Clone, Copy)]
pub struct Seen<'a> {
    pub interp: &'a Interp,
    pub state: &'a State,
    pub copies: &'a [State],
}

impl<'a> Seen<'a> {
    /// The scope of an instance.
    pub(crate) fn scope(&self, path: &'a [u32]) -> ScopeRef<'a>
        ensures { scope_in result ≡ scope_seen self.now path.now }
    {
        ScopeRef {
            path,
            before: self.state,
            after: None,
            at_entry: None,
            copies: self.copies,
            locals: &[],
            interp: self.interp,
        }
    }
}

/// A state without cells.
pub fn no_state(alloc: Global) -> State
    ensures { result ≡ no_state }
{
    State {
        cells: Items::new(alloc),
    }
}
