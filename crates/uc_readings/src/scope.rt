//! A scope by reference.

ghost use Rattle.std.specs.Prelude.{◌≡◌, unwrap_or, slice_index_or};
ghost use Rattle.std.specs.Option.{option_copied};
ghost use Rattle.uc_meaning.specs.Expressions.{state_in, at_entry, at_copy, local_of};
ghost use Rattle.uc_readings.specs.Scopes.{scope_in};

use uc_items::at;
use uc_meaning::{Interp, Local, Scope, State};

/// Where and when an expression is read. The newest local comes first.
#[derive(Clone, Copy)]
pub struct ScopeRef<'a> {
    pub path: &'a [u32],
    pub before: &'a State,
    pub after: Option<&'a State>,
    pub at_entry: Option<&'a State>,
    pub copies: &'a [State],
    pub locals: &'a [Local],
    pub interp: &'a Interp,
}

impl<'a> ScopeRef<'a> {
    /// A scope by reference.
    pub fn of(scope: &'a Scope) -> ScopeRef<'a>
        ensures { scope_in result ≡ scope.now }
    {
        ScopeRef {
            path: scope.path.as_slice(),
            before: &scope.before,
            after: scope.after.as_ref(),
            at_entry: scope.at_entry.as_ref(),
            copies: scope.copies.as_slice(),
            locals: scope.locals.as_slice(),
            interp: &scope.interp,
        }
    }

    /// The new state in place of the old one where a name is primed.
    pub fn state_in(&self, is_primed: bool) -> &'a State
        ensures { result.now ≡ state_in (scope_in self.now) is_primed }
    {
        if is_primed {
            state_or(self.after, self.before)
        } else {
            self.before
        }
    }

    /// The scope at the entry of a procedure.
    pub fn at_entry(&self) -> ScopeRef<'a>
        ensures { scope_in result ≡ at_entry (scope_in self.now) }
    {
        let before = state_or(self.at_entry, self.before);
        ScopeRef { before, ..*self }
    }

    /// The scope of a copy, by its number from 1.
    pub fn at_copy(&self, number: u128) -> ScopeRef<'a>
        ensures { scope_in result ≡ at_copy (scope_in self.now) number }
    {
        let before = self.copy_state(number.saturating_sub(1));
        ScopeRef { before, ..*self }
    }

    #[tactic(auto, using(uc_type_reader::proofs::Picked::stands_in, uc_type_reader::proofs::Picked::stands_past))]
    fn copy_state(&self, place: u128) -> &'a State
        ensures { result.now ≡ slice_index_or self.now.copies.now place self.now.before.now }
    {
        match usize::try_from(place) {
            Ok(place) => state_or(at(self.copies, place), self.before),
            Err(_) => self.before,
        }
    }

    /// The local of a name.
    pub fn local_of(&self, name: u32) -> Option<&'a Local>
        ensures { option_copied result ≡ local_of (scope_in self.now) name }
    {
        self.locals.iter().find(|local| local.name == name)
    }
}

/// A state, or another one where there is none.
fn state_or<'a>(state: Option<&'a State>, other: &'a State) -> &'a State
    ensures { result.now ≡ unwrap_or (option_copied state.entry) other.now }
{
    match state {
        Some(state) => state,
        None => other,
    }
}
