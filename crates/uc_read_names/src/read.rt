//! What is read where no name of an instance follows, and copies.

ghost use Rattle.std.specs.Prelude.{◌≡◌};
ghost use Rattle.uc_rules.specs.Expressions.{copied, in_copies, read, read_state};
ghost use Rattle.uc_read_names.specs.Reading.{standing_meant};

use crate::scope::Scope;
use crate::standing::{Standing, wrong};
use uc_rules::Rule;
use uc_syntax::Place;
use uc_values::Ty;

impl<'a, 'd> Scope<'a, 'd> {
    /// What is read where no copy's number and no name of an instance follows.
    pub fn read(&self, begin: Place, standing: Standing) -> Standing
        ensures { standing_meant self.now.system.modules result ≡ read self.now begin (standing_meant self.now.system.modules standing) }
    {
        match standing {
            Standing::State(ty) => self.read_state(begin, ty),
            Standing::Inside(place, _) => wrong(Rule::UnknownName, place),
            other => other,
        }
    }

    fn read_state(&self, begin: Place, ty: Option<Ty>) -> Standing
        ensures { standing_meant self.now.system.modules result ≡ read_state self.now begin ty }
    {
        if self.is_in_axiom() {
            return wrong(Rule::AxiomState, begin);
        }
        if self.copies().is_some() {
            return wrong(Rule::BadCopy, begin);
        }
        Standing::Value(ty)
    }

    /// A variable, input or output with a copy's number, which stands at a place.
    pub fn copied(&self, begin: Place, place: Place, ty: Option<Ty>, number: u128) -> Standing
        ensures { standing_meant self.now.system.modules result ≡ copied self.now begin place ty number }
    {
        if self.is_in_axiom() {
            return wrong(Rule::AxiomState, begin);
        }
        if !in_copies(self.copies(), number) {
            return wrong(Rule::BadCopy, place);
        }
        Standing::Value(ty)
    }
}

fn in_copies(copies: Option<u128>, number: u128) -> bool
    ensures { result ≡ in_copies copies number }
{
    match copies {
        None => false,
        Some(count) => 1 <= number && number <= count,
    }
}
