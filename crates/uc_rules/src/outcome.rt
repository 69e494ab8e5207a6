//! What a rule says of a form.

ghost use Rattle.std.specs.Prelude.{◌≡◌};
ghost use Rattle.uc_rules.specs.Faults.{first_of};
ghost use Rattle.uc_rules.specs.Outcomes.{type_in, faults_in};

use crate::fault::{Fault, note};
use crate::rule::Rule;
use uc_syntax::Place;
use uc_values::Ty;

/// The type of a form, or the rule that it breaks, or nothing: a part that it rests on breaks a rule itself.
#[derive(Drop)]
pub enum Outcome {
    Has(Ty),
    Breaks(Rule),
    Unjudged,
}

/// The type that an outcome gives. A fault is noted.
#[tactic(auto, unfolding(crate::specs::Faults::first_of))]
pub fn settle(first: &mut Option<Fault>, place: Place, outcome: Outcome) -> Option<Ty>
    ensures ty { result ≡ type_in outcome }
    ensures faults { first.new ≡ first_of first.old (faults_in place outcome) }
{
    match outcome {
        Outcome::Has(ty) => Some(ty),
        Outcome::Breaks(rule) => {
            note(first, rule, place);
            None
        }
        Outcome::Unjudged => None,
    }
}
