//! Faults, and the first of them.

ghost use Rattle.std.specs.Prelude.{◌≡◌, List, None};
ghost use Rattle.uc_rules.specs.declared.fault.Fault.{Fault};
ghost use Rattle.uc_rules.specs.Faults.{breaks_where, broken, earlier, first_of, sooner, IsVerdict};

use crate::rule::Rule;
use uc_syntax::Place;

/// A rule that is broken, and where.
#[derive(Clone, Copy, Debug, PartialEq, Eq)]
pub struct Fault {
    pub rule: Rule,
    pub place: Place,
}

/// Whether a fault comes before another one: by its place, and at one place by its number.
fn sooner(f: Fault, g: Fault) -> bool
    ensures { result ≡ sooner f g }
{
    if f.place.file != g.place.file {
        return f.place.file < g.place.file;
    }
    if f.place.line != g.place.line {
        return f.place.line < g.place.line;
    }
    if f.place.col != g.place.col {
        return f.place.col < g.place.col;
    }
    f.rule.number() < g.rule.number()
}

/// Keeps the first fault.
pub fn note(first: &mut Option<Fault>, rule: Rule, place: Place)
    ensures { first.new ≡ earlier first.old (broken rule place) }
{
    let fault = Fault { rule, place };
    match *first {
        Some(kept) => {
            if sooner(fault, kept) {
                *first = Some(fault);
            }
        }
        None => *first = Some(fault),
    }
}

/// Notes a fault where a rule is broken.
#[tactic(auto, unfolding(crate::specs::Faults::first_of))]
pub fn note_where(first: &mut Option<Fault>, is_broken: bool, rule: Rule, place: Place)
    ensures { first.new ≡ first_of first.old (breaks_where is_broken rule place) }
{
    if is_broken {
        note(first, rule, place);
    }
}

/// What is answered where this is the first of all faults: it is one of them, and none comes before it.
pub fn verdict(first: Option<Fault>) -> Result<(), Fault>
    ensures { (fs : List Fault) → first ≡ first_of None fs → IsVerdict fs result }
{
    match first {
        Some(fault) => Err(fault),
        None => Ok(()),
    }
}
