//! Products.

ghost use Rattle.std.specs.Prelude.{◌≡◌, ◌&&◌, ◌||◌, not};
ghost use Rattle.uc_rules.specs.Expressions.{product_faults, product_type, times};
ghost use Rattle.uc_rules.specs.Faults.{first_of};
ghost use Rattle.uc_rules.specs.Outcomes.{faults_in, type_in};
ghost use Rattle.uc_rules.specs.Rows.{pair};
ghost use Rattle.uc_rules.specs.declared.rows.Chain.TheVariants.{Number};

use uc_items::at;
use uc_rules::{Chain, Fault, Outcome, Rule, joined, settle};
use uc_syntax::Place;
use uc_values::Ty;

/// The type of a product, whose faults are noted: `start` is the type of its first factor, `types` and `plains` are of the others. A factor is
/// plain where it is a literal, a negated literal or an integer loop variable; `found` says that the first one isn't.
#[tactic(auto, using(crate::proofs::Products::product_begin, crate::proofs::Products::past_types_type, crate::proofs::Products::past_types_faults, crate::proofs::Products::past_plains_type, crate::proofs::Products::past_plains_faults, crate::proofs::Products::end_type, crate::proofs::Products::end_faults))]
pub fn judge_product(
    first: &mut Option<Fault>,
    start: Option<Ty>,
    found: bool,
    marks: &[Place],
    types: &[Option<Ty>],
    plains: &[bool],
) -> Option<Ty>
    ensures ty { result ≡ product_type found start marks.now types.now plains.now }
    ensures faults { first.new ≡ first_of first.old (product_faults found start marks.now types.now plains.now) }
{
    let mut t = start;
    let mut is_found = found;
    for (k, mark) in marks.iter().enumerate() {
        let Some(u) = at(types, k) else {
            return t;
        };
        let Some(is_plain) = at(plains, k) else {
            return t;
        };
        t = pair(first, *mark, t, u, is_second(is_found, *is_plain));
        is_found = is_found_after(is_found, *is_plain);
    }
    t
}

/// What an operator of a product makes of the types of its sides, where both have one. A fault is noted.
#[tactic(auto, unfolding(uc_rules::specs::Faults::first_of))]
fn pair(
    first: &mut Option<Fault>,
    mark: Place,
    a: Option<Ty>,
    b: &Option<Ty>,
    is_second: bool,
) -> Option<Ty>
    ensures ty { result ≡ type_in (times is_second (pair Number a b.now)) }
    ensures faults { first.new ≡ first_of first.old (faults_in mark (times is_second (pair Number a b.now))) }
{
    match a {
        Some(a) => match b {
            Some(b) => settle(first, mark, times(is_second, joined(Chain::Number, &a, b))),
            None => None,
        },
        None => None,
    }
}

/// What is made of two numbers where both sides have a factor that isn't plain: nothing of two integers.
fn times(is_second: bool, outcome: Outcome) -> Outcome
    ensures { result ≡ times is_second outcome }
{
    match &outcome {
        Outcome::Has(Ty::Int) if is_second => Outcome::Breaks(Rule::Nonlinear),
        _ => outcome,
    }
}

fn is_second(is_found: bool, is_plain: bool) -> bool
    ensures { result ≡ (is_found && not is_plain) }
{
    is_found && !is_plain
}

fn is_found_after(is_found: bool, is_plain: bool) -> bool
    ensures { result ≡ (is_found || not is_plain) }
{
    is_found || !is_plain
}
