//! Chains of operators of one level.

ghost use Rattle.std.specs.Prelude.{◌≡◌};
ghost use Rattle.uc_rules.specs.Faults.{first_of};
ghost use Rattle.uc_rules.specs.Outcomes.{type_in, faults_in};
ghost use Rattle.uc_rules.specs.Rows.{chain_faults, chain_type, pair};

use crate::fault::Fault;
use crate::outcome::settle;
use crate::rows::{Chain, joined};
use uc_items::at;
use uc_syntax::Place;
use uc_values::Ty;

/// The type of a chain, whose faults are noted.
#[tactic(auto, using(crate::proofs::Chains::chain_begin, crate::proofs::Chains::chain_more, crate::proofs::Chains::chain_past_type, crate::proofs::Chains::chain_past_faults, crate::proofs::Chains::chain_end_type, crate::proofs::Chains::chain_end_faults))]
pub fn judge_chain(
    chain: Chain,
    first: &mut Option<Fault>,
    start: Option<Ty>,
    marks: &[Place],
    types: &[Option<Ty>],
) -> Option<Ty>
    ensures ty { result ≡ chain_type chain start marks.now types.now }
    ensures faults { first.new ≡ first_of first.old (chain_faults chain start marks.now types.now) }
{
    let mut t = start;
    for (k, mark) in marks.iter().enumerate() {
        match at(types, k) {
            Some(u) => {
                t = pair(chain, first, *mark, t, u);
            }
            None => return t,
        }
    }
    t
}

/// What an operator makes of the types of its operands, where both have one. A fault is noted.
#[tactic(auto, unfolding(crate::specs::Faults::first_of))]
fn pair(
    chain: Chain,
    first: &mut Option<Fault>,
    mark: Place,
    a: Option<Ty>,
    b: &Option<Ty>,
) -> Option<Ty>
    ensures ty { result ≡ type_in (pair chain a b.now) }
    ensures faults { first.new ≡ first_of first.old (faults_in mark (pair chain a b.now)) }
{
    match a {
        Some(a) => match b {
            Some(b) => settle(first, mark, joined(chain, &a, b)),
            None => None,
        },
        None => None,
    }
}
