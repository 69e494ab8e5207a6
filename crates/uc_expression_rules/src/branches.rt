//! Conditional expressions.

ghost use Rattle.std.specs.Prelude.{[], Option};
ghost use Rattle.uc_expression_rules.specs.Judging.{FindsOwn, own_with, own_of_branch};
ghost use Rattle.uc_rules.specs.Expressions.{Own};
ghost use Rattle.uc_rules.specs.declared.fault.Fault.{Fault as FaultMeant};

use uc_items::Items;
use uc_rules::{Fault, condition, same_outcome, settle};
use uc_syntax::Place;
use uc_values::Ty;

/// What an arm of a conditional is judged to be: where its `if` stands, where its condition begins, and the types of both parts.
#[derive(Drop)]
pub struct JudgedBranch {
    pub place: Place,
    pub begin: Place,
    pub condition: Option<Ty>,
    pub value: Option<Ty>,
}

/// The type of a conditional of some arms. They are judged from the last one, since each has the type of all that follows it too.
#[tactic(auto, using(crate::proofs::Turns::own_begin, crate::proofs::Turns::own_more, crate::proofs::Turns::own_end))]
pub(crate) fn conditional(
    branches: Items<JudgedBranch>,
    otherwise: Option<Ty>,
    first: &mut Option<Fault>,
) -> Option<Ty>
    ensures { FindsOwn first.old first.new result (own_with branches (record { faults = []; type = otherwise })) }
{
    let mut rest = otherwise;
    let mut branches = branches.into_vec();
    branches.reverse();
    for branch in branches {
        rest = joined(branch, rest, first);
    }
    rest
}

/// The type of one arm and of all that follows it.
fn joined(branch: JudgedBranch, rest: Option<Ty>, first: &mut Option<Fault>) -> Option<Ty>
    ensures { (old : Option FaultMeant) (own : Own) → FindsOwn old first.old rest own → FindsOwn old first.new result (own_of_branch branch own) }
{
    let JudgedBranch {
        place,
        begin,
        condition: asked,
        value,
    } = branch;
    let kept = settle(first, begin, condition(&asked));
    let ty = settle(first, place, same_outcome(value, &rest));
    match kept {
        Some(_) => ty,
        None => None,
    }
}
