//! Rules for negations and conditionals.

ghost use Rattle.std.specs.Prelude.{◌≡◌, ◌<◌, [], ◌∷◌, length, IfOk, IfSome};
ghost use Rattle.uc_ops.specs.declared.op.Op.TheVariants.{Not, Ite};
ghost use Rattle.uc_ops.specs.Typing.{Suits, type_at};
ghost use Rattle.uc_simplify_steps.specs.Steps.{IsRight, IsTruth, IsNegation};

use crate::step::{Step, constant};
use std::alloc::{AllocError, Global};
use uc_items::Items;
use uc_terms::{Op, TermId, Terms};
use uc_values::{Ty, Value};

/// The truth of a constant.
pub(crate) fn truth(terms: &Terms, t: TermId) -> Option<bool>
    requires { t < length terms.now }
    ensures { IfSome result (IsTruth terms.now t) }
{
    match constant(terms, t) {
        Some(Value::Bool(truth)) => Some(*truth),
        _ => None,
    }
}

/// What a negation negates.
pub(crate) fn negated(terms: &Terms, t: TermId) -> Option<TermId>
    requires { t < length terms.now }
    ensures { IfSome result (IsNegation terms.now t) }
{
    match (terms.op(t), terms.parts(t)) {
        (Op::Not, [part]) => Some(*part),
        _ => None,
    }
}

/// Two negations.
pub(crate) fn twice_negated(terms: &Terms, a: TermId) -> Option<Step>
    requires { a < length terms.now }
    ensures { IfSome result (IsRight terms.now Not (a ∷ [])) }
{
    let _count = terms.len();
    match negated(terms, a) {
        Some(part) => Some(Step::Known(part)),
        None => None,
    }
}

/// A conditional whose condition is known.
pub(crate) fn chosen(terms: &Terms, condition: TermId, then: TermId, other: TermId) -> Option<Step>
    requires condition { condition < length terms.now }
    requires taken { then < length terms.now }
    requires other { other < length terms.now }
    requires suits { Suits Ite (type_at terms.now condition ∷ type_at terms.now then ∷ type_at terms.now other ∷ []) }
    ensures { IfSome result (IsRight terms.now Ite (condition ∷ then ∷ other ∷ [])) }
{
    match truth(terms, condition) {
        Some(true) => Some(Step::Known(then)),
        Some(false) => Some(Step::Known(other)),
        None => None,
    }
}

/// A conditional of one term.
pub(crate) fn unchosen(
    terms: &Terms,
    condition: TermId,
    then: TermId,
    other: TermId,
) -> Option<Step>
    requires taken { then < length terms.now }
    ensures { IfSome result (IsRight terms.now Ite (condition ∷ then ∷ other ∷ [])) }
{
    if then == other {
        Some(Step::Known(then))
    } else {
        None
    }
}

/// A conditional whose condition is a negation.
pub(crate) fn turned(
    alloc: Global,
    terms: &Terms,
    condition: TermId,
    then: TermId,
    other: TermId,
) -> Result<Option<Step>, AllocError>
    requires condition { condition < length terms.now }
    requires taken { then < length terms.now }
    requires other { other < length terms.now }
    requires suits { Suits Ite (type_at terms.now condition ∷ type_at terms.now then ∷ type_at terms.now other ∷ []) }
    ensures { IfOk result (λ o. IfSome o (IsRight terms.now Ite (condition ∷ then ∷ other ∷ []))) }
{
    let Some(part) = negated(terms, condition) else {
        return Ok(None);
    };
    let parts = Items::from_slice(alloc, &[part, other, then])?;
    Ok(Some(Step::Other(Op::Ite, parts)))
}

/// A conditional of true and false, which is its condition.
pub(crate) fn condition_itself(
    terms: &Terms,
    condition: TermId,
    then: TermId,
    other: TermId,
) -> Option<Step>
    requires condition { condition < length terms.now }
    requires taken { then < length terms.now }
    requires other { other < length terms.now }
    requires suits { Suits Ite (type_at terms.now condition ∷ type_at terms.now then ∷ type_at terms.now other ∷ []) }
    ensures { IfSome result (IsRight terms.now Ite (condition ∷ then ∷ other ∷ [])) }
{
    let _count = terms.len();
    let Ty::Bool = terms.ty(then) else {
        return None;
    };
    let Some(true) = truth(terms, then) else {
        return None;
    };
    let Some(false) = truth(terms, other) else {
        return None;
    };
    Some(Step::Known(condition))
}

/// A conditional of false and true, which is the negation of its condition.
pub(crate) fn condition_negated(
    alloc: Global,
    terms: &Terms,
    condition: TermId,
    then: TermId,
    other: TermId,
) -> Result<Option<Step>, AllocError>
    requires condition { condition < length terms.now }
    requires taken { then < length terms.now }
    requires other { other < length terms.now }
    requires suits { Suits Ite (type_at terms.now condition ∷ type_at terms.now then ∷ type_at terms.now other ∷ []) }
    ensures { IfOk result (λ o. IfSome o (IsRight terms.now Ite (condition ∷ then ∷ other ∷ []))) }
{
    let _count = terms.len();
    let Ty::Bool = terms.ty(then) else {
        return Ok(None);
    };
    let Some(false) = truth(terms, then) else {
        return Ok(None);
    };
    let Some(true) = truth(terms, other) else {
        return Ok(None);
    };
    let parts = Items::from_slice(alloc, &[condition])?;
    Ok(Some(Step::Other(Op::Not, parts)))
}
