//! Rules for two parts.

ghost use Rattle.std.specs.Prelude.{◌≡◌, ◌<◌, [], ◌∷◌, length, IfOk, IfSome};
ghost use Rattle.uc_ops.specs.declared.op.Op.TheVariants.{Eq as Equal};
ghost use Rattle.uc_ops.specs.Typing.{Suits, type_at, is_constant};
ghost use Rattle.uc_simplify_steps.specs.Steps.{IsRight, of_equals};

use crate::opened::stored;
use crate::step::{Step, boolean, constant};
use crate::truths::truth;
use std::alloc::{AllocError, Global};
use uc_items::Items;
use uc_terms::{Op, TermId, Terms};
use uc_values::{Ty, same_scalar};

/// What a comparison says of one term twice.
pub(crate) fn compared_to_itself(
    alloc: Global,
    terms: &Terms,
    op: &Op,
    a: TermId,
    b: TermId,
) -> Option<Step>
    requires left { a < length terms.now }
    requires right { b < length terms.now }
    requires suits { Suits op.now (type_at terms.now a ∷ type_at terms.now b ∷ []) }
    ensures { IfSome result (IsRight terms.now op.now (a ∷ b ∷ [])) }
{
    let _count = terms.len();
    if a != b {
        return None;
    }
    match of_equals(op) {
        Some(truth) => Some(boolean(alloc, truth)),
        None => None,
    }
}

/// Whether a type has constants.
pub(crate) fn is_constant(ty: &Ty) -> bool
    ensures { result ≡ is_constant ty.now }
{
    matches!(ty, Ty::Bool | Ty::Int | Ty::Bv(_) | Ty::Enum(_, _))
}

/// What the operation says of equal values, where it always says the same.
fn of_equals(op: &Op) -> Option<bool>
    ensures { result ≡ of_equals op.now }
{
    match op {
        Op::Eq | Op::Le | Op::Sle | Op::Ule => Some(true),
        Op::Slt | Op::Ult => Some(false),
        _ => None,
    }
}

/// Whether two constants are equal.
pub(crate) fn compared_constants(alloc: Global, terms: &Terms, a: TermId, b: TermId) -> Option<Step>
    requires left { a < length terms.now }
    requires right { b < length terms.now }
    requires suits { Suits Equal (type_at terms.now a ∷ type_at terms.now b ∷ []) }
    ensures { IfSome result (IsRight terms.now Equal (a ∷ b ∷ [])) }
{
    let Some(left) = constant(terms, a) else {
        return None;
    };
    let Some(right) = constant(terms, b) else {
        return None;
    };
    Some(boolean(alloc, same_scalar(left, right)))
}

/// Whether a term is true.
pub(crate) fn compared_to_true(terms: &Terms, a: TermId, b: TermId) -> Option<Step>
    requires left { a < length terms.now }
    requires right { b < length terms.now }
    ensures { IfSome result (IsRight terms.now Equal (a ∷ b ∷ [])) }
{
    let _count = terms.len();
    let Ty::Bool = terms.ty(a) else {
        return None;
    };
    let Some(true) = truth(terms, b) else {
        return None;
    };
    Some(Step::Known(a))
}

/// Whether a term is false.
pub(crate) fn compared_to_false(
    alloc: Global,
    terms: &Terms,
    a: TermId,
    b: TermId,
) -> Result<Option<Step>, AllocError>
    requires left { a < length terms.now }
    requires right { b < length terms.now }
    ensures { IfOk result (λ o. IfSome o (IsRight terms.now Equal (a ∷ b ∷ []))) }
{
    let _count = terms.len();
    let Ty::Bool = terms.ty(a) else {
        return Ok(None);
    };
    let Some(false) = truth(terms, b) else {
        return Ok(None);
    };
    let parts = Items::from_slice(alloc, &[a])?;
    Ok(Some(Step::Other(Op::Not, parts)))
}

/// Two arrays that store an element each at one index of one array: whether the elements are equal.
pub(crate) fn compared_stores(
    alloc: Global,
    terms: &Terms,
    a: TermId,
    b: TermId,
) -> Result<Option<Step>, AllocError>
    requires left { a < length terms.now }
    requires right { b < length terms.now }
    ensures { IfOk result (λ o. IfSome o (IsRight terms.now Equal (a ∷ b ∷ []))) }
{
    let _count = terms.len();
    let Some((array, index, element)) = stored(terms, a) else {
        return Ok(None);
    };
    let Some((same_array, same_index, other)) = stored(terms, b) else {
        return Ok(None);
    };
    if array != same_array || index != same_index {
        return Ok(None);
    }
    let parts = Items::from_slice(alloc, &[element, other])?;
    Ok(Some(Step::Other(Op::Eq, parts)))
}
