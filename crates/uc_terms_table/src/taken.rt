//! Operations on terms that are taken from the end of a list, where their types suit.

ghost use Rattle.std.specs.Prelude.{◌≡◌, ◌<◌, true, [], ◌∷◌, length, IfSome};
ghost use Rattle.uc_values.specs.declared.ty.Ty.TheVariants.{Bool, Int, Bv};
ghost use Rattle.uc_ops.specs.Typing.{Suits, type_at};

use crate::building::made;
use std::alloc::{AllocError, Global};
use uc_terms::{Op, TermId, Terms};
use uc_values::Ty;

/// Takes the last term.
pub(crate) fn last(terms: &Terms, stack: &mut Vec<TermId>) -> Option<TermId>
    ensures { IfSome result (λ t. t < length terms.now) }
{
    let t = stack.pop()?;
    if t.number() < terms.len() {
        Some(t)
    } else {
        None
    }
}

/// Takes the last two terms, in their order.
fn two(terms: &Terms, stack: &mut Vec<TermId>) -> Option<(TermId, TermId)>
    ensures first { IfSome result (λ r. r.0 < length terms.now) }
    ensures second { IfSome result (λ r. r.1 < length terms.now) }
{
    let b = last(terms, stack)?;
    let a = last(terms, stack)?;
    Some((a, b))
}

/// Whether both are truths, integers, or bit-vectors of one width.
fn are_alike(terms: &Terms, a: TermId, b: TermId) -> bool
    requires first { a < length terms.now }
    requires second { b < length terms.now }
    ensures { result ≡ true → type_at terms.now a ≡ type_at terms.now b }
{
    match (terms.ty(a), terms.ty(b)) {
        (Ty::Bool, Ty::Bool) => true,
        (Ty::Int, Ty::Int) => true,
        (Ty::Bv(v), Ty::Bv(w)) => v == w,
        _ => false,
    }
}

/// An operation on no parts.
pub(crate) fn leaf(terms: &mut Terms, alloc: Global, op: Op) -> Result<Option<TermId>, AllocError>
    requires { Suits op [] }
{
    let t = made(terms, alloc, op, &[])?;
    Ok(Some(t))
}

/// Whether the last two are equal.
#[tactic(auto, using(crate::proofs::OperandTypes::alike_suit))]
pub(crate) fn equal(
    terms: &mut Terms,
    alloc: Global,
    stack: &mut Vec<TermId>,
) -> Result<Option<TermId>, AllocError> {
    let Some((a, b)) = two(terms, stack) else {
        return Ok(None);
    };
    if !are_alike(terms, a, b) {
        return Ok(None);
    }
    let t = made(terms, alloc, Op::Eq, &[a, b])?;
    Ok(Some(t))
}

/// The one or the other of the last two, by the truth before them.
#[tactic(auto, using(crate::proofs::OperandTypes::choice_suits))]
pub(crate) fn chosen(
    terms: &mut Terms,
    alloc: Global,
    stack: &mut Vec<TermId>,
) -> Result<Option<TermId>, AllocError> {
    let Some((a, b)) = two(terms, stack) else {
        return Ok(None);
    };
    let Some(c) = last(terms, stack) else {
        return Ok(None);
    };
    if !are_alike(terms, a, b) {
        return Ok(None);
    }
    let Ty::Bool = terms.ty(c) else {
        return Ok(None);
    };
    let t = made(terms, alloc, Op::Ite, &[c, a, b])?;
    Ok(Some(t))
}

/// Takes the last term, a truth.
fn truth(terms: &Terms, stack: &mut Vec<TermId>) -> Option<TermId>
    ensures there { IfSome result (λ t. t < length terms.now) }
    ensures ty { IfSome result (λ t. type_at terms.now t ≡ Bool) }
{
    let t = last(terms, stack)?;
    match terms.ty(t) {
        Ty::Bool => Some(t),
        _ => None,
    }
}

/// Takes the last two terms, both truths, in their order.
fn truths(terms: &Terms, stack: &mut Vec<TermId>) -> Option<(TermId, TermId)>
    ensures first { IfSome result (λ r. r.0 < length terms.now) }
    ensures second { IfSome result (λ r. r.1 < length terms.now) }
    ensures first_ty { IfSome result (λ r. type_at terms.now r.0 ≡ Bool) }
    ensures second_ty { IfSome result (λ r. type_at terms.now r.1 ≡ Bool) }
{
    let b = truth(terms, stack)?;
    let a = truth(terms, stack)?;
    Some((a, b))
}

/// Takes the last term, an integer.
fn integer(terms: &Terms, stack: &mut Vec<TermId>) -> Option<TermId>
    ensures there { IfSome result (λ t. t < length terms.now) }
    ensures ty { IfSome result (λ t. type_at terms.now t ≡ Int) }
{
    let t = last(terms, stack)?;
    match terms.ty(t) {
        Ty::Int => Some(t),
        _ => None,
    }
}

/// Takes the last two terms, both integers, in their order.
fn integers(terms: &Terms, stack: &mut Vec<TermId>) -> Option<(TermId, TermId)>
    ensures first { IfSome result (λ r. r.0 < length terms.now) }
    ensures second { IfSome result (λ r. r.1 < length terms.now) }
    ensures first_ty { IfSome result (λ r. type_at terms.now r.0 ≡ Int) }
    ensures second_ty { IfSome result (λ r. type_at terms.now r.1 ≡ Int) }
{
    let b = integer(terms, stack)?;
    let a = integer(terms, stack)?;
    Some((a, b))
}

/// Takes the last term, a bit-vector of 8 bits.
pub(crate) fn byte(terms: &Terms, stack: &mut Vec<TermId>) -> Option<TermId>
    ensures there { IfSome result (λ t. t < length terms.now) }
    ensures ty { IfSome result (λ t. type_at terms.now t ≡ Bv 8) }
{
    let t = last(terms, stack)?;
    match terms.ty(t) {
        Ty::Bv(8) => Some(t),
        _ => None,
    }
}

/// Takes the last two terms, both bit-vectors of 8 bits, in their order.
fn bytes(terms: &Terms, stack: &mut Vec<TermId>) -> Option<(TermId, TermId)>
    ensures first { IfSome result (λ r. r.0 < length terms.now) }
    ensures second { IfSome result (λ r. r.1 < length terms.now) }
    ensures first_ty { IfSome result (λ r. type_at terms.now r.0 ≡ Bv 8) }
    ensures second_ty { IfSome result (λ r. type_at terms.now r.1 ≡ Bv 8) }
{
    let b = byte(terms, stack)?;
    let a = byte(terms, stack)?;
    Some((a, b))
}

/// Takes the last term, a bit-vector of 16 bits.
fn word(terms: &Terms, stack: &mut Vec<TermId>) -> Option<TermId>
    ensures there { IfSome result (λ t. t < length terms.now) }
    ensures ty { IfSome result (λ t. type_at terms.now t ≡ Bv 16) }
{
    let t = last(terms, stack)?;
    match terms.ty(t) {
        Ty::Bv(16) => Some(t),
        _ => None,
    }
}

/// An operation on a term, where there is one.
fn on_one(
    terms: &mut Terms,
    alloc: Global,
    op: Op,
    part: Option<TermId>,
) -> Result<Option<TermId>, AllocError>
    requires there { IfSome part (λ p. p < length terms.old) }
    requires suits { IfSome part (λ p. Suits op (type_at terms.old p ∷ [])) }
{
    let Some(a) = part else {
        return Ok(None);
    };
    let t = made(terms, alloc, op, &[a])?;
    Ok(Some(t))
}

/// An operation on two terms, where there are such.
fn on_two(
    terms: &mut Terms,
    alloc: Global,
    op: Op,
    parts: Option<(TermId, TermId)>,
) -> Result<Option<TermId>, AllocError>
    requires first { IfSome parts (λ r. r.0 < length terms.old) }
    requires second { IfSome parts (λ r. r.1 < length terms.old) }
    requires suits { IfSome parts (λ r. Suits op (type_at terms.old r.0 ∷ type_at terms.old r.1 ∷ [])) }
{
    let Some((a, b)) = parts else {
        return Ok(None);
    };
    let t = made(terms, alloc, op, &[a, b])?;
    Ok(Some(t))
}

/// An operation on a truth.
#[tactic(auto, using(crate::proofs::OperandTypes::one_suits))]
pub(crate) fn on_truth(
    terms: &mut Terms,
    alloc: Global,
    stack: &mut Vec<TermId>,
    op: Op,
) -> Result<Option<TermId>, AllocError>
    requires { Suits op (Bool ∷ []) }
{
    let part = truth(terms, stack);
    on_one(terms, alloc, op, part)
}

/// An operation on two truths.
#[tactic(auto, using(crate::proofs::OperandTypes::two_suit))]
pub(crate) fn on_truths(
    terms: &mut Terms,
    alloc: Global,
    stack: &mut Vec<TermId>,
    op: Op,
) -> Result<Option<TermId>, AllocError>
    requires { Suits op (Bool ∷ Bool ∷ []) }
{
    let parts = truths(terms, stack);
    on_two(terms, alloc, op, parts)
}

/// An operation on an integer.
#[tactic(auto, using(crate::proofs::OperandTypes::one_suits))]
pub(crate) fn on_integer(
    terms: &mut Terms,
    alloc: Global,
    stack: &mut Vec<TermId>,
    op: Op,
) -> Result<Option<TermId>, AllocError>
    requires { Suits op (Int ∷ []) }
{
    let part = integer(terms, stack);
    on_one(terms, alloc, op, part)
}

/// An operation on two integers.
#[tactic(auto, using(crate::proofs::OperandTypes::two_suit))]
pub(crate) fn on_integers(
    terms: &mut Terms,
    alloc: Global,
    stack: &mut Vec<TermId>,
    op: Op,
) -> Result<Option<TermId>, AllocError>
    requires { Suits op (Int ∷ Int ∷ []) }
{
    let parts = integers(terms, stack);
    on_two(terms, alloc, op, parts)
}

/// An operation on a bit-vector of 8 bits.
#[tactic(auto, using(crate::proofs::OperandTypes::one_suits))]
pub(crate) fn on_byte(
    terms: &mut Terms,
    alloc: Global,
    stack: &mut Vec<TermId>,
    op: Op,
) -> Result<Option<TermId>, AllocError>
    requires { Suits op (Bv 8 ∷ []) }
{
    let part = byte(terms, stack);
    on_one(terms, alloc, op, part)
}

/// An operation on two bit-vectors of 8 bits.
#[tactic(auto, using(crate::proofs::OperandTypes::two_suit))]
pub(crate) fn on_bytes(
    terms: &mut Terms,
    alloc: Global,
    stack: &mut Vec<TermId>,
    op: Op,
) -> Result<Option<TermId>, AllocError>
    requires { Suits op (Bv 8 ∷ Bv 8 ∷ []) }
{
    let parts = bytes(terms, stack);
    on_two(terms, alloc, op, parts)
}

/// An operation on a bit-vector of 16 bits.
#[tactic(auto, using(crate::proofs::OperandTypes::one_suits))]
pub(crate) fn on_word(
    terms: &mut Terms,
    alloc: Global,
    stack: &mut Vec<TermId>,
    op: Op,
) -> Result<Option<TermId>, AllocError>
    requires { Suits op (Bv 16 ∷ []) }
{
    let part = word(terms, stack);
    on_one(terms, alloc, op, part)
}
