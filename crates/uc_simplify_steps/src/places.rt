//! Rules for records and arrays that are made.

ghost use Rattle.std.specs.Prelude.{◌≡◌, ◌<◌, true, [], ◌∷◌, length, slice_get, IfOk, IfSome};
ghost use Rattle.uc_ops.specs.declared.op.Op.TheVariants.{GetField, Select};
ghost use Rattle.uc_ops.specs.Typing.{Suits, type_at};
ghost use Rattle.uc_simplify_steps.specs.Steps.{IsRight, Differ};

use crate::opened::{record_parts, stored};
use crate::step::{Step, constant};
use std::alloc::{AllocError, Global};
use uc_items::{Items, at};
use uc_terms::{Op, TermId, Terms};
use uc_values::same_scalar;

/// A field of a record that is made.
pub(crate) fn field_made(terms: &Terms, place: u32, a: TermId) -> Option<Step>
    requires there { a < length terms.now }
    requires suits { Suits (GetField place) (type_at terms.now a ∷ []) }
    ensures { IfSome result (IsRight terms.now (GetField place) (a ∷ [])) }
{
    let Some((_, parts)) = record_parts(terms, a) else {
        return None;
    };
    match part_at(parts, place as usize) {
        Some(part) => Some(Step::Known(part)),
        None => None,
    }
}

/// The part at a place.
fn part_at(parts: &[TermId], place: usize) -> Option<TermId>
    ensures { result ≡ slice_get parts.now place }
{
    at(parts, place).copied()
}

/// What an array holds at an index where it stores an element there, or at an index that is not that one.
pub(crate) fn selected(
    alloc: Global,
    terms: &Terms,
    a: TermId,
    i: TermId,
) -> Result<Option<Step>, AllocError>
    requires array { a < length terms.now }
    requires index { i < length terms.now }
    requires suits { Suits Select (type_at terms.now a ∷ type_at terms.now i ∷ []) }
    ensures { IfOk result (λ o. IfSome o (IsRight terms.now Select (a ∷ i ∷ []))) }
{
    let _count = terms.len();
    let Some((array, index, element)) = stored(terms, a) else {
        return Ok(None);
    };
    if index == i {
        return Ok(Some(Step::Known(element)));
    }
    if !differ(terms, index, i) {
        return Ok(None);
    }
    let parts = Items::from_slice(alloc, &[array, i])?;
    Ok(Some(Step::Other(Op::Select, parts)))
}

/// Whether two terms are different constants.
fn differ(terms: &Terms, a: TermId, b: TermId) -> bool
    requires left { a < length terms.now }
    requires right { b < length terms.now }
    ensures { result ≡ true → Differ terms.now a b }
{
    let Some(left) = constant(terms, a) else {
        return false;
    };
    let Some(right) = constant(terms, b) else {
        return false;
    };
    !same_scalar(left, right)
}
