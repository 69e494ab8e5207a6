//! Records and arrays of bytes.

ghost use Rattle.std.specs.Prelude.{◌≡◌, ◌<◌, length, IfOk, OnOk};
ghost use Rattle.uc_values.specs.declared.ty.Ty.TheVariants.{Bv};
ghost use Rattle.uc_ops.specs.Typing.{type_at};
ghost use Rattle.uc_terms.specs.Built.{Keeps};
ghost use Rattle.uc_terms_table.specs.Bytes.{array_of_bytes, pair_of_bytes};

use crate::building::made;
use crate::taken::byte;
use std::alloc::{AllocError, Global};
use uc_items::{Boxed, Items};
use uc_terms::{Op, TermId, Terms};
use uc_values::{Field, Ty};

/// The number of the symbol that stands for an array.
const ARRAY: u32 = 9;

fn array_ty(alloc: Global) -> Result<Ty, AllocError>
    ensures { IfOk result (λ t. t ≡ array_of_bytes) }
{
    let index = Boxed::new(alloc, Ty::Bv(8))?;
    let element = Boxed::new(alloc, Ty::Bv(8))?;
    Ok(Ty::Arr(index, element))
}

fn pair_ty(alloc: Global) -> Result<Ty, AllocError>
    ensures { IfOk result (λ t. t ≡ pair_of_bytes) }
{
    let mut fields = Items::new(alloc);
    fields.push(Field {
        name: 0,
        ty: Ty::Bv(8),
    })?;
    fields.push(Field {
        name: 1,
        ty: Ty::Bv(8),
    })?;
    Ok(Ty::Rec(fields))
}

/// An array.
#[tactic(auto, using(crate::proofs::OperandTypes::array_suits))]
fn array(terms: &mut Terms, alloc: Global) -> Result<TermId, AllocError>
    ensures there { IfOk result (λ t. t < length terms.new) }
    ensures ty { IfOk result (λ t. type_at terms.new t ≡ array_of_bytes) }
    ensures keeps { OnOk result (Keeps terms.old terms.new) }
{
    let ty = array_ty(alloc)?;
    made(terms, alloc, Op::Symbol(ARRAY, ty), &[])
}

/// The array with a byte stored at another.
#[tactic(auto, using(crate::proofs::OperandTypes::store_suits))]
fn stored(
    terms: &mut Terms,
    alloc: Global,
    index: TermId,
    element: TermId,
) -> Result<TermId, AllocError>
    requires index { index < length terms.old }
    requires element { element < length terms.old }
    requires index_ty { type_at terms.old index ≡ Bv 8 }
    requires element_ty { type_at terms.old element ≡ Bv 8 }
    ensures there { IfOk result (λ t. t < length terms.new) }
    ensures ty { IfOk result (λ t. type_at terms.new t ≡ array_of_bytes) }
    ensures keeps { OnOk result (Keeps terms.old terms.new) }
{
    let before = array(terms, alloc)?;
    made(terms, alloc, Op::Store, &[before, index, element])
}

/// What the array holds at a byte.
#[tactic(auto, using(crate::proofs::OperandTypes::select_suits))]
pub(crate) fn held(
    terms: &mut Terms,
    alloc: Global,
    stack: &mut Vec<TermId>,
) -> Result<Option<TermId>, AllocError> {
    let Some(index) = byte(terms, stack) else {
        return Ok(None);
    };
    let array = array(terms, alloc)?;
    let t = made(terms, alloc, Op::Select, &[array, index])?;
    Ok(Some(t))
}

/// What the array with a byte stored holds at the last byte: the index of the store stands before the byte.
#[tactic(auto, using(crate::proofs::OperandTypes::select_suits))]
pub(crate) fn held_after(
    terms: &mut Terms,
    alloc: Global,
    stack: &mut Vec<TermId>,
) -> Result<Option<TermId>, AllocError> {
    let Some(index) = byte(terms, stack) else {
        return Ok(None);
    };
    let Some(element) = byte(terms, stack) else {
        return Ok(None);
    };
    let Some(place) = byte(terms, stack) else {
        return Ok(None);
    };
    let array = stored(terms, alloc, place, element)?;
    let t = made(terms, alloc, Op::Select, &[array, index])?;
    Ok(Some(t))
}

/// Whether the array with one byte stored is equal to the array with another stored.
#[tactic(auto, using(crate::proofs::OperandTypes::alike_suit))]
pub(crate) fn equal_stores(
    terms: &mut Terms,
    alloc: Global,
    stack: &mut Vec<TermId>,
) -> Result<Option<TermId>, AllocError> {
    let Some(second) = byte(terms, stack) else {
        return Ok(None);
    };
    let Some(there) = byte(terms, stack) else {
        return Ok(None);
    };
    let Some(first) = byte(terms, stack) else {
        return Ok(None);
    };
    let Some(here) = byte(terms, stack) else {
        return Ok(None);
    };
    let a = stored(terms, alloc, here, first)?;
    let b = stored(terms, alloc, there, second)?;
    let t = made(terms, alloc, Op::Eq, &[a, b])?;
    Ok(Some(t))
}

/// A record of two bytes.
#[tactic(auto, using(crate::proofs::OperandTypes::pair_suits))]
fn pair(
    terms: &mut Terms,
    alloc: Global,
    first: TermId,
    second: TermId,
) -> Result<TermId, AllocError>
    requires first { first < length terms.old }
    requires second { second < length terms.old }
    requires first_ty { type_at terms.old first ≡ Bv 8 }
    requires second_ty { type_at terms.old second ≡ Bv 8 }
    ensures there { IfOk result (λ t. t < length terms.new) }
    ensures ty { IfOk result (λ t. type_at terms.new t ≡ pair_of_bytes) }
    ensures keeps { OnOk result (Keeps terms.old terms.new) }
{
    let ty = pair_ty(alloc)?;
    made(terms, alloc, Op::MkRec(ty), &[first, second])
}

/// The second field of a record of two bytes.
#[tactic(auto, using(crate::proofs::OperandTypes::field_suits))]
pub(crate) fn second_field(
    terms: &mut Terms,
    alloc: Global,
    stack: &mut Vec<TermId>,
) -> Result<Option<TermId>, AllocError> {
    let Some(second) = byte(terms, stack) else {
        return Ok(None);
    };
    let Some(first) = byte(terms, stack) else {
        return Ok(None);
    };
    let record = pair(terms, alloc, first, second)?;
    let t = made(terms, alloc, Op::GetField(1), &[record])?;
    Ok(Some(t))
}

/// Whether two records of two bytes are equal.
#[tactic(auto, using(crate::proofs::OperandTypes::alike_suit))]
pub(crate) fn equal_pairs(
    terms: &mut Terms,
    alloc: Global,
    stack: &mut Vec<TermId>,
) -> Result<Option<TermId>, AllocError> {
    let Some(d) = byte(terms, stack) else {
        return Ok(None);
    };
    let Some(c) = byte(terms, stack) else {
        return Ok(None);
    };
    let Some(b) = byte(terms, stack) else {
        return Ok(None);
    };
    let Some(a) = byte(terms, stack) else {
        return Ok(None);
    };
    let left = pair(terms, alloc, a, b)?;
    let right = pair(terms, alloc, c, d)?;
    let t = made(terms, alloc, Op::Eq, &[left, right])?;
    Ok(Some(t))
}
