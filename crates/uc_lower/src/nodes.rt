//! What stands for a term whose parts are lowered.

ghost use Rattle.std.specs.Prelude.{◌≡◌, ℕ, ◌<◌, ◌∷◌, [], All, length, IfOk};
ghost use Rattle.uc_ops.specs.declared.op.Op.TheVariants.{Const, Eq, Ite, MkRec, GetField};
ghost use Rattle.uc_ops.specs.Typing.{type_at, types_at};
ghost use Rattle.uc_terms.specs.Tables.{WellTyped};
ghost use Rattle.uc_lower.specs.Made.{Grows};
ghost use Rattle.uc_lower.specs.Steps.{lows, part_lows, joined_lows, IsInner, IsPlain, IsBitsType, IsReady, IsLowerable, IsLowOf};

use crate::build::{chosen, equality, made};
use crate::fields::{label, label_width, low_field};
use std::alloc::{AllocError, Global};
use uc_items::{Items, at};
use uc_ops::copy_op;
use uc_terms::{Op, TermId, Terms};
use uc_values::{Ty, Value};

/// What stands for a term.
pub(crate) fn low_of(lowered: &[Items<TermId>], t: TermId) -> &[TermId]
    ensures { result.now ≡ lows lowered.now t }
{
    match at(lowered, t.index()) {
        Some(terms) => terms.as_slice(),
        None => &[],
    }
}

/// What stands for a part, by its place among the parts.
fn low_part<'a>(lowered: &'a [Items<TermId>], parts: &[TermId], place: usize) -> &'a [TermId]
    ensures { result.now ≡ part_lows lowered.now parts.now place }
{
    match at(parts, place) {
        Some(part) => low_of(lowered, *part),
        None => &[],
    }
}

/// What stands for the parts, one after another.
fn low_parts(
    alloc: Global,
    lowered: &[Items<TermId>],
    parts: &[TermId],
) -> Result<Vec<TermId>, AllocError>
    ensures { IfOk result (λ us. us.items ≡ joined_lows lowered.now parts.now) }
{
    let mut all = Vec::new(alloc);
    for part in parts {
        all.extend_from_slice(low_of(lowered, *part))?;
    }
    Ok(all)
}

/// What stands for a term that is no symbol, from what stands for its parts.
pub(crate) fn low_inner(
    alloc: Global,
    terms: &mut Terms,
    lowered: &[Items<TermId>],
    t: TermId,
) -> Result<Vec<TermId>, AllocError>
    requires well { WellTyped terms.old }
    requires there { t < length terms.old }
    requires lowerable { IsLowerable terms.old lowered.now t }
    ensures low { IfOk result (λ us. IsLowOf terms.old terms.new lowered.now t us.items) }
    ensures grown { Grows terms.old terms.new }
{
    let op = copy_op(alloc, terms.op(t))?;
    low_by_operation(alloc, terms, lowered, t, &op)
}

/// The same, by the operation of the term.
fn low_by_operation(
    alloc: Global,
    terms: &mut Terms,
    lowered: &[Items<TermId>],
    t: TermId,
    op: &Op,
) -> Result<Vec<TermId>, AllocError>
    requires well { WellTyped terms.old }
    requires ready { IsReady terms.old lowered.now t op.now }
    requires inner { IsInner op.now }
    ensures low { IfOk result (λ us. IsLowOf terms.old terms.new lowered.now t us.items) }
    ensures grown { Grows terms.old terms.new }
{
    match op {
        Op::Const(ty, value) => constant(alloc, terms, lowered, t, ty, value),
        Op::Eq => low_equality(alloc, terms, lowered, t),
        Op::Ite => low_choice(alloc, terms, lowered, t),
        Op::MkRec(ty) => record(alloc, terms, lowered, t, ty),
        Op::GetField(place) => field(alloc, terms, lowered, t, *place),
        Op::Not
        | Op::And
        | Op::Or
        | Op::BvAdd
        | Op::BvSub
        | Op::BvMul
        | Op::BvNeg
        | Op::BvAnd
        | Op::BvOr
        | Op::BvXor
        | Op::BvNot
        | Op::Concat
        | Op::Extract(_, _)
        | Op::ZeroExt(_)
        | Op::SignExt(_)
        | Op::Shl
        | Op::Lshr
        | Op::Ashr
        | Op::Slt
        | Op::Sle
        | Op::Ult
        | Op::Ule => plain(alloc, terms, lowered, t, op),
        _ => unreachable!(),
    }
}

/// A constant: a label is told by its bits.
fn constant(
    alloc: Global,
    terms: &mut Terms,
    lowered: &[Items<TermId>],
    t: TermId,
    ty: &Ty,
    value: &Value,
) -> Result<Vec<TermId>, AllocError>
    requires well { WellTyped terms.old }
    requires ready { IsReady terms.old lowered.now t (Const ty.now value.now) }
    requires bits { IsBitsType ty.now }
    ensures low { IfOk result (λ us. IsLowOf terms.old terms.new lowered.now t us.items) }
    ensures grown { Grows terms.old terms.new }
{
    match ty {
        Ty::Bool => {
            let low = one(alloc, t)?;
            Ok(low)
        }
        Ty::Bv(_) => {
            let low = one(alloc, t)?;
            Ok(low)
        }
        Ty::Enum(_, labels) => {
            let width = label_width(*labels);
            let bits = Value::Bv(width, u64::from(label(value)));
            let bits = made(alloc, terms, Op::Const(Ty::Bv(width), bits), &[])?;
            let low = one(alloc, bits)?;
            Ok(low)
        }
        _ => unreachable!(),
    }
}

/// The list of one term.
pub(crate) fn one(alloc: Global, t: TermId) -> Result<Vec<TermId>, AllocError>
    ensures { IfOk result (λ us. us.items ≡ t ∷ []) }
{
    let mut terms = Vec::new(alloc);
    terms.push(t)?;
    Ok(terms)
}

/// Whether two terms are the same, field by field.
fn low_equality(
    alloc: Global,
    terms: &mut Terms,
    lowered: &[Items<TermId>],
    t: TermId,
) -> Result<Vec<TermId>, AllocError>
    requires well { WellTyped terms.old }
    requires ready { IsReady terms.old lowered.now t Eq }
    ensures low { IfOk result (λ us. IsLowOf terms.old terms.new lowered.now t us.items) }
    ensures grown { Grows terms.old terms.new }
{
    let left = low_part(lowered, terms.parts(t), 0);
    let right = low_part(lowered, terms.parts(t), 1);
    let same = equality(alloc, terms, left, right)?;
    let low = one(alloc, same)?;
    Ok(low)
}

/// A choice, field by field.
fn low_choice(
    alloc: Global,
    terms: &mut Terms,
    lowered: &[Items<TermId>],
    t: TermId,
) -> Result<Vec<TermId>, AllocError>
    requires well { WellTyped terms.old }
    requires ready { IsReady terms.old lowered.now t Ite }
    ensures low { IfOk result (λ us. IsLowOf terms.old terms.new lowered.now t us.items) }
    ensures grown { Grows terms.old terms.new }
{
    let condition = low_part(lowered, terms.parts(t), 0)[0];
    let left = low_part(lowered, terms.parts(t), 1);
    let right = low_part(lowered, terms.parts(t), 2);
    let low = chosen(alloc, terms, condition, left, right)?;
    Ok(low)
}

/// A record: its fields, one after another.
fn record(
    alloc: Global,
    terms: &Terms,
    lowered: &[Items<TermId>],
    t: TermId,
    ty: &Ty,
) -> Result<Vec<TermId>, AllocError>
    requires well { WellTyped terms.now }
    requires ready { IsReady terms.now lowered.now t (MkRec ty.now) }
    ensures { IfOk result (λ us. IsLowOf terms.now terms.now lowered.now t us.items) }
{
    let low = low_parts(alloc, lowered, terms.parts(t))?;
    Ok(low)
}

/// A field of a record, from among the fields of its part.
fn field(
    alloc: Global,
    terms: &Terms,
    lowered: &[Items<TermId>],
    t: TermId,
    place: u32,
) -> Result<Vec<TermId>, AllocError>
    requires well { WellTyped terms.now }
    requires ready { IsReady terms.now lowered.now t (GetField place) }
    ensures { IfOk result (λ us. IsLowOf terms.now terms.now lowered.now t us.items) }
{
    let part = terms.parts(t)[0];
    let low = low_field(terms.ty(part), place as usize, low_of(lowered, part));
    let low = Vec::from_slice(alloc, low)?;
    Ok(low)
}

/// The same operation on what stands for the parts.
fn plain(
    alloc: Global,
    terms: &mut Terms,
    lowered: &[Items<TermId>],
    t: TermId,
    op: &Op,
) -> Result<Vec<TermId>, AllocError>
    requires well { WellTyped terms.old }
    requires ready { IsReady terms.old lowered.now t op.now }
    requires plain { IsPlain op.now }
    ensures low { IfOk result (λ us. IsLowOf terms.old terms.new lowered.now t us.items) }
    ensures grown { Grows terms.old terms.new }
{
    let parts = low_parts(alloc, lowered, terms.parts(t))?;
    let op = copy_op(alloc, op)?;
    let same = made(alloc, terms, op, parts.as_slice())?;
    let low = one(alloc, same)?;
    Ok(low)
}
