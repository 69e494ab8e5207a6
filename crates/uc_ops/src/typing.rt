//! The type of what an operation gives.

ghost use Rattle.std.specs.Prelude.{◌≡◌, slice_get, IfOk, option_copied, unwrap_or, ◌+◌, ◌<◌};
ghost use Rattle.uc_values.specs.Types.{field_types};
ghost use Rattle.uc_ops.specs.Typing.{Suits, AllValid, type_of, types_at, part_type, type_or, width_of, fields_of, index_of, element_of};

use crate::node::Node;
use crate::op::Op;
use crate::term_id::TermId;
use std::alloc::{AllocError, Global};
use uc_items::at;
use uc_values::{Ty, copy_ty};

/// The type of a part, by its place among the parts.
pub(crate) fn part_type<'a>(nodes: &'a [Node], parts: &[TermId], place: usize) -> Option<&'a Ty>
    ensures { type_or (option_copied result) ≡ part_type (types_at nodes.now parts.now) place }
{
    match at(parts, place) {
        Some(part) => match at(nodes, part.index()) {
            Some(node) => Some(&node.ty),
            None => None,
        },
        None => None,
    }
}

/// The width of a bit-vector type.
fn width(ty: Option<&Ty>) -> u8
    ensures { result ≡ width_of (type_or (option_copied ty.entry)) }
{
    match ty {
        Some(Ty::Bv(width)) => *width,
        _ => 0,
    }
}

/// The type of a field, by its place.
fn field(ty: Option<&Ty>, place: usize) -> Option<&Ty>
    ensures { type_or (option_copied result) ≡ part_type (field_types (fields_of (type_or (option_copied ty.entry)))) place }
{
    let Some(Ty::Rec(fields)) = ty else {
        return None;
    };
    match at(fields.as_slice(), place) {
        Some(field) => Some(&field.ty),
        None => None,
    }
}

/// The type of an array's indices.
pub(crate) fn index(ty: Option<&Ty>) -> Option<&Ty>
    ensures { type_or (option_copied result) ≡ index_of (type_or (option_copied ty.entry)) }
{
    match ty {
        Some(Ty::Arr(index, _)) => Some(index.get()),
        _ => None,
    }
}

/// The type of an array's elements.
pub(crate) fn element(ty: Option<&Ty>) -> Option<&Ty>
    ensures { type_or (option_copied result) ≡ element_of (type_or (option_copied ty.entry)) }
{
    match ty {
        Some(Ty::Arr(_, element)) => Some(element.get()),
        _ => None,
    }
}

/// A copy of a type, and of the boolean type where there is none.
fn copied(alloc: Global, ty: Option<&Ty>) -> Result<Ty, AllocError>
    ensures { IfOk result (λ t. t ≡ type_or (option_copied ty.entry)) }
{
    match ty {
        Some(ty) => copy_ty(alloc, ty),
        None => Ok(Ty::Bool),
    }
}

/// The type of an operation on parts that suit it.
pub fn result_type(
    alloc: Global,
    nodes: &[Node],
    op: &Op,
    parts: &[TermId],
) -> Result<Ty, AllocError>
    requires suits { Suits op.now (types_at nodes.now parts.now) }
    requires valid { AllValid (types_at nodes.now parts.now) }
    ensures { IfOk result (λ ty. ty ≡ type_of op.now (types_at nodes.now parts.now)) }
{
    let first = part_type(nodes, parts, 0);
    match op {
        Op::Symbol(_, ty) | Op::Const(ty, _) | Op::App(_, ty) | Op::MkRec(ty) => copy_ty(alloc, ty),
        Op::Not | Op::And | Op::Or | Op::Eq | Op::Le | Op::Slt | Op::Sle | Op::Ult | Op::Ule => Ok(
            Ty::Bool,
        ),
        Op::Add | Op::Scale(_) => Ok(Ty::Int),
        Op::BvAdd
        | Op::BvSub
        | Op::BvMul
        | Op::BvNeg
        | Op::BvAnd
        | Op::BvOr
        | Op::BvXor
        | Op::BvNot
        | Op::Shl
        | Op::Lshr
        | Op::Ashr
        | Op::Store => copied(alloc, first),
        Op::Ite => copied(alloc, part_type(nodes, parts, 1)),
        Op::Concat => Ok(Ty::Bv(wider(first, width(part_type(nodes, parts, 1))))),
        Op::ZeroExt(more) | Op::SignExt(more) => Ok(Ty::Bv(wider(first, *more))),
        Op::Extract(high, low) => Ok(Ty::Bv(high.saturating_sub(*low).saturating_add(1))),
        Op::Select => copied(alloc, element(first)),
        Op::Diff => copied(alloc, index(first)),
        Op::GetField(place) => copied(alloc, field(first, *place as usize)),
    }
}

/// The width of a bit-vector type and more bits, which has 8 bits for widths up to 64.
fn wider(ty: Option<&Ty>, more: u8) -> u8
    ensures { width_of (type_or (option_copied ty.entry)) + more < 256 → result ≡ width_of (type_or (option_copied ty.entry)) + more }
{
    width(ty).saturating_add(more)
}
