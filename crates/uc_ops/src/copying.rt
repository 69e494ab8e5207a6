//! Copies of operations.

ghost use Rattle.std.specs.Prelude.{◌≡◌, IfOk};

use crate::op::Op;
use std::alloc::{AllocError, Global};
use uc_values::{copy, copy_ty};

/// The same operation again. Its types and its value take memory.
pub fn copy_op(alloc: Global, op: &Op) -> Result<Op, AllocError>
    ensures { IfOk result (λ o. o ≡ op.now) }
{
    match op {
        Op::Symbol(number, ty) => Ok(Op::Symbol(*number, copy_ty(alloc, ty)?)),
        Op::Const(ty, value) => {
            let ty = copy_ty(alloc, ty)?;
            Ok(Op::Const(ty, copy(alloc, value)?))
        }
        Op::Not => Ok(Op::Not),
        Op::And => Ok(Op::And),
        Op::Or => Ok(Op::Or),
        Op::Eq => Ok(Op::Eq),
        Op::Ite => Ok(Op::Ite),
        Op::Add => Ok(Op::Add),
        Op::Scale(factor) => Ok(Op::Scale(*factor)),
        Op::Le => Ok(Op::Le),
        Op::BvAdd => Ok(Op::BvAdd),
        Op::BvSub => Ok(Op::BvSub),
        Op::BvMul => Ok(Op::BvMul),
        Op::BvNeg => Ok(Op::BvNeg),
        Op::BvAnd => Ok(Op::BvAnd),
        Op::BvOr => Ok(Op::BvOr),
        Op::BvXor => Ok(Op::BvXor),
        Op::BvNot => Ok(Op::BvNot),
        Op::Concat => Ok(Op::Concat),
        Op::Extract(high, low) => Ok(Op::Extract(*high, *low)),
        Op::ZeroExt(more) => Ok(Op::ZeroExt(*more)),
        Op::SignExt(more) => Ok(Op::SignExt(*more)),
        Op::Shl => Ok(Op::Shl),
        Op::Lshr => Ok(Op::Lshr),
        Op::Ashr => Ok(Op::Ashr),
        Op::Slt => Ok(Op::Slt),
        Op::Sle => Ok(Op::Sle),
        Op::Ult => Ok(Op::Ult),
        Op::Ule => Ok(Op::Ule),
        Op::App(number, ty) => Ok(Op::App(*number, copy_ty(alloc, ty)?)),
        Op::Select => Ok(Op::Select),
        Op::Store => Ok(Op::Store),
        Op::Diff => Ok(Op::Diff),
        Op::MkRec(ty) => Ok(Op::MkRec(copy_ty(alloc, ty)?)),
        Op::GetField(place) => Ok(Op::GetField(*place)),
    }
}
