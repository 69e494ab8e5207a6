//! The operations on bit-vectors, by their shape.

ghost use Rattle.std.specs.Prelude.{◌≡◌, ◌≤◌, ℕ, [], ◌∷◌, IfSome};
ghost use Rattle.uc_values.specs.declared.ty.Ty.TheVariants.{Bv};
ghost use Rattle.uc_ops.specs.Typing.{Suits};

use crate::building::{model_of_one, model_of_two, of_one, of_two};
use std::alloc::Global;
use uc_linear::LinearError;
use uc_terms::{Model, Op};
use uc_values::{Ty, Value};

/// The greatest width.
const MOST: u8 = 64;

/// An operation on two bit-vectors of one width.
#[derive(Clone, Copy)]
pub(crate) enum Pair {
    Add,
    Sub,
    Mul,
    And,
    Or,
    Xor,
    Shl,
    Lshr,
    Ashr,
    Slt,
    Sle,
    Ult,
    Ule,
}

/// An operation on one bit-vector.
#[derive(Clone, Copy)]
pub(crate) enum Single {
    Neg,
    Not,
    /// The highest and the lowest bit.
    Extract(u8, u8),
    /// How many bits are added.
    ZeroExt(u8),
    SignExt(u8),
}

fn pair_op(pair: Pair) -> Op
    ensures { (width : ℕ) → Suits result (Bv width ∷ Bv width ∷ []) }
{
    match pair {
        Pair::Add => Op::BvAdd,
        Pair::Sub => Op::BvSub,
        Pair::Mul => Op::BvMul,
        Pair::And => Op::BvAnd,
        Pair::Or => Op::BvOr,
        Pair::Xor => Op::BvXor,
        Pair::Shl => Op::Shl,
        Pair::Lshr => Op::Lshr,
        Pair::Ashr => Op::Ashr,
        Pair::Slt => Op::Slt,
        Pair::Sle => Op::Sle,
        Pair::Ult => Op::Ult,
        Pair::Ule => Op::Ule,
    }
}

/// The value of an operation on two bit-vectors, where there is such a width.
pub(crate) fn on_pair(
    alloc: Global,
    pair: Pair,
    width: u8,
    a: u64,
    b: u64,
) -> Result<Option<Value>, LinearError> {
    if width == 0 || width > MOST {
        return Ok(None);
    }
    let model = model_of_two(alloc, Value::Bv(width, a), Value::Bv(width, b))?;
    let value = of_two(alloc, pair_op(pair), Ty::Bv(width), Ty::Bv(width), &model)?;
    Ok(Some(value))
}

/// The operation, where the width suits it.
fn single_op(single: Single, width: u8) -> Option<Op>
    requires { width ≤ 64 }
    ensures { IfSome result (λ op. Suits op (Bv width ∷ [])) }
{
    match single {
        Single::Neg => Some(Op::BvNeg),
        Single::Not => Some(Op::BvNot),
        Single::Extract(high, low) if low <= high && high < width => Some(Op::Extract(high, low)),
        Single::ZeroExt(more) if more <= MOST - width => Some(Op::ZeroExt(more)),
        Single::SignExt(more) if more <= MOST - width => Some(Op::SignExt(more)),
        _ => None,
    }
}

/// The value of an operation on one bit-vector, where the width suits it.
pub(crate) fn on_single(
    alloc: Global,
    single: Single,
    width: u8,
    a: u64,
) -> Result<Option<Value>, LinearError> {
    if width == 0 || width > MOST {
        return Ok(None);
    }
    let model = model_of_one(alloc, Value::Bv(width, a))?;
    of_some(alloc, single_op(single, width), width, &model)
}

/// The value of the operation on a bit-vector, where there is one.
fn of_some(
    alloc: Global,
    op: Option<Op>,
    width: u8,
    model: &Model,
) -> Result<Option<Value>, LinearError>
    requires some { 1 ≤ width }
    requires most { width ≤ 64 }
    requires suits { IfSome op (λ op. Suits op (Bv width ∷ [])) }
{
    match op {
        Some(op) => {
            let value = of_one(alloc, op, Ty::Bv(width), model)?;
            Ok(Some(value))
        }
        None => Ok(None),
    }
}

/// Two bit-vectors put together, the first being the high part, where the widths are not too large.
pub(crate) fn on_concat(
    alloc: Global,
    high: (u8, u64),
    low: (u8, u64),
) -> Result<Option<Value>, LinearError> {
    let (width, bits) = high;
    let (more, rest) = low;
    if width == 0 || width > MOST || more == 0 || more > MOST - width {
        return Ok(None);
    }
    let model = model_of_two(alloc, Value::Bv(width, bits), Value::Bv(more, rest))?;
    let value = of_two(alloc, Op::Concat, Ty::Bv(width), Ty::Bv(more), &model)?;
    Ok(Some(value))
}
