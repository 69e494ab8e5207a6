//! Operations on values.

ghost use Rattle.std.specs.Prelude.{◌≡◌, map, IfOk, All, Contains, pos, ◌*ℤ◌, ◌∷◌, []};
ghost use Rattle.uc_linear.specs.Exact.{OnWide};
ghost use Rattle.uc_values.specs.Values.{number_of};
ghost use Rattle.uc_ops.specs.Typing.{types_at};
ghost use Rattle.uc_ops.specs.Meaning.{part, apply, total};
ghost use Rattle.uc_ops.specs.Met.{met_in, met_sums, IsNarrowResult, Sound, product_met};

use crate::bitwise::word_of;
use crate::built::built;
use crate::model::Model;
use crate::node::Node;
use crate::op::Op;
use crate::part::number;
use crate::term_id::TermId;
use crate::truth::test;
use std::alloc::Global;
use uc_linear::{LinearError, product, sum};
use uc_values::Value;

/// The value of an operation on the given values of its parts, where none of the numbers that it meets leaves 128 bits.
pub fn apply(
    alloc: Global,
    model: &Model,
    op: &Op,
    nodes: &[Node],
    given: &[Value],
    parts: &[TermId],
) -> Result<Value, LinearError>
    requires { Sound op.now (map (part given.now) parts.now) }
    ensures ok { IfOk result (λ v. v ≡ apply model.now op.now (types_at nodes.now parts.now) (map (part given.now) parts.now)) }
    ensures narrow { IfOk result (λ _. All IsNarrowResult (met_in op.now (map (part given.now) parts.now))) }
    ensures wide { OnWide result (Contains (met_in op.now (map (part given.now) parts.now))) }
{
    match op {
        Op::Add => Ok(Value::Int(sum_of(given, parts)?)),
        Op::Scale(factor) => scaled(*factor, number(given, parts, 0)),
        Op::Not | Op::And | Op::Or | Op::Eq | Op::Le | Op::Slt | Op::Sle | Op::Ult | Op::Ule => Ok(
            Value::Bool(test(op, nodes, given, parts)),
        ),
        Op::BvAdd
        | Op::BvSub
        | Op::BvMul
        | Op::BvNeg
        | Op::BvAnd
        | Op::BvOr
        | Op::BvXor
        | Op::BvNot
        | Op::Concat
        | Op::Extract(_, _)
        | Op::ZeroExt(_)
        | Op::SignExt(_)
        | Op::Shl
        | Op::Lshr
        | Op::Ashr => Ok(word_of(op, nodes, given, parts)),
        Op::Symbol(_, _)
        | Op::Const(_, _)
        | Op::Ite
        | Op::App(_, _)
        | Op::Select
        | Op::Store
        | Op::Diff
        | Op::MkRec(_)
        | Op::GetField(_) => Ok(built(alloc, model, op, nodes, given, parts)?),
    }
}

/// The sum of the parts, from the left.
fn sum_of(given: &[Value], parts: &[TermId]) -> Result<i128, LinearError>
    ensures ok { IfOk result (λ z. z ≡ total (map number_of (map (part given.now) parts.now))) }
    ensures narrow { IfOk result (λ _. All IsNarrowResult (met_sums (pos 0) (map number_of (map (part given.now) parts.now)))) }
    ensures wide { OnWide result (Contains (met_sums (pos 0) (map number_of (map (part given.now) parts.now)))) }
{
    let mut total = 0;
    for place in 0..parts.len() {
        total = sum(total, number(given, parts, place))?;
    }
    Ok(total)
}

/// A multiple as a value.
fn scaled(factor: i128, number: i128) -> Result<Value, LinearError>
    ensures ok { IfOk result (λ v. v ≡ Value.Int (factor *ℤ number)) }
    ensures narrow { IfOk result (λ _. All IsNarrowResult (product_met factor number ∷ [])) }
    ensures wide { OnWide result (Contains (product_met factor number ∷ [])) }
{
    Ok(Value::Int(product(factor, number)?))
}
