//! Terms that rows are about.

ghost use Rattle.std.specs.Prelude.{◌≡◌, ◌<◌, ◌≤◌, ◌^◌, length, All, IfOk, OnOk};
ghost use Rattle.uc_values.specs.declared.ty.Ty.TheVariants.{Bv};
ghost use Rattle.uc_ops.specs.Typing.{Suits, Valid, type_of, type_at, types_at};
ghost use Rattle.uc_terms.specs.Built.{Keeps};

use std::alloc::{AllocError, Global};
use uc_terms::{Op, TermId, Terms};
use uc_values::{Ty, Value};

/// The number of an operation on parts, with its type.
pub(crate) fn made(
    terms: &mut Terms,
    alloc: Global,
    op: Op,
    parts: &[TermId],
) -> Result<TermId, AllocError>
    requires there { All (λ p. p < length terms.old) parts.now }
    requires suits { Suits op (types_at terms.old parts.now) }
    ensures there { IfOk result (λ t. t < length terms.new) }
    ensures ty { IfOk result (λ t. type_at terms.new t ≡ type_of op (types_at terms.old parts.now)) }
    ensures keeps { OnOk result (Keeps terms.old terms.new) }
{
    let t = terms.mk(alloc, op, parts)?;
    Ok(t)
}

/// The number of a symbol, with its type.
pub(crate) fn symbol(
    terms: &mut Terms,
    alloc: Global,
    number: u32,
    ty: Ty,
) -> Result<TermId, AllocError>
    requires { Valid ty }
    ensures there { IfOk result (λ t. t < length terms.new) }
    ensures ty { IfOk result (λ t. type_at terms.new t ≡ ty) }
    ensures keeps { OnOk result (Keeps terms.old terms.new) }
{
    made(terms, alloc, Op::Symbol(number, ty), &[])
}

/// The number of a bit-vector, with its type.
#[tactic(auto, using(crate::proofs::Suiting::bits_suit))]
pub(crate) fn bits(
    terms: &mut Terms,
    alloc: Global,
    width: u8,
    number: u64,
) -> Result<TermId, AllocError>
    requires low { 1 ≤ width }
    requires high { width ≤ 64 }
    requires fits { number < 2 ^ width }
    ensures there { IfOk result (λ t. t < length terms.new) }
    ensures ty { IfOk result (λ t. type_at terms.new t ≡ Bv width) }
    ensures keeps { OnOk result (Keeps terms.old terms.new) }
{
    made(
        terms,
        alloc,
        Op::Const(Ty::Bv(width), Value::Bv(width, number)),
        &[],
    )
}
