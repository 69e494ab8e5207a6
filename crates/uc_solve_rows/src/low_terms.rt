//! Terms of booleans and bit-vectors, and of such terms alone.

ghost use Rattle.std.specs.Prelude.{◌≡◌, ◌≤◌, true, length, All, IfOk, OnOk};
ghost use Rattle.uc_ops.specs.Typing.{Suits, type_of, type_at, types_at};
ghost use Rattle.uc_terms.specs.Built.{Keeps};
ghost use Rattle.uc_blast.specs.Words.{is_bits};
ghost use Rattle.uc_solve_rows.specs.Low.{IsFine, IsLow, KeepsLow};

use std::alloc::{AllocError, Global};
use uc_terms::{Op, TermId, Terms};
use uc_values::{Ty, copy_ty};

/// The number of an operation on parts, with its type.
pub(crate) fn made(
    terms: &mut Terms,
    alloc: Global,
    op: Op,
    parts: &[TermId],
) -> Result<TermId, AllocError>
    requires suits { Suits op (types_at terms.old parts.now) }
    requires parts { All (IsLow terms.old) parts.now }
    requires bits { is_bits (type_of op (types_at terms.old parts.now)) ≡ true }
    ensures low { IfOk result (λ t. IsLow terms.new t) }
    ensures ty { IfOk result (λ t. type_at terms.new t ≡ type_of op (types_at terms.old parts.now)) }
    ensures keeps { OnOk result (Keeps terms.old terms.new) }
    ensures kept { OnOk result (KeepsLow terms.old terms.new) }
{
    let _well_typed = terms.nodes();
    let t = terms.mk(alloc, op, parts)?;
    Ok(t)
}

/// The number of a symbol, with its type.
pub(crate) fn symbol(
    terms: &mut Terms,
    alloc: Global,
    number: u32,
    ty: Ty,
) -> Result<TermId, AllocError>
    requires { IsFine ty }
    ensures low { IfOk result (λ t. IsLow terms.new t) }
    ensures ty { IfOk result (λ t. type_at terms.new t ≡ ty) }
    ensures keeps { OnOk result (Keeps terms.old terms.new) }
    ensures kept { OnOk result (KeepsLow terms.old terms.new) }
{
    made(terms, alloc, Op::Symbol(number, ty), &[])
}

/// A symbol of each type, numbered from 0.
pub(crate) fn symbols(
    terms: &mut Terms,
    alloc: Global,
    types: &[Ty],
) -> Result<Vec<TermId>, AllocError>
    requires fine { All IsFine types.now }
    requires few { length types.now ≤ 3 }
    ensures low { IfOk result (λ ts. All (IsLow terms.new) ts.items) }
    ensures types { IfOk result (λ ts. types_at terms.new ts.items ≡ types.now) }
{
    let mut symbols = Vec::new(alloc);
    for place in 0..types.len() {
        let ty = copy_ty(alloc, &types[place])?;
        let added = symbol(terms, alloc, place as u32, ty)?;
        symbols.push(added)?;
    }
    Ok(symbols)
}
