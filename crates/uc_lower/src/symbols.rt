//! What stands for a symbol: itself, or new symbols for its innermost fields.

ghost use Rattle.std.specs.Prelude.{◌≡◌, ℕ, ◌+◌, ◌≤◌, ◌<◌, ◌∷◌, [], All, length, IfOk, OnOk};
ghost use Rattle.uc_values.specs.Sizes.{label_bits};
ghost use Rattle.uc_values.specs.declared.ty.Ty.TheVariants.{Bv};
ghost use Rattle.uc_ops.specs.declared.op.Op.TheVariants.{Symbol};
ghost use Rattle.uc_ops.specs.Typing.{Valid, AllValid, type_at, types_at};
ghost use Rattle.uc_terms.specs.Tables.{WellTyped, HasOp};
ghost use Rattle.uc_lower.specs.Fields.{leaves, low_type};
ghost use Rattle.uc_lower.specs.Made.{Grows, Within, IsMade, HasBits};
ghost use Rattle.uc_lower.specs.Steps.{IsBitsType};
ghost use Rattle.uc_lower.specs.Symbols.{is_low, AreTruths, IsBound, HasRange, AreSymbols, StandsFor};

use crate::build::made;
use crate::fields::{label_width, leaves, low_type};
use crate::nodes::one;
use std::alloc::{AllocError, Global};
use uc_terms::{Op, TermId, Terms};
use uc_values::{Ty, Value};

/// What stands for a symbol, where the next new symbol has the number `next`. The ranges of those that stand for labels are added to the conditions.
pub(crate) fn stand_ins(
    alloc: Global,
    terms: &mut Terms,
    t: TermId,
    next: &mut u32,
    conditions: &mut Vec<TermId>,
) -> Result<Vec<TermId>, AllocError>
    requires well { WellTyped terms.old }
    requires there { t < length terms.old }
    requires bits { HasBits (type_at terms.old t) }
    requires conditions { Within terms.old conditions.old.items }
    requires truths { AreTruths terms.old conditions.old.items }
    ensures stands { IfOk result (λ us. StandsFor terms.old terms.new t next.old next.new us.items conditions.old.items conditions.new.items) }
    ensures grown { Grows terms.old terms.new }
{
    if is_kept(terms.ty(t)) {
        let kept = one(alloc, t)?;
        return Ok(kept);
    }
    let leaves = leaves(alloc, terms.ty(t))?;
    let symbols = symbols(alloc, terms, leaves.as_slice(), next, conditions)?;
    Ok(symbols)
}

/// Whether a symbol of this type stands for itself.
fn is_kept(ty: &Ty) -> bool
    ensures { result ≡ is_low ty.now }
{
    matches!(ty, Ty::Bool | Ty::Bv(_))
}

/// New symbols for innermost fields, in order.
fn symbols(
    alloc: Global,
    terms: &mut Terms,
    leaves: &[Ty],
    next: &mut u32,
    conditions: &mut Vec<TermId>,
) -> Result<Vec<TermId>, AllocError>
    requires well { WellTyped terms.old }
    requires leaves { All IsBitsType leaves.now }
    requires valid { AllValid leaves.now }
    requires conditions { Within terms.old conditions.old.items }
    requires truths { AreTruths terms.old conditions.old.items }
    ensures symbols { IfOk result (λ us. AreSymbols terms.old terms.new next.old next.new leaves.now us.items conditions.old.items conditions.new.items) }
    ensures grown { Grows terms.old terms.new }
{
    let mut symbols = Vec::new(alloc);
    for leaf in leaves {
        let symbol = symbol(alloc, terms, *next, leaf)?;
        range(alloc, terms, symbol, leaf, conditions)?;
        symbols.push(symbol)?;
        *next = following(*next)?;
    }
    Ok(symbols)
}

/// The number after, where there is one.
pub(crate) fn following(number: u32) -> Result<u32, AllocError>
    ensures { IfOk result (λ n. n ≡ number + 1) }
{
    if number == u32::MAX {
        return Err(AllocError);
    }
    Ok(number + 1)
}

/// A symbol that stands for a field.
fn symbol(alloc: Global, terms: &mut Terms, number: u32, leaf: &Ty) -> Result<TermId, AllocError>
    requires well { WellTyped terms.old }
    requires leaf { IsBitsType leaf.now }
    requires valid { Valid leaf.now }
    ensures made { IfOk result (λ u. IsMade terms.old terms.new u (Symbol number (low_type leaf.now)) []) }
    ensures grown { Grows terms.old terms.new }
{
    let ty = low_type(alloc, leaf)?;
    let symbol = made(alloc, terms, Op::Symbol(number, ty), &[])?;
    Ok(symbol)
}

/// Adds the range of a symbol that stands for a label.
fn range(
    alloc: Global,
    terms: &mut Terms,
    symbol: TermId,
    leaf: &Ty,
    conditions: &mut Vec<TermId>,
) -> Result<(), AllocError>
    requires well { WellTyped terms.old }
    requires there { symbol < length terms.old }
    requires typed { type_at terms.old symbol ≡ low_type leaf.now }
    requires leaf { IsBitsType leaf.now }
    requires valid { Valid leaf.now }
    requires conditions { Within terms.old conditions.old.items }
    requires truths { AreTruths terms.old conditions.old.items }
    ensures range { OnOk result (HasRange terms.old terms.new leaf.now symbol conditions.old.items conditions.new.items) }
    ensures grown { Grows terms.old terms.new }
{
    match leaf {
        Ty::Bool | Ty::Bv(_) => Ok(()),
        Ty::Enum(_, labels) => {
            let bound = bound(alloc, terms, symbol, *labels)?;
            conditions.push(bound)?;
            Ok(())
        }
        _ => unreachable!(),
    }
}

/// That the bits of a term are the place of one of so many labels.
fn bound(
    alloc: Global,
    terms: &mut Terms,
    symbol: TermId,
    labels: u32,
) -> Result<TermId, AllocError>
    requires well { WellTyped terms.old }
    requires there { symbol < length terms.old }
    requires typed { type_at terms.old symbol ≡ Bv (label_bits labels) }
    requires some { 1 ≤ labels }
    ensures bound { IfOk result (λ c. IsBound terms.old terms.new symbol labels c) }
    ensures grown { Grows terms.old terms.new }
{
    let width = label_width(labels);
    let last = Value::Bv(width, u64::from(labels - 1));
    let last = made(alloc, terms, Op::Const(Ty::Bv(width), last), &[])?;
    let bound = made(alloc, terms, Op::Ule, &[symbol, last])?;
    Ok(bound)
}
