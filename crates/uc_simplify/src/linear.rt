//! Operations on integers in a linear normal form.

ghost use Rattle.std.specs.Prelude.{◌≡◌, ◌<◌, ◌+ℤ◌, ◌-ℤ◌, true, [], ◌∷◌, length, IfOk, IfSome, All};
ghost use Rattle.uc_values.specs.declared.ty.Ty.TheVariants.{Int as Integer};
ghost use Rattle.uc_linear.specs.Linear.{sum_at};
ghost use Rattle.uc_ops.specs.declared.op.Op.TheVariants.{Eq as Equal, Add, Scale};
ghost use Rattle.uc_ops.specs.Typing.{Suits, types_at, type_at};
ghost use Rattle.uc_terms.specs.Tables.{WellTyped};
ghost use Rattle.uc_simplify.specs.Forms.{number_at};
ghost use Rattle.uc_simplify_steps.specs.Features.{integer};
ghost use Rattle.uc_simplify.specs.Simplified.{Rebuilds, Grows};
ghost use Rattle.uc_simplify.specs.Integers.{AreIntegers, IsInteger, IsTimes, IsSumOf, Adding, PairBrings, AreSides, compares};

use crate::building::put;
use crate::{difference_form, multiple_form, sum_form};
use std::alloc::{AllocError, Global};
use uc_items::Items;
use uc_linear::difference;
use uc_ops::copy_op;
use uc_terms::{Op, TermId, Terms};
use uc_values::{Ty, Value};

/// A sum, a multiple or a comparison of integers, in its normal form; none for another operation, or where a number leaves 128 bits.
pub(crate) fn normal(
    alloc: Global,
    terms: &mut Terms,
    op: &Op,
    parts: &[TermId],
) -> Result<Option<TermId>, AllocError>
    requires there { All (λ p. p < length terms.old) parts.now }
    requires suits { Suits op.now (types_at terms.old parts.now) }
    ensures rebuilt { IfOk result (λ o. IfSome o (λ r. Rebuilds terms.new r terms.old op.now parts.now)) }
    ensures grown { Grows terms.old terms.new }
    ensures well { WellTyped terms.new }
{
    let _count = terms.len();
    match (op, parts) {
        (Op::Add, _) => total(alloc, terms, parts),
        (Op::Scale(factor), [a]) => multiple(alloc, terms, *factor, *a),
        (Op::Le, [a, b]) => compared(alloc, terms, op, *a, *b),
        (Op::Eq, [a, b]) => {
            let Ty::Int = terms.ty(*a) else {
                return Ok(None);
            };
            equation(alloc, terms, *a, *b)
        }
        _ => Ok(None),
    }
}

/// A sum: a multiple of each term, in the order of their numbers, and a constant.
fn total(alloc: Global, terms: &mut Terms, parts: &[TermId]) -> Result<Option<TermId>, AllocError>
    requires there { All (λ p. p < length terms.old) parts.now }
    requires suits { Suits Add (types_at terms.old parts.now) }
    ensures rebuilt { IfOk result (λ o. IfSome o (λ r. Rebuilds terms.new r terms.old Add parts.now)) }
    ensures grown { Grows terms.old terms.new }
    ensures well { WellTyped terms.new }
{
    let _count = terms.len();
    let Some(form) = sum_form(alloc, terms, parts)? else {
        return Ok(None);
    };
    let sum = sum_of(alloc, terms, form.constant(), form.pairs())?;
    Ok(Some(sum))
}

/// A multiple, as a sum.
fn multiple(
    alloc: Global,
    terms: &mut Terms,
    factor: i128,
    a: TermId,
) -> Result<Option<TermId>, AllocError>
    requires there { a < length terms.old }
    requires suits { Suits (Scale factor) (type_at terms.old a ∷ []) }
    ensures rebuilt { IfOk result (λ o. IfSome o (λ r. Rebuilds terms.new r terms.old (Scale factor) (a ∷ []))) }
    ensures grown { Grows terms.old terms.new }
    ensures well { WellTyped terms.new }
{
    let _count = terms.len();
    let Some(form) = multiple_form(alloc, terms, factor, a)? else {
        return Ok(None);
    };
    let sum = sum_of(alloc, terms, form.constant(), form.pairs())?;
    Ok(Some(sum))
}

/// An equality, of which the earliest term has a positive coefficient on the left.
fn equation(
    alloc: Global,
    terms: &mut Terms,
    a: TermId,
    b: TermId,
) -> Result<Option<TermId>, AllocError>
    requires left { a < length terms.old }
    requires right { b < length terms.old }
    requires left_integer { type_at terms.old a ≡ Integer }
    requires right_integer { type_at terms.old b ≡ Integer }
    ensures rebuilt { IfOk result (λ o. IfSome o (λ r. Rebuilds terms.new r terms.old Equal (a ∷ b ∷ []))) }
    ensures grown { Grows terms.old terms.new }
    ensures well { WellTyped terms.new }
{
    let _count = terms.len();
    let Some(form) = difference_form(alloc, terms, a, b)? else {
        return Ok(None);
    };
    if begins_negative(form.pairs()) {
        turned(alloc, terms, a, b)
    } else {
        compared(alloc, terms, &Op::Eq, a, b)
    }
}

/// Whether the first coefficient is negative.
fn begins_negative(pairs: &[(u32, i128)]) -> bool {
    match pairs {
        [(_, factor), ..] => *factor < 0,
        [] => false,
    }
}

/// An equality of two terms, over the second less the first.
fn turned(
    alloc: Global,
    terms: &mut Terms,
    a: TermId,
    b: TermId,
) -> Result<Option<TermId>, AllocError>
    requires left { a < length terms.old }
    requires right { b < length terms.old }
    requires left_integer { type_at terms.old a ≡ Integer }
    requires right_integer { type_at terms.old b ≡ Integer }
    ensures rebuilt { IfOk result (λ o. IfSome o (λ r. Rebuilds terms.new r terms.old Equal (a ∷ b ∷ []))) }
    ensures grown { Grows terms.old terms.new }
    ensures well { WellTyped terms.new }
{
    let _count = terms.len();
    compared(alloc, terms, &Op::Eq, b, a)
}

/// A comparison of two sums that have no term in common: what the one is less the other, with what is negative on the other side.
fn compared(
    alloc: Global,
    terms: &mut Terms,
    op: &Op,
    a: TermId,
    b: TermId,
) -> Result<Option<TermId>, AllocError>
    requires left { a < length terms.old }
    requires right { b < length terms.old }
    requires left_integer { type_at terms.old a ≡ Integer }
    requires right_integer { type_at terms.old b ≡ Integer }
    requires compares { compares op.now ≡ true }
    ensures rebuilt { IfOk result (λ o. IfSome o (λ r. Rebuilds terms.new r terms.old op.now (a ∷ b ∷ []))) }
    ensures grown { Grows terms.old terms.new }
    ensures well { WellTyped terms.new }
{
    let _count = terms.len();
    let Some(form) = difference_form(alloc, terms, a, b)? else {
        return Ok(None);
    };
    let Some(sides) = split(alloc, form.pairs())? else {
        return Ok(None);
    };
    let Some((first, second)) = across(form.constant(), sides.left.is_empty()) else {
        return Ok(None);
    };
    let left = sum_of(alloc, terms, first, &sides.left)?;
    let right = sum_of(alloc, terms, second, &sides.right)?;
    let whole = put_two(alloc, terms, op, left, right)?;
    Ok(Some(whole))
}

/// The operation on two terms, after steps.
fn put_two(
    alloc: Global,
    terms: &mut Terms,
    op: &Op,
    left: TermId,
    right: TermId,
) -> Result<TermId, AllocError>
    requires there { All (λ p. p < length terms.old) (left ∷ right ∷ []) }
    requires suits { Suits op.now (types_at terms.old (left ∷ right ∷ [])) }
    ensures rebuilt { IfOk result (λ r. Rebuilds terms.new r terms.old op.now (left ∷ right ∷ [])) }
    ensures grown { Grows terms.old terms.new }
    ensures well { WellTyped terms.new }
{
    let _count = terms.len();
    let pair = Items::from_slice(alloc, &[left, right])?;
    put(alloc, terms, copy_op(alloc, op)?, pair)
}

/// Pairs of which each coefficient is positive, unless they have been the other way round.
#[derive(Drop)]
struct Sides {
    left: Vec<(u32, i128)>,
    right: Vec<(u32, i128)>,
}

/// The pairs with a positive coefficient, and the others with the opposite one; none where that leaves 128 bits.
fn split(alloc: Global, pairs: &[(u32, i128)]) -> Result<Option<Sides>, AllocError>
    ensures { IfOk result (λ o. IfSome o (λ s. AreSides s.left.items s.right.items pairs.now)) }
{
    let mut left = Vec::new(alloc);
    let mut right = Vec::new(alloc);
    for place in 0..pairs.len() {
        let (variable, factor) = pairs[place];
        if factor > 0 {
            left.push((variable, factor))?;
        } else {
            let Ok(opposite) = difference(0, factor) else {
                return Ok(None);
            };
            right.push((variable, opposite))?;
        }
    }
    Ok(Some(Sides { left, right }))
}

/// The constant on the first side where that has no pairs, else its opposite on the second; none where that leaves 128 bits.
fn across(constant: i128, alone: bool) -> Option<(i128, i128)>
    ensures { IfSome result (λ r. r.0 -ℤ r.1 ≡ constant) }
{
    if alone {
        return Some((constant, 0));
    }
    match difference(0, constant) {
        Ok(opposite) => Some((0, opposite)),
        Err(_) => None,
    }
}

/// The sum of a constant and of multiples.
fn sum_of(
    alloc: Global,
    terms: &mut Terms,
    constant: i128,
    pairs: &[(u32, i128)],
) -> Result<TermId, AllocError>
    requires integers { AreIntegers terms.old pairs.now }
    ensures sum { IfOk result (λ r. IsSumOf terms.new r terms.old constant pairs.now) }
    ensures grown { Grows terms.old terms.new }
    ensures well { WellTyped terms.new }
{
    let parts = addends(alloc, terms, constant, pairs)?;
    put(alloc, terms, Op::Add, Items::from_vec(parts))
}

/// The multiples, and the constant last where it is not 0 or alone.
fn addends(
    alloc: Global,
    terms: &mut Terms,
    constant: i128,
    pairs: &[(u32, i128)],
) -> Result<Vec<TermId>, AllocError>
    requires integers { AreIntegers terms.old pairs.now }
    ensures adding { IfOk result (λ parts. Adding terms.old terms.new parts.items pairs.now (λ m. constant +ℤ sum_at (number_at m terms.old) pairs.now)) }
    ensures some { IfOk result (λ parts. 0 < length parts.items) }
    ensures grown { Grows terms.old terms.new }
    ensures well { WellTyped terms.new }
{
    let mut parts = multiples(alloc, terms, pairs)?;
    if constant == 0 && !parts.is_empty() {
        return Ok(parts);
    }
    let last = number(alloc, terms, constant)?;
    parts.push(last)?;
    Ok(parts)
}

/// The multiples that the pairs give.
fn multiples(
    alloc: Global,
    terms: &mut Terms,
    pairs: &[(u32, i128)],
) -> Result<Vec<TermId>, AllocError>
    requires integers { AreIntegers terms.old pairs.now }
    ensures adding { IfOk result (λ parts. Adding terms.old terms.new parts.items pairs.now (λ m. sum_at (number_at m terms.old) pairs.now)) }
    ensures grown { Grows terms.old terms.new }
    ensures well { WellTyped terms.new }
{
    let _count = terms.len();
    let mut parts: Vec<TermId> = Vec::new(alloc);
    for place in 0..pairs.len() {
        let (variable, factor) = pairs[place];
        let part = times(alloc, terms, factor, TermId::new(variable))?;
        parts.push(part)?;
    }
    Ok(parts)
}

/// A multiple of a term.
fn times(
    alloc: Global,
    terms: &mut Terms,
    factor: i128,
    variable: TermId,
) -> Result<TermId, AllocError>
    requires there { variable < length terms.old }
    requires integer { type_at terms.old variable ≡ Integer }
    ensures times { IfOk result (λ r. IsTimes terms.new r terms.old factor variable) }
    ensures grown { Grows terms.old terms.new }
    ensures well { WellTyped terms.new }
{
    let _count = terms.len();
    let alone = Items::from_slice(alloc, &[variable])?;
    put(alloc, terms, Op::Scale(factor), alone)
}

/// A constant.
fn number(alloc: Global, terms: &mut Terms, number: i128) -> Result<TermId, AllocError>
    ensures number { IfOk result (λ r. IsInteger terms.new r (λ m. number) (λ f. f ≡ integer)) }
    ensures grown { Grows terms.old terms.new }
    ensures well { WellTyped terms.new }
{
    let op = Op::Const(Ty::Int, Value::Int(number));
    put(alloc, terms, op, Items::new(alloc))
}
