//! Rules for sums and multiples of integers.

ghost use Rattle.std.specs.Prelude.{◌≡◌, ℤ, ◌<◌, true, pos, [], ◌∷◌, length, IfOk, IfSome};
ghost use Rattle.uc_values.specs.declared.ty.Ty.TheVariants.{Int as Integer};
ghost use Rattle.uc_values.specs.declared.value.Value.TheVariants.{Int};
ghost use Rattle.uc_ops.specs.declared.op.Op.TheVariants.{Const, Add, Scale};
ghost use Rattle.uc_ops.specs.Typing.{Suits, type_at};
ghost use Rattle.uc_simplify_steps.specs.Steps.{IsRight};
ghost use Rattle.uc_simplify_steps.specs.Sums.{IsNumber, AreOpposite};
ghost use Rattle.uc_simplify_steps.specs.declared.step.Step.TheVariants.{Other};

use crate::opened::multiple;
use crate::step::{Step, constant};
use std::alloc::{AllocError, Global};
use uc_items::Items;
use uc_linear::{product, sum};
use uc_terms::{Op, TermId, Terms};
use uc_values::{Ty, Value};

/// A multiple by 0 or 1, or of a multiple where the product of the factors has 128 bits.
pub(crate) fn scaled(
    alloc: Global,
    terms: &Terms,
    factor: i128,
    a: TermId,
) -> Result<Option<Step>, AllocError>
    requires there { a < length terms.now }
    requires suits { Suits (Scale factor) (type_at terms.now a ∷ []) }
    ensures { IfOk result (λ o. IfSome o (IsRight terms.now (Scale factor) (a ∷ []))) }
{
    let _count = terms.len();
    if factor == 1 {
        return Ok(Some(Step::Known(a)));
    }
    if factor == 0 {
        return Ok(Some(integer(alloc, 0)));
    }
    let Some((inner, part)) = multiple(terms, a) else {
        return Ok(None);
    };
    let Ok(whole) = product(factor, inner) else {
        return Ok(None);
    };
    let parts = Items::from_slice(alloc, &[part])?;
    Ok(Some(Step::Other(Op::Scale(whole), parts)))
}

/// A sum of one term.
pub(crate) fn sum_of_one(terms: &Terms, a: TermId) -> Step
    requires there { a < length terms.now }
    requires suits { Suits Add (type_at terms.now a ∷ []) }
    ensures { IsRight terms.now Add (a ∷ []) result }
{
    let _count = terms.len();
    Step::Known(a)
}

/// A sum of a term with 0 or with what is opposite to it, or of two constants where it has 128 bits.
pub(crate) fn sum_of_two(alloc: Global, terms: &Terms, a: TermId, b: TermId) -> Option<Step>
    requires left { a < length terms.now }
    requires right { b < length terms.now }
    requires suits { Suits Add (type_at terms.now a ∷ type_at terms.now b ∷ []) }
    ensures { IfSome result (IsRight terms.now Add (a ∷ b ∷ [])) }
{
    let _count = terms.len();
    if are_opposite(terms, a, b) {
        return Some(integer(alloc, 0));
    }
    if are_opposite(terms, b, a) {
        return Some(integer(alloc, 0));
    }
    if let Some(0) = number(terms, b) {
        return Some(Step::Known(a));
    }
    if let Some(0) = number(terms, a) {
        return Some(Step::Known(b));
    }
    sum_of_numbers(alloc, terms, a, b)
}

/// A sum of two constants, where it has 128 bits.
fn sum_of_numbers(alloc: Global, terms: &Terms, a: TermId, b: TermId) -> Option<Step>
    requires left { a < length terms.now }
    requires right { b < length terms.now }
    ensures { IfSome result (IsRight terms.now Add (a ∷ b ∷ [])) }
{
    let left = number(terms, a)?;
    let right = number(terms, b)?;
    match sum(left, right) {
        Ok(total) => Some(integer(alloc, total)),
        Err(_) => None,
    }
}

/// An integer.
fn integer(alloc: Global, number: i128) -> Step
    ensures { result ≡ Other (Const Integer (Int number)) [] }
{
    Step::Other(Op::Const(Ty::Int, Value::Int(number)), Items::new(alloc))
}

/// The number of a constant.
fn number(terms: &Terms, t: TermId) -> Option<i128>
    requires { t < length terms.now }
    ensures { IfSome result (IsNumber terms.now t) }
{
    match constant(terms, t) {
        Some(Value::Int(number)) => Some(*number),
        _ => None,
    }
}

/// Whether the second term is the first times -1.
fn are_opposite(terms: &Terms, a: TermId, b: TermId) -> bool
    requires { b < length terms.now }
    ensures { result ≡ true → AreOpposite terms.now a b }
{
    let Some((factor, part)) = multiple(terms, b) else {
        return false;
    };
    part == a && factor == -1
}
