//! The linear forms of sums, of multiples and of differences.

ghost use Rattle.std.specs.Prelude.{◌≡◌, ◌<◌, ◌-ℤ◌, ◌*ℤ◌, [], ◌∷◌, length, IfOk, IfSome, All};
ghost use Rattle.uc_values.specs.declared.ty.Ty.TheVariants.{Int as Integer};
ghost use Rattle.uc_ops.specs.Typing.{type_at};
ghost use Rattle.uc_simplify.specs.Forms.{IsForm, IsFormOf, IsSingle, number_at, numbers_at};

use crate::opening::{addends, constant_of, multiple};
use std::alloc::{AllocError, Global};
use uc_linear::{Form, LinearError, add, combine, product, scale};
use uc_terms::{TermId, Terms};

/// The form of a sum of terms; none where a number leaves 128 bits.
pub fn sum_form(alloc: Global, terms: &Terms, parts: &[TermId]) -> Result<Option<Form>, AllocError>
    requires there { All (λ p. p < length terms.now) parts.now }
    requires integers { All (λ p. type_at terms.now p ≡ Integer) parts.now }
    ensures { IfOk result (λ o. IfSome o (λ f. IsFormOf terms.now parts.now f (λ m. numbers_at m terms.now parts.now))) }
{
    match whole_form(alloc, terms, parts) {
        Ok(form) => {
            let _pairs = form.pairs();
            Ok(Some(form))
        }
        Err(LinearError::Wide(_)) => Ok(None),
        Err(LinearError::NoMemory) => Err(AllocError),
    }
}

/// The form of a multiple of a term; none where a number leaves 128 bits.
pub fn multiple_form(
    alloc: Global,
    terms: &Terms,
    factor: i128,
    a: TermId,
) -> Result<Option<Form>, AllocError>
    requires there { a < length terms.now }
    requires integer { type_at terms.now a ≡ Integer }
    ensures { IfOk result (λ o. IfSome o (λ f. IsFormOf terms.now (a ∷ []) f (λ m. number_at m terms.now a *ℤ factor))) }
{
    match times_form(alloc, terms, factor, a) {
        Ok(form) => {
            let _pairs = form.pairs();
            Ok(Some(form))
        }
        Err(LinearError::Wide(_)) => Ok(None),
        Err(LinearError::NoMemory) => Err(AllocError),
    }
}

/// The form of a term less another; none where a number leaves 128 bits.
pub fn difference_form(
    alloc: Global,
    terms: &Terms,
    a: TermId,
    b: TermId,
) -> Result<Option<Form>, AllocError>
    requires left { a < length terms.now }
    requires right { b < length terms.now }
    requires left_integer { type_at terms.now a ≡ Integer }
    requires right_integer { type_at terms.now b ≡ Integer }
    ensures { IfOk result (λ o. IfSome o (λ f. IsFormOf terms.now (a ∷ b ∷ []) f (λ m. number_at m terms.now a -ℤ number_at m terms.now b))) }
{
    match less_form(alloc, terms, a, b) {
        Ok(form) => {
            let _pairs = form.pairs();
            Ok(Some(form))
        }
        Err(LinearError::Wide(_)) => Ok(None),
        Err(LinearError::NoMemory) => Err(AllocError),
    }
}

/// The form of a sum: that of its first half and that of the others, added.
fn whole_form(alloc: Global, terms: &Terms, parts: &[TermId]) -> Result<Form, LinearError>
    requires there { All (λ p. p < length terms.now) parts.now }
    requires integers { All (λ p. type_at terms.now p ≡ Integer) parts.now }
    ensures { IfOk result (λ f. IsForm terms.now parts.now f (λ m. numbers_at m terms.now parts.now)) }
{
    match parts {
        [] => Ok(Form::number(alloc, 0)),
        [part] => part_form(alloc, terms, *part),
        _ => {
            let (front, back) = parts.split_at(parts.len() / 2);
            let first = whole_form(alloc, terms, front)?;
            let others = whole_form(alloc, terms, back)?;
            let form = add(alloc, &first, &others)?;
            Ok(form)
        }
    }
}

/// The form of a multiple of a term.
fn times_form(alloc: Global, terms: &Terms, factor: i128, a: TermId) -> Result<Form, LinearError>
    requires there { a < length terms.now }
    requires integer { type_at terms.now a ≡ Integer }
    ensures { IfOk result (λ f. IsForm terms.now (a ∷ []) f (λ m. number_at m terms.now a *ℤ factor)) }
{
    let part = part_form(alloc, terms, a)?;
    let form = scale(alloc, &part, factor)?;
    Ok(form)
}

/// The form of a term less another.
fn less_form(alloc: Global, terms: &Terms, a: TermId, b: TermId) -> Result<Form, LinearError>
    requires left { a < length terms.now }
    requires right { b < length terms.now }
    requires left_integer { type_at terms.now a ≡ Integer }
    requires right_integer { type_at terms.now b ≡ Integer }
    ensures { IfOk result (λ f. IsForm terms.now (a ∷ b ∷ []) f (λ m. number_at m terms.now a -ℤ number_at m terms.now b)) }
{
    let left = part_form(alloc, terms, a)?;
    let right = part_form(alloc, terms, b)?;
    let form = combine(alloc, 1, &left, -1, &right)?;
    Ok(form)
}

/// The form of a term, which may be a multiple of a sum.
fn part_form(alloc: Global, terms: &Terms, t: TermId) -> Result<Form, LinearError>
    requires there { t < length terms.now }
    requires integer { type_at terms.now t ≡ Integer }
    ensures { IfOk result (λ f. IsForm terms.now (t ∷ []) f (λ m. number_at m terms.now t)) }
{
    let (factor, base) = multiple(terms, t);
    match addends(terms, base) {
        Some(own) => {
            let sum = few_form(alloc, terms, own)?;
            let form = scale(alloc, &sum, factor)?;
            Ok(form)
        }
        None => leaf_form(alloc, terms, t),
    }
}

/// The form of a sum whose parts are not opened further.
fn few_form(alloc: Global, terms: &Terms, parts: &[TermId]) -> Result<Form, LinearError>
    requires there { All (λ p. p < length terms.now) parts.now }
    requires integers { All (λ p. type_at terms.now p ≡ Integer) parts.now }
    ensures { IfOk result (λ f. IsForm terms.now parts.now f (λ m. numbers_at m terms.now parts.now)) }
{
    let mut form = Form::number(alloc, 0);
    for part in parts {
        let next = leaf_form(alloc, terms, *part)?;
        form = add(alloc, &form, &next)?;
    }
    Ok(form)
}

/// The form of a term that is not opened, or of a multiple of one.
fn leaf_form(alloc: Global, terms: &Terms, t: TermId) -> Result<Form, LinearError>
    requires there { t < length terms.now }
    requires integer { type_at terms.now t ≡ Integer }
    ensures { IfOk result (λ f. IsForm terms.now (t ∷ []) f (λ m. number_at m terms.now t)) }
{
    let (factor, base) = multiple(terms, t);
    match constant_of(terms, base) {
        Some(constant) => {
            let whole = product(factor, constant)?;
            Ok(Form::number(alloc, whole))
        }
        None => {
            let form = single_form(alloc, factor, base)?;
            Ok(form)
        }
    }
}

/// A multiple of a variable.
fn single_form(alloc: Global, factor: i128, variable: TermId) -> Result<Form, LinearError>
    ensures { IfOk result (IsSingle factor variable) }
{
    let mut pairs = Vec::new(alloc);
    if factor != 0 {
        pairs.push((variable.number(), factor))?;
    }
    match Form::of(0, pairs) {
        Some(form) => Ok(form),
        None => Ok(Form::number(alloc, 0)),
    }
}
