//! Selections: fields, elements, arrays with a new element, and bits.

ghost use Rattle.std.specs.Prelude.{◌≡◌, nat_eq, IfOk};
ghost use Rattle.std.specs.List.{find};
ghost use Rattle.uc_values.specs.declared.ty.Ty.TheViews.{out-Ty};
ghost use Rattle.uc_rules.specs.Rows.{element_on, element_outcome, extract_on, extract_outcome, field_on, field_outcome, field_there, update_on, update_outcome};

use crate::outcome::Outcome;
use crate::rule::Rule;
use crate::same::same_type;
use std::alloc::{AllocError, Global};
use uc_values::{Field, Ty, copy_ty};

fn field_outcome(alloc: Global, t: &Ty, name: u32) -> Result<Outcome, AllocError>
    ensures { IfOk result (λ o. o ≡ field_outcome name (out-Ty t.now)) }
{
    let Ty::Rec(fields) = t else {
        return Ok(Outcome::Breaks(Rule::UnknownName));
    };
    field_there(alloc, fields.as_slice(), name)
}

fn field_there(alloc: Global, fields: &[Field<Ty>], name: u32) -> Result<Outcome, AllocError>
    ensures { IfOk result (λ o. o ≡ field_there (find (λ d. nat_eq name d.name) fields.now)) }
{
    for field in fields {
        if name == field.name {
            let ty = copy_ty(alloc, &field.ty)?;
            return Ok(Outcome::Has(ty));
        }
    }
    Ok(Outcome::Breaks(Rule::UnknownName))
}

/// A field of a record.
pub fn field_on(alloc: Global, t: &Option<Ty>, name: u32) -> Result<Outcome, AllocError>
    ensures { IfOk result (λ o. o ≡ field_on t.now name) }
{
    match t {
        Some(t) => {
            let outcome = field_outcome(alloc, t, name)?;
            Ok(outcome)
        }
        None => Ok(Outcome::Unjudged),
    }
}

fn element_outcome(alloc: Global, t: &Ty, i: &Ty) -> Result<Outcome, AllocError>
    ensures { IfOk result (λ o. o ≡ element_outcome (out-Ty t.now) i.now) }
{
    let Ty::Arr(index, element) = t else {
        return Ok(Outcome::Breaks(Rule::WrongType));
    };
    if !same_type(i, index.get()) {
        return Ok(Outcome::Breaks(Rule::WrongType));
    }
    let ty = copy_ty(alloc, element.get())?;
    Ok(Outcome::Has(ty))
}

/// The element of an array at an index.
pub fn element_on(alloc: Global, t: &Option<Ty>, i: &Option<Ty>) -> Result<Outcome, AllocError>
    ensures { IfOk result (λ o. o ≡ element_on t.now i.now) }
{
    match t {
        Some(t) => match i {
            Some(i) => {
                let outcome = element_outcome(alloc, t, i)?;
                Ok(outcome)
            }
            None => Ok(Outcome::Unjudged),
        },
        None => Ok(Outcome::Unjudged),
    }
}

fn update_outcome(alloc: Global, t: &Ty, i: &Ty, v: &Ty) -> Result<Outcome, AllocError>
    ensures { IfOk result (λ o. o ≡ update_outcome t.now (out-Ty t.now) i.now v.now) }
{
    let Ty::Arr(index, element) = t else {
        return Ok(Outcome::Breaks(Rule::WrongType));
    };
    if !same_type(i, index.get()) {
        return Ok(Outcome::Breaks(Rule::WrongType));
    }
    if !same_type(v, element.get()) {
        return Ok(Outcome::Breaks(Rule::WrongType));
    }
    let ty = copy_ty(alloc, t)?;
    Ok(Outcome::Has(ty))
}

/// An array with a new element.
pub fn update_on(
    alloc: Global,
    t: &Option<Ty>,
    i: &Option<Ty>,
    v: &Option<Ty>,
) -> Result<Outcome, AllocError>
    ensures { IfOk result (λ o. o ≡ update_on t.now i.now v.now) }
{
    match t {
        Some(t) => match i {
            Some(i) => match v {
                Some(v) => {
                    let outcome = update_outcome(alloc, t, i, v)?;
                    Ok(outcome)
                }
                None => Ok(Outcome::Unjudged),
            },
            None => Ok(Outcome::Unjudged),
        },
        None => Ok(Outcome::Unjudged),
    }
}

fn extract_outcome(t: &Ty, hi: u128, lo: u128) -> Outcome
    ensures { result ≡ extract_outcome hi lo t.now }
{
    match t {
        Ty::Bv(w) => {
            if hi < *w as u128 && lo <= hi {
                Outcome::Has(Ty::Bv((hi - lo + 1) as u8))
            } else {
                Outcome::Breaks(Rule::BadWidth)
            }
        }
        _ => Outcome::Breaks(Rule::WrongType),
    }
}

/// The bits from `hi` down to `lo`.
pub fn extract_on(t: &Option<Ty>, hi: u128, lo: u128) -> Outcome
    ensures { result ≡ extract_on t.now hi lo }
{
    match t {
        Some(t) => extract_outcome(t, hi, lo),
        None => Outcome::Unjudged,
    }
}
