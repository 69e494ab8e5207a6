//! Which types are scalars, and what an array may hold.

ghost use Rattle.std.specs.Prelude.{◌≡◌, IfOk};
ghost use Rattle.std.specs.List.{list_all};
ghost use Rattle.uc_rules.specs.Types.{array_outcome};
ghost use Rattle.uc_values.specs.Types.{is_flat, is_scalar};

use std::alloc::{AllocError, Global};
use uc_items::Boxed;
use uc_rules::{Outcome, Rule};
use uc_values::{Field, Ty};

/// Whether a type is a scalar: a boolean, an integer, a bit-vector, an enum or a type without a definition.
pub fn is_scalar(ty: &Ty) -> bool
    ensures { result ≡ is_scalar ty.now }
{
    match ty {
        Ty::Rec(_) => false,
        Ty::Arr(_, _) => false,
        _ => true,
    }
}

fn are_scalar(fields: &[Field<Ty>]) -> bool
    ensures { result ≡ list_all (λ f. is_scalar f.ty) fields.now }
{
    for field in fields {
        if !is_scalar(&field.ty) {
            return false;
        }
    }
    true
}

/// Whether a type is a scalar or a record of scalars.
fn is_flat(ty: &Ty) -> bool
    ensures { result ≡ is_flat ty.now }
{
    match ty {
        Ty::Rec(fields) => are_scalar(fields.as_slice()),
        Ty::Arr(_, _) => false,
        _ => true,
    }
}

/// An array, by the types of its index and of its elements.
pub(crate) fn array_outcome(
    alloc: Global,
    index: Option<Ty>,
    element: Option<Ty>,
) -> Result<Outcome, AllocError>
    ensures { IfOk result (λ o. o ≡ array_outcome index element) }
{
    match index {
        None => Ok(Outcome::Unjudged),
        Some(index) => match element {
            None => Ok(Outcome::Unjudged),
            Some(element) => array_of(alloc, index, element),
        },
    }
}

fn array_of(alloc: Global, index: Ty, element: Ty) -> Result<Outcome, AllocError>
    ensures { IfOk result (λ o. o ≡ array_outcome (Some index) (Some element)) }
{
    if is_scalar(&index) && is_flat(&element) {
        let index = Boxed::new(alloc, index)?;
        let element = Boxed::new(alloc, element)?;
        Ok(Outcome::Has(Ty::Arr(index, element)))
    } else {
        Ok(Outcome::Breaks(Rule::ArrayShape))
    }
}
