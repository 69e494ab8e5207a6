//! Which values fit a type, and the value that counts as 0.

ghost use Rattle.std.specs.Prelude.{◌≡◌, ◌^◌, nat_lt, IfOk, map};
ghost use Rattle.std.specs.List.{list_all};
ghost use Rattle.uc_values.specs.Values.{fits, fit_parts, tests, zero_of, lists, distinct, indices};

use crate::array::same_scalar;
use crate::ty::{Field, Ty};
use crate::value::Value;
use std::alloc::{AllocError, Global};
use uc_items::{Boxed, Items};

/// The value of a type that counts as 0, part by part.
#[cycle(zero)]
pub fn zero(alloc: Global, ty: &Ty) -> Result<Value, AllocError>
    ensures { IfOk result (λ v. v ≡ zero_of ty.now) }
{
    match ty {
        Ty::Bool => Ok(Value::Bool(false)),
        Ty::Int => Ok(Value::Int(0)),
        Ty::Bv(width) => Ok(Value::Bv(*width, 0)),
        Ty::Enum(number, _) => Ok(Value::Enum(*number, 0)),
        Ty::Un(number) => Ok(Value::Un(*number, 0)),
        Ty::Rec(fields) => {
            let parts = zeros(alloc, fields.as_slice())?;
            Ok(Value::Rec(Items::from_vec(parts)))
        }
        Ty::Arr(_, element) => {
            let element = zero(alloc, element.get())?;
            let default = Boxed::new(alloc, element)?;
            Ok(Value::Arr(default, Items::new(alloc)))
        }
    }
}

#[cycle(zero)]
fn zeros(alloc: Global, fields: &[Field<Ty>]) -> Result<Vec<Value>, AllocError>
    ensures { IfOk result (λ vs. vs.items ≡ map (λ f. zero_of f.ty) fields.now) }
{
    let mut parts = Vec::new(alloc);
    for field in fields {
        parts.push(zero(alloc, &field.ty)?)?;
    }
    Ok(parts)
}

/// Whether a value fits a type.
#[cycle(fits)]
pub fn fits(ty: &Ty, value: &Value) -> bool
    ensures { result ≡ fits ty.now value.now }
{
    match ty {
        Ty::Bool => {
            let Value::Bool(_) = value else {
                return false;
            };
            true
        }
        Ty::Int => {
            let Value::Int(_) = value else {
                return false;
            };
            true
        }
        Ty::Bv(width) => {
            let Value::Bv(own, bits) = value else {
                return false;
            };
            width == own && within(*width, *bits)
        }
        Ty::Enum(number, labels) => {
            let Value::Enum(own, label) = value else {
                return false;
            };
            number == own && label < labels
        }
        Ty::Un(number) => {
            let Value::Un(own, _) = value else {
                return false;
            };
            number == own
        }
        Ty::Rec(fields) => {
            let Value::Rec(parts) = value else {
                return false;
            };
            fit_parts(fields.as_slice(), parts.as_slice())
        }
        Ty::Arr(index, element) => {
            let Value::Arr(default, rows) = value else {
                return false;
            };
            if !fits(element.get(), default.get()) {
                return false;
            }
            if !fit_indices(index.get(), rows.as_slice()) {
                return false;
            }
            if !fit_elements(element.get(), rows.as_slice()) {
                return false;
            }
            distinct(rows.as_slice())
        }
    }
}

/// Whether the bits are below the power of 2 of the width.
fn within(width: u8, bits: u64) -> bool
    ensures { result ≡ nat_lt bits (2 ^ width) }
{
    width >= 64 || bits >> width == 0
}

#[cycle(fits)]
fn fit_parts(fields: &[Field<Ty>], parts: &[Value]) -> bool
    ensures { result ≡ fit_parts (tests fields.now) parts.now }
{
    if fields.len() != parts.len() {
        return false;
    }
    for place in 0..fields.len() {
        if !fits(&fields[place].ty, &parts[place]) {
            return false;
        }
    }
    true
}

#[cycle(fits)]
fn fit_indices(index: &Ty, rows: &[(Value, Value)]) -> bool
    ensures { result ≡ list_all (λ row. fits index.now row.0) rows.now }
{
    for (at, _) in rows {
        if !fits(index, at) {
            return false;
        }
    }
    true
}

#[cycle(fits)]
fn fit_elements(element: &Ty, rows: &[(Value, Value)]) -> bool
    ensures { result ≡ list_all (λ row. fits element.now row.1) rows.now }
{
    for (_, value) in rows {
        if !fits(element, value) {
            return false;
        }
    }
    true
}

/// Whether no index is listed twice.
fn distinct(rows: &[(Value, Value)]) -> bool
    ensures { result ≡ distinct (indices rows.now) }
{
    for place in 0..rows.len() {
        if lists(&rows[place + 1..], &rows[place].0) {
            return false;
        }
    }
    true
}

/// Whether an index is listed.
pub(crate) fn lists(rows: &[(Value, Value)], index: &Value) -> bool
    ensures { result ≡ lists (indices rows.now) index.now }
{
    for (place, _) in rows {
        if same_scalar(place, index) {
            return true;
        }
    }
    false
}
