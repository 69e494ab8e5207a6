//! Copies that equal what they copy.

ghost use Rattle.std.specs.Prelude.{◌≡◌, IfOk};

use crate::ty::{Field, Ty};
use crate::value::Value;
use std::alloc::{AllocError, Global};
use uc_items::{Boxed, Items};

/// The same type again.
#[cycle(copy_ty)]
pub fn copy_ty(alloc: Global, ty: &Ty) -> Result<Ty, AllocError>
    ensures { IfOk result (λ t. t ≡ ty.now) }
{
    match ty {
        Ty::Bool => Ok(Ty::Bool),
        Ty::Int => Ok(Ty::Int),
        Ty::Bv(width) => Ok(Ty::Bv(*width)),
        Ty::Enum(number, labels) => Ok(Ty::Enum(*number, *labels)),
        Ty::Un(number) => Ok(Ty::Un(*number)),
        Ty::Rec(fields) => {
            let fields = copy_fields(alloc, fields.as_slice())?;
            Ok(Ty::Rec(Items::from_vec(fields)))
        }
        Ty::Arr(index, element) => {
            let index = copy_ty(alloc, index.get())?;
            let index = Boxed::new(alloc, index)?;
            let element = copy_ty(alloc, element.get())?;
            let element = Boxed::new(alloc, element)?;
            Ok(Ty::Arr(index, element))
        }
    }
}

#[cycle(copy_ty)]
fn copy_fields(alloc: Global, fields: &[Field<Ty>]) -> Result<Vec<Field<Ty>>, AllocError>
    ensures { IfOk result (λ fs. fs.items ≡ fields.now) }
{
    let mut copies = Vec::new(alloc);
    for field in fields {
        let ty = copy_ty(alloc, &field.ty)?;
        copies.push(Field {
            name: field.name,
            ty,
        })?;
    }
    Ok(copies)
}

/// The same value again.
#[cycle(copy)]
pub fn copy(alloc: Global, value: &Value) -> Result<Value, AllocError>
    ensures { IfOk result (λ v. v ≡ value.now) }
{
    match value {
        Value::Bool(truth) => Ok(Value::Bool(*truth)),
        Value::Int(number) => Ok(Value::Int(*number)),
        Value::Bv(width, bits) => Ok(Value::Bv(*width, *bits)),
        Value::Enum(number, label) => Ok(Value::Enum(*number, *label)),
        Value::Un(number, place) => Ok(Value::Un(*number, *place)),
        Value::Rec(parts) => {
            let parts = copy_all(alloc, parts.as_slice())?;
            Ok(Value::Rec(parts))
        }
        Value::Arr(default, exceptions) => {
            let default = copy(alloc, default.get())?;
            let default = Boxed::new(alloc, default)?;
            let exceptions = copy_exceptions(alloc, exceptions.as_slice())?;
            Ok(Value::Arr(default, Items::from_vec(exceptions)))
        }
    }
}

/// The same values again.
#[cycle(copy)]
pub fn copy_all(alloc: Global, values: &[Value]) -> Result<Items<Value>, AllocError>
    ensures { IfOk result (λ vs. vs ≡ values.now) }
{
    let mut copies = Items::new(alloc);
    for value in values {
        copies.push(copy(alloc, value)?)?;
    }
    Ok(copies)
}

#[cycle(copy)]
fn copy_exceptions(
    alloc: Global,
    exceptions: &[(Value, Value)],
) -> Result<Vec<(Value, Value)>, AllocError>
    ensures { IfOk result (λ es. es.items ≡ exceptions.now) }
{
    let mut copies = Vec::new(alloc);
    for (index, element) in exceptions {
        let index = copy(alloc, index)?;
        let element = copy(alloc, element)?;
        copies.push((index, element))?;
    }
    Ok(copies)
}
