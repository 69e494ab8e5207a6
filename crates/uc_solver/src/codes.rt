//! Values read from the values of what stands for them.

ghost use Rattle.std.specs.Prelude.{◌≡◌, drop, IfOk, IsTrue};
ghost use Rattle.uc_values.specs.Values.{fits};
ghost use Rattle.uc_values.specs.Types.{field_types};
ghost use Rattle.uc_ops.specs.Typing.{Valid};
ghost use Rattle.uc_solver.specs.Codes.{Takes, Reads, ReadsAll, IsDecoded, label_read};

use std::alloc::{AllocError, Global};
use uc_items::{Items, at};
use uc_values::{Field, Ty, Value, copy, fits, zero};

/// The value of a type that stands as these values; where there is none, one that fits the type.
pub(crate) fn decoded(alloc: Global, ty: &Ty, codes: &[Value]) -> Result<Value, AllocError>
    requires { Valid ty.now }
    ensures fits { IfOk result (λ v. IsTrue (fits ty.now v)) }
    ensures decoded { IfOk result (IsDecoded ty.now codes.now) }
{
    let mut next = 0;
    let value = read(alloc, ty, codes, &mut next)?;
    if fits(ty, &value) {
        return Ok(value);
    }
    let other = zero(alloc, ty)?;
    Ok(other)
}

/// Reads the value of a type from the next values.
#[cycle(read)]
fn read(alloc: Global, ty: &Ty, codes: &[Value], next: &mut usize) -> Result<Value, AllocError>
    ensures { IfOk result (λ v. Reads ty.now (drop next.old codes.now) v (drop next.new codes.now)) }
{
    match ty {
        Ty::Bool | Ty::Bv(_) => taken(alloc, codes, next),
        Ty::Enum(number, labels) => {
            let code = taken(alloc, codes, next)?;
            Ok(label(*number, *labels, &code))
        }
        Ty::Rec(fields) => {
            let parts = read_fields(alloc, fields.as_slice(), codes, next)?;
            Ok(Value::Rec(Items::from_vec(parts)))
        }
        Ty::Int | Ty::Un(_) | Ty::Arr(_, _) => Ok(Value::Bool(false)),
    }
}

/// Reads the values of the fields of a record.
#[cycle(read)]
fn read_fields(
    alloc: Global,
    fields: &[Field<Ty>],
    codes: &[Value],
    next: &mut usize,
) -> Result<Vec<Value>, AllocError>
    ensures { IfOk result (λ vs. ReadsAll (field_types fields.now) (drop next.old codes.now) vs.items (drop next.new codes.now)) }
{
    let mut parts = Vec::new(alloc);
    for field in fields {
        parts.push(read(alloc, &field.ty, codes, next)?)?;
    }
    Ok(parts)
}

/// Takes the next value.
fn taken(alloc: Global, codes: &[Value], next: &mut usize) -> Result<Value, AllocError>
    ensures { IfOk result (λ v. Takes (drop next.old codes.now) v (drop next.new codes.now)) }
{
    match at(codes, *next) {
        Some(value) => {
            let value = copy(alloc, value)?;
            *next += 1;
            Ok(value)
        }
        None => Ok(Value::Bool(false)),
    }
}

/// The label whose place is told by the bits; the first one where no label has that place.
fn label(number: u32, labels: u32, code: &Value) -> Value
    ensures { result ≡ label_read number labels code.now }
{
    match code {
        Value::Bv(_, place) if *place < u64::from(labels) => Value::Enum(number, *place as u32),
        _ => Value::Enum(number, 0),
    }
}
