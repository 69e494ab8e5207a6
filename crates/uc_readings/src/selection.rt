//! What is selected of what stands before it: a field of a record, an element of an array, an array with an element changed, bits.

ghost use Rattle.std.specs.Prelude.{◌≡◌, ◌+◌, ◌-◌, map, nat_eq, unwrap_or, slice_index_or, false, IfOk};
ghost use Rattle.std.specs.List.{position_from};
ghost use Rattle.uc_values.specs.declared.ty.Ty.TheVariants.{Bool as boolean_type, Bv as bits_type};
ghost use Rattle.uc_values.specs.declared.value.Value.TheVariants.{Bool as truth};
ghost use Rattle.uc_values.specs.Values.{parts_of};
ghost use Rattle.uc_values.specs.Arrays.{at, store};
ghost use Rattle.uc_meaning.specs.Operators.{extracted};
ghost use Rattle.uc_meaning.specs.Expressions.{reads, fields_of, field_number, field_reading, element_type};
ghost use Rattle.uc_readings.specs.Readings.{reading_of};

use crate::said::Said;
use std::alloc::{AllocError, Global};
use uc_items::at;
use uc_values::{Field, Ty, Value, copy, copy_ty, lookup, store};

/// The field of a name.
pub fn field(alloc: Global, whole: &Said, name: u32) -> Result<Said, AllocError>
    ensures { IfOk result (λ r. reading_of r ≡ field_reading (reading_of whole.now) name) }
{
    let fields = fields_of(&whole.ty);
    let place = field_number(fields, name);
    let ty = field_type(alloc, fields, place)?;
    let value = part(alloc, parts_of(&whole.value), place)?;
    Ok(Said { ty, value })
}

fn fields_of(ty: &Ty) -> &[Field<Ty>]
    ensures { result.now ≡ fields_of ty.now }
{
    match ty {
        Ty::Rec(fields) => fields.as_slice(),
        _ => &[],
    }
}

fn parts_of(value: &Value) -> &[Value]
    ensures { result.now ≡ parts_of value.now }
{
    match value {
        Value::Rec(parts) => parts.as_slice(),
        _ => &[],
    }
}

/// The place of the field of a name, and 0 where there is none.
fn field_number(fields: &[Field<Ty>], name: u32) -> usize
    ensures { result ≡ field_number fields.now name }
{
    for (place, field) in fields.iter().enumerate() {
        if field.name == name {
            return place;
        }
    }
    0
}

#[tactic(auto, using(crate::proofs::Picked::picked_some, crate::proofs::Picked::picked_none))]
fn field_type(alloc: Global, fields: &[Field<Ty>], place: usize) -> Result<Ty, AllocError>
    ensures { IfOk result (λ t. t ≡ slice_index_or (map (λ d. d.ty) fields.now) place boolean_type) }
{
    match at(fields, place) {
        Some(field) => copy_ty(alloc, &field.ty),
        None => Ok(Ty::Bool),
    }
}

#[tactic(auto, using(crate::proofs::Picked::stands_some, crate::proofs::Picked::stands_none))]
fn part(alloc: Global, parts: &[Value], place: usize) -> Result<Value, AllocError>
    ensures { IfOk result (λ v. v ≡ slice_index_or parts.now place (truth false)) }
{
    match at(parts, place) {
        Some(part) => copy(alloc, part),
        None => Ok(Value::Bool(false)),
    }
}

/// The element of an array at an index.
pub fn element(alloc: Global, array: &Said, index: &Value) -> Result<Said, AllocError>
    ensures { IfOk result (λ r. reading_of r ≡ reads (element_type array.now.ty) (at array.now.value index.now)) }
{
    let ty = element_type(alloc, &array.ty)?;
    let value = copy(alloc, lookup(&array.value, index))?;
    Ok(Said { ty, value })
}

fn element_type(alloc: Global, ty: &Ty) -> Result<Ty, AllocError>
    ensures { IfOk result (λ t. t ≡ element_type ty.now) }
{
    match ty {
        Ty::Arr(_, element) => copy_ty(alloc, element.get()),
        _ => Ok(Ty::Bool),
    }
}

/// An array with the element at an index changed.
pub fn updated(alloc: Global, array: Said, index: &Value, new: &Value) -> Result<Said, AllocError>
    ensures { IfOk result (λ r. reading_of r ≡ reads array.ty (store array.value index.now new.now)) }
{
    let Said { ty, value } = array;
    let value = store(alloc, &value, index, new)?;
    Ok(Said { ty, value })
}

/// The bits from high down to low, both included. More than 64 bits are want of memory.
pub fn extracted(of: &Said, high: u128, low: u128) -> Result<Said, AllocError>
    ensures { IfOk result (λ r. reading_of r ≡ reads (bits_type (high - low + 1)) (extracted high low of.now.value)) }
{
    let more = high.saturating_sub(low);
    if more >= 64 {
        return Err(AllocError);
    }
    let value = uc_operators::extracted(high, low, &of.value);
    Ok(Said {
        ty: Ty::Bv(more as u8 + 1),
        value,
    })
}
