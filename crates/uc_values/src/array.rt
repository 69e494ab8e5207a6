//! What an array holds at an index.

ghost use Rattle.std.specs.Prelude.{◌≡◌, IfOk};
ghost use Rattle.uc_values.specs.Values.{same_scalar};
ghost use Rattle.uc_values.specs.Arrays.{at, store, stored};

use crate::copying::copy;
use crate::value::Value;
use std::alloc::{AllocError, Global};
use uc_items::{Boxed, Items};

/// Whether two scalar values are the same.
pub fn same_scalar(a: &Value, b: &Value) -> bool
    ensures { result ≡ same_scalar a.now b.now }
{
    match (a, b) {
        (Value::Bool(left), Value::Bool(right)) => left == right,
        (Value::Int(left), Value::Int(right)) => left == right,
        (Value::Bv(width, left), Value::Bv(own, right)) => width == own && left == right,
        (Value::Enum(number, left), Value::Enum(own, right)) => number == own && left == right,
        (Value::Un(number, left), Value::Un(own, right)) => number == own && left == right,
        _ => false,
    }
}

/// The element of an array at an index.
pub fn lookup<'a>(array: &'a Value, index: &Value) -> &'a Value
    ensures { result.now ≡ at array.now index.now }
{
    let Value::Arr(default, rows) = array else {
        return array;
    };
    for (place, element) in rows.as_slice() {
        if same_scalar(place, index) {
            return element;
        }
    }
    default.get()
}

/// The array with the element at an index changed.
pub fn store(
    alloc: Global,
    array: &Value,
    index: &Value,
    element: &Value,
) -> Result<Value, AllocError>
    ensures { IfOk result (λ v. v ≡ store array.now index.now element.now) }
{
    let Value::Arr(default, rows) = array else {
        return copy(alloc, array);
    };
    let default = Boxed::new(alloc, copy(alloc, default.get())?)?;
    let rows = stored(alloc, rows.as_slice(), index, element)?;
    Ok(Value::Arr(default, Items::from_vec(rows)))
}

/// The exceptions with the element at an index put in its place, or after the last.
fn stored(
    alloc: Global,
    rows: &[(Value, Value)],
    index: &Value,
    element: &Value,
) -> Result<Vec<(Value, Value)>, AllocError>
    ensures { IfOk result (λ rs. rs.items ≡ stored rows.now index.now element.now) }
{
    let mut changed = Vec::new(alloc);
    let mut found = false;
    for (place, old) in rows {
        let here = !found && same_scalar(place, index);
        let new = if here { element } else { old };
        changed.push(copied_row(alloc, place, new)?)?;
        found = found || here;
    }
    if !found {
        changed.push(copied_row(alloc, index, element)?)?;
    }
    Ok(changed)
}

/// An exception with the same index and the same element.
fn copied_row(alloc: Global, index: &Value, element: &Value) -> Result<(Value, Value), AllocError>
    ensures { IfOk result (λ row. row ≡ (index.now, element.now)) }
{
    let index = copy(alloc, index)?;
    let element = copy(alloc, element)?;
    Ok((index, element))
}
