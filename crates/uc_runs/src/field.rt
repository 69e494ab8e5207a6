//! A record with a field changed.

ghost use Rattle.std.specs.Prelude.{◌≡◌, nat_eq, slice_set};
ghost use Rattle.std.specs.List.{position_from};
ghost use Rattle.uc_values.specs.Values.{parts_of, with_field};
ghost use Rattle.uc_meaning.specs.Expressions.{fields_of, field_number};

use std::alloc::Global;
use std::mem::replace;
use uc_items::Items;
use uc_values::{Field, Ty, Value};

/// The record with the part of a field changed, where it has the type. Of another value it is the record without parts.
pub fn with_field(alloc: Global, ty: &Ty, whole: Value, name: u32, part: Value) -> Value
    ensures { result ≡ with_field whole (field_number (fields_of ty.now) name) part }
{
    let mut parts = parts_of(alloc, whole);
    set_part(&mut parts, field_number(fields_of(ty), name), part);
    Value::Rec(parts)
}

fn parts_of(alloc: Global, whole: Value) -> Items<Value>
    ensures { result ≡ parts_of whole }
{
    let mut whole = whole;
    match &mut whole {
        Value::Rec(parts) => replace(parts, Items::new(alloc)),
        _ => Items::new(alloc),
    }
}

#[tactic(auto, using(std::proofs::lemmas::List::set_past))]
fn set_part(parts: &mut Items<Value>, place: usize, part: Value)
    ensures { parts.new ≡ slice_set parts.old place part }
{
    if place < parts.len() {
        parts.set(place, part);
    }
}

fn fields_of(ty: &Ty) -> &[Field<Ty>]
    ensures { result.now ≡ fields_of ty.now }
{
    match ty {
        Ty::Rec(fields) => fields.as_slice(),
        _ => &[],
    }
}

/// The place of the field of a name, and 0 where there is none.
fn field_number(fields: &[Field<Ty>], name: u32) -> usize
    ensures { result ≡ field_number fields.now name }
{
    for (place, field) in fields.iter().enumerate() {
        if field.name == name {
            return place;
        }
    }
    0
}
