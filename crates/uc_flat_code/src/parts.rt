//! Parts of cells behind fields.

ghost use Rattle.std.specs.Prelude.{◌≡◌, ◌++◌, ◌∷◌, [], nat_eq, slice_set, if◌then◌else◌, Some, None, ◌<◌, length, IfOk, IfSome};
ghost use Rattle.std.specs.List.{list_any, position_from};
ghost use Rattle.std.specs.Option.{option_and_then};
ghost use Rattle.uc_ops.specs.Equality.{equal_types};
ghost use Rattle.uc_ops.specs.Typing.{fields_of};
ghost use Rattle.uc_flat.specs.declared.expression.Expression.TheVariants.{Cell as ReadCell};
ghost use Rattle.uc_flat_expressions.specs.Answers.{IsAnswer};
ghost use Rattle.uc_flat_code.specs.Code.{field_in, fields_in, with_field, are_different, field_place, replaced_in};
ghost use Rattle.uc_flat_code.specs.Walk.{behind, field_name};

use crate::holding::{built_where, with};
use std::alloc::{AllocError, Global};
use uc_flat::Expression;
use uc_flat_expressions::{FlatError, TypedExpression};
use uc_items::{Items, beside};
use uc_ops::{Op, equal_types};
use uc_syntax::TargetPart;
use uc_values::{Field, Ty, copy_ty};

/// A field of a part.
fn field_in(alloc: Global, whole: Expression, place: u32) -> Result<Expression, AllocError>
    ensures { IfOk result (λ e. e ≡ field_in whole place) }
{
    let mut parts = Items::new(alloc);
    parts.push(whole)?;
    Ok(Expression::Apply(Op::GetField(place), parts))
}

/// The part of a cell behind fields of these numbers.
#[tactic(auto, unfolding(crate::specs::Walk::behind))]
fn behind(alloc: Global, cell: u32, places: &[u32]) -> Result<Expression, AllocError>
    ensures { IfOk result (λ e. e ≡ behind (ReadCell cell) places.now) }
{
    let mut whole = Expression::Cell(cell);
    for place in places {
        whole = field_in(alloc, whole, *place)?;
    }
    Ok(whole)
}

/// The field of a number of a part of a cell. Numbers of fields are below 2^32: a greater one counts as want of memory.
fn field_of_part(
    alloc: Global,
    cell: u32,
    places: &[u32],
    k: usize,
) -> Result<Expression, FlatError>
    ensures { IsAnswer (Some (field_in (behind (ReadCell cell) places.now) k)) result }
{
    let Ok(place) = u32::try_from(k) else {
        return Err(FlatError::NoMemory);
    };
    let whole = behind(alloc, cell, places)?;
    let field = field_in(alloc, whole, place)?;
    Ok(field)
}

/// All fields of a record, as they are in a part of a cell.
#[tactic(auto, unfolding(crate::specs::Code::fields_in))]
fn fields_in(
    alloc: Global,
    cell: u32,
    places: &[u32],
    fields: &[Field<Ty>],
) -> Result<Items<Expression>, FlatError>
    ensures { IsAnswer (Some (fields_in (behind (ReadCell cell) places.now) 0 fields.now)) result }
{
    let mut all = Items::new(alloc);
    for k in 0..fields.len() {
        let field = field_of_part(alloc, cell, places, k)?;
        all.push(field)?;
    }
    Ok(all)
}

fn fields_of(ty: &Ty) -> &[Field<Ty>]
    ensures { result.now ≡ fields_of ty.now }
{
    match ty {
        Ty::Rec(fields) => fields.as_slice(),
        _ => &[],
    }
}

/// The fields with another one in a place, if there is such a place.
#[tactic(auto, using(crate::proofs::FlatCodeAssigning::set_past))]
fn put(fields: Items<Expression>, place: usize, field: Expression) -> Items<Expression>
    ensures { result ≡ slice_set fields place field }
{
    let mut all = fields;
    if place < all.len() {
        all.set(place, field);
    }
    all
}

/// A part of a cell with another field of a number.
fn with_field(
    alloc: Global,
    cell: u32,
    places: &[u32],
    ty: &Ty,
    place: usize,
    field: Expression,
) -> Result<Expression, FlatError>
    ensures { IsAnswer (Some (with_field (behind (ReadCell cell) places.now) ty.now place field)) result }
{
    let (field, old) = beside(field, fields_in(alloc, cell, places, fields_of(ty)))?;
    let fields = put(old, place, field);
    let ty = copy_ty(alloc, ty)?;
    Ok(Expression::Apply(Op::MkRec(ty), fields))
}

/// Whether no two fields have one name.
#[tactic(auto, unfolding(crate::specs::Code::are_different))]
fn are_different(fields: &[Field<Ty>]) -> bool
    ensures { result ≡ are_different fields.now }
{
    for k in 0..fields.len() {
        if has_name(&fields[k + 1..], fields[k].name) {
            return false;
        }
    }
    true
}

fn has_name(fields: &[Field<Ty>], name: u32) -> bool
    ensures { result ≡ list_any (λ f. nat_eq f.name name) fields.now }
{
    fields.iter().any(|field| field.name == name)
}

/// The place of the field of a name, where no two fields have one name.
fn field_place(ty: &Ty, name: u32) -> Option<usize>
    ensures place { result ≡ field_place ty.now name }
    ensures there { IfSome result (λ k. k < length (fields_of ty.now)) }
{
    let fields = fields_of(ty);
    if !are_different(fields) {
        return None;
    }
    first_place(fields, name)
}

fn first_place(fields: &[Field<Ty>], name: u32) -> Option<usize>
    ensures place { result ≡ position_from (λ d. nat_eq d.name name) 0 fields.now }
    ensures there { IfSome result (λ k. k < length fields.now) }
{
    for (place, field) in fields.iter().enumerate() {
        if field.name == name {
            return Some(place);
        }
    }
    None
}

/// The name of a field; an index has none.
fn field_name(part: &TargetPart) -> Option<u32>
    ensures { result ≡ field_name part.now }
{
    match part {
        TargetPart::Field(_, name) => Some(name.name),
        TargetPart::Element(_, _) => None,
    }
}

/// The place of the field that a part names.
fn named_place(ty: &Ty, part: &TargetPart) -> Option<usize>
    ensures place { result ≡ option_and_then (field_place ty.now) (field_name part.now) }
    ensures there { IfSome result (λ k. k < length (fields_of ty.now)) }
{
    let name = field_name(part)?;
    field_place(ty, name)
}

/// What a part of a cell is to be where the part of it that fields lead to takes a value of its type.
pub(crate) fn replaced_in(
    alloc: Global,
    cell: u32,
    places: Items<u32>,
    ty: &Ty,
    parts: &[TargetPart],
    t: TypedExpression,
) -> Result<Expression, FlatError>
    ensures { IsAnswer (replaced_in (behind (ReadCell cell) places) ty.now parts.now t) result }
{
    let Some((first, rest)) = parts.split_first() else {
        return whole_of(ty, t);
    };
    let (place, t) = with(named_place(ty, first), t)?;
    let field = &fields_of(ty)[place];
    let (t, deeper) = beside(t, deeper(alloc, places.as_slice(), place))?;
    let inner = replaced_in(alloc, cell, deeper, &field.ty, rest, t)?;
    with_field(alloc, cell, places.as_slice(), ty, place, inner)
}

/// A value of a type.
fn whole_of(ty: &Ty, t: TypedExpression) -> Result<Expression, FlatError>
    ensures { IsAnswer (if equal_types ty.now t.ty then Some t.expression else None) result }
{
    let t = built_where(equal_types(ty, &t.ty), t)?;
    Ok(t.expression)
}

/// The numbers of the fields that lead to a field.
fn deeper(alloc: Global, places: &[u32], place: usize) -> Result<Items<u32>, FlatError>
    ensures { IsAnswer (Some (places.now ++ place ∷ [])) result }
{
    let Ok(place) = u32::try_from(place) else {
        return Err(FlatError::NoMemory);
    };
    let mut deeper = Items::from_slice(alloc, places)?;
    deeper.push(place)?;
    Ok(deeper)
}
