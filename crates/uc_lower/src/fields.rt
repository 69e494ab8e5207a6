//! The innermost fields of types.

ghost use Rattle.std.specs.Prelude.{◌≡◌, ◌≤◌, ◌<◌, ◌++◌, ◌-◌, length, take, drop, IfOk};
ghost use Rattle.uc_values.specs.Sizes.{label_bits};
ghost use Rattle.uc_values.specs.Types.{field_types};
ghost use Rattle.uc_values.specs.Values.{label_of};
ghost use Rattle.uc_ops.specs.Typing.{Valid, fields_of, part_type};
ghost use Rattle.uc_lower.specs.Fields.{leaves, all_leaves, low_type};

use std::alloc::{AllocError, Global};
use uc_terms::TermId;
use uc_values::{Field, Ty, Value, copy_ty};

/// The types of the innermost fields of a type, in order.
#[cycle(leaves)]
pub(crate) fn leaves(alloc: Global, ty: &Ty) -> Result<Vec<Ty>, AllocError>
    ensures { IfOk result (λ tys. tys.items ≡ leaves ty.now) }
{
    match ty {
        Ty::Bool | Ty::Int | Ty::Bv(_) | Ty::Enum(_, _) | Ty::Un(_) => {
            let mut found = Vec::new(alloc);
            found.push(copy_ty(alloc, ty)?)?;
            Ok(found)
        }
        Ty::Rec(fields) => {
            let found = field_leaves(alloc, fields.as_slice())?;
            Ok(found)
        }
        Ty::Arr(_, _) => Ok(Vec::new(alloc)),
    }
}

#[cycle(leaves)]
fn field_leaves(alloc: Global, fields: &[Field<Ty>]) -> Result<Vec<Ty>, AllocError>
    ensures { IfOk result (λ tys. tys.items ≡ all_leaves (field_types fields.now)) }
{
    let mut found = Vec::new(alloc);
    for field in fields {
        let mut inner = leaves(alloc, &field.ty)?;
        found.append(&mut inner)?;
    }
    Ok(found)
}

/// What follows the terms of the innermost fields of a type.
#[cycle(after)]
fn after<'a>(ty: &Ty, terms: &'a [TermId]) -> &'a [TermId]
    ensures { result.now ≡ drop (length (leaves ty.now)) terms.now }
{
    match ty {
        Ty::Bool | Ty::Int | Ty::Bv(_) | Ty::Enum(_, _) | Ty::Un(_) => after_one(terms),
        Ty::Rec(fields) => after_fields(fields.as_slice(), terms),
        Ty::Arr(_, _) => terms,
    }
}

#[cycle(after)]
fn after_fields<'a>(fields: &[Field<Ty>], terms: &'a [TermId]) -> &'a [TermId]
    ensures { result.now ≡ drop (length (all_leaves (field_types fields.now))) terms.now }
{
    let mut rest = terms;
    for field in fields {
        rest = after(&field.ty, rest);
    }
    rest
}

fn after_one(terms: &[TermId]) -> &[TermId]
    ensures { result.now ≡ drop 1 terms.now }
{
    match terms {
        [] => terms,
        [_, rest @ ..] => rest,
    }
}

/// The terms of the innermost fields of a field of a record.
pub(crate) fn low_field<'a>(ty: &Ty, place: usize, terms: &'a [TermId]) -> &'a [TermId]
    requires { place < length (fields_of ty.now) }
    ensures { result.now
        ≡ take (length (leaves (part_type (field_types (fields_of ty.now)) place))) (drop (length (all_leaves (take place (field_types (fields_of ty.now))))) terms.now) }
{
    match ty {
        Ty::Rec(fields) => {
            let fields = fields.as_slice();
            let rest = after_fields(&fields[..place], terms);
            before(rest, after(&fields[place].ty, rest))
        }
        _ => terms,
    }
}

/// What stands before the end of a list.
fn before<'a>(terms: &'a [TermId], end: &[TermId]) -> &'a [TermId]
    requires { length end.now ≤ length terms.now }
    ensures { result.now ≡ take (length terms.now - length end.now) terms.now }
{
    &terms[..terms.len() - end.len()]
}

/// The least number of bits, at least one, that tell so many labels apart.
pub(crate) fn label_width(labels: u32) -> u8
    ensures width { result ≡ label_bits labels }
    ensures high { result ≤ 32 }
{
    for width in 1..32u8 {
        if labels <= 1u32 << width {
            return width;
        }
    }
    32
}

/// The type of what stands for an innermost field.
pub(crate) fn low_type(alloc: Global, leaf: &Ty) -> Result<Ty, AllocError>
    requires { Valid leaf.now }
    ensures low { IfOk result (λ ty. ty ≡ low_type leaf.now) }
    ensures valid { IfOk result Valid }
{
    match leaf {
        Ty::Enum(_, labels) => Ok(Ty::Bv(label_width(*labels))),
        _ => {
            let same = copy_ty(alloc, leaf)?;
            Ok(same)
        }
    }
}

/// The place of a label.
pub(crate) fn label(value: &Value) -> u32
    ensures { result ≡ label_of value.now }
{
    match value {
        Value::Enum(_, label) => *label,
        _ => 0,
    }
}
