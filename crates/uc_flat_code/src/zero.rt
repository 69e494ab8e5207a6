//! What further cells begin with.

ghost use Rattle.std.specs.Prelude.{◌≡◌, [], map, IfOk};
ghost use Rattle.uc_values.specs.Values.{zero_of as zero_value};
ghost use Rattle.uc_ops.specs.declared.op.Op.TheVariants.{Const, MkRec};
ghost use Rattle.uc_flat.specs.declared.expression.Expression.TheVariants.{Apply};
ghost use Rattle.uc_flat_code.specs.Zero.{zero_of};

use std::alloc::{AllocError, Global};
use uc_flat::Expression;
use uc_items::{Items, beside};
use uc_ops::Op;
use uc_values::{Field, Ty, copy_ty, zero};

/// The expression of the value of a type that counts as 0, which reads no cells.
#[cycle(zero_expression)]
#[tactic(auto, using(crate::proofs::Zeros::boolean_zero, crate::proofs::Zeros::integer_zero))]
pub(crate) fn zero_expression(alloc: Global, ty: &Ty) -> Result<Expression, AllocError>
    ensures { IfOk result (λ e. e ≡ zero_of ty.now) }
{
    match ty {
        Ty::Rec(fields) => {
            let parts = zero_parts(alloc, fields.as_slice())?;
            record_of(alloc, ty, parts)
        }
        Ty::Bool => constant_zero(alloc, ty),
        Ty::Int => constant_zero(alloc, ty),
        Ty::Bv(_) => constant_zero(alloc, ty),
        Ty::Enum(_, _) => constant_zero(alloc, ty),
        Ty::Un(_) => constant_zero(alloc, ty),
        Ty::Arr(_, _) => constant_zero(alloc, ty),
    }
}

/// A record of a type by its parts.
fn record_of(alloc: Global, ty: &Ty, parts: Items<Expression>) -> Result<Expression, AllocError>
    ensures { IfOk result (λ e. e ≡ Apply (MkRec ty.now) parts) }
{
    let (parts, ty) = beside(parts, copy_ty(alloc, ty))?;
    Ok(Expression::Apply(Op::MkRec(ty), parts))
}

#[cycle(zero_expression)]
fn zero_parts(alloc: Global, fields: &[Field<Ty>]) -> Result<Items<Expression>, AllocError>
    ensures { IfOk result (λ es. es ≡ map (λ f. zero_of f.ty) fields.now) }
{
    let mut parts = Items::new(alloc);
    for field in fields {
        let part = zero_expression(alloc, &field.ty)?;
        parts.push(part)?;
    }
    Ok(parts)
}

/// The value of a type that counts as 0 as a constant.
fn constant_zero(alloc: Global, ty: &Ty) -> Result<Expression, AllocError>
    ensures { IfOk result (λ e. e ≡ Apply (Const ty.now (zero_value ty.now)) []) }
{
    let value = zero(alloc, ty)?;
    let (value, ty) = beside(value, copy_ty(alloc, ty))?;
    Ok(Expression::Apply(Op::Const(ty, value), Items::new(alloc)))
}
