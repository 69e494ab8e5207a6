//! Names that stand for locals, and get back what they stood for before.

ghost use Rattle.std.specs.Prelude.{◌≡◌, ◌++◌, ◌∷◌, [], true, Some, None, slice_get, slice_set, IfOk, OnOk};
ghost use Rattle.uc_flat.specs.declared.statement.Statement.TheVariants.{Havoc};
ghost use Rattle.uc_flat_expressions.specs.declared.typed.Meant.TheVariants.{Cell};
ghost use Rattle.uc_flat_code.specs.Zero.{zero_of};
ghost use Rattle.uc_flat_code.specs.Init.{declared};
ghost use Rattle.uc_flat_code.specs.FlatInitWalk.{with_names, aside, undone};

use crate::made::{MadeCode, behind};
use crate::zero::zero_expression;
use std::alloc::{AllocError, Global};
use uc_flat::Statement;
use uc_flat_expressions::Meant;
use uc_items::{Items, at, beside};
use uc_syntax::Identifier;
use uc_values::{Ty, copy_ty};

/// What a name stood for before a local had it.
#[derive(Drop)]
pub(crate) struct Shadowed {
    pub(crate) name: u32,
    pub(crate) meant: Meant,
}

fn copy_meant(alloc: Global, meant: &Meant) -> Result<Meant, AllocError>
    ensures { IfOk result (λ m. m ≡ meant.now) }
{
    match meant {
        Meant::Unknown => Ok(Meant::Unknown),
        Meant::Cell(cell, new, ty) => {
            let ty = copy_ty(alloc, ty)?;
            Ok(Meant::Cell(*cell, *new, ty))
        }
        Meant::Label(number, labels, place) => Ok(Meant::Label(*number, *labels, *place)),
        Meant::Constant(number, ty) => {
            let ty = copy_ty(alloc, ty)?;
            Ok(Meant::Constant(*number, ty))
        }
    }
}

/// What names stand for, to be changed by locals.
pub fn copy_names(alloc: Global, names: &[Meant]) -> Result<Items<Meant>, AllocError>
    ensures { IfOk result (λ all. all ≡ names.now) }
{
    let mut all = Items::new(alloc);
    for meant in names {
        let meant = copy_meant(alloc, meant)?;
        all.push(meant)?;
    }
    Ok(all)
}

/// What a name stands for is put aside. A name past the table stands for nothing.
fn put_aside(
    alloc: Global,
    names: &[Meant],
    shadowed: &mut Items<Shadowed>,
    name: u32,
) -> Result<(), AllocError>
    ensures { OnOk result (shadowed.new ≡ shadowed.old ++ aside name (slice_get names.now name)) }
{
    match at(names, name as usize) {
        None => Ok(()),
        Some(meant) => {
            let meant = copy_meant(alloc, meant)?;
            shadowed.push(Shadowed { name, meant })?;
            Ok(())
        }
    }
}

/// A name stands for a cell of a type, and what it stood for is put aside.
#[tactic(auto, using(crate::proofs::Names::undone_more))]
fn stand(
    alloc: Global,
    names: &mut Items<Meant>,
    shadowed: &mut Items<Shadowed>,
    name: u32,
    cell: u32,
    ty: &Ty,
) -> Result<(), AllocError>
    ensures set { OnOk result (names.new ≡ slice_set names.old name (Cell cell None ty.now)) }
    ensures undone { OnOk result (undone shadowed.new names.new ≡ undone shadowed.old names.old) }
{
    put_aside(alloc, names.as_slice(), shadowed, name)?;
    let ty = copy_ty(alloc, ty)?;
    put(names, name as usize, Meant::Cell(cell, None, ty));
    Ok(())
}

/// A further cell that takes a choice of a type.
fn chosen(alloc: Global, made: MadeCode, cell: u32, ty: &Ty) -> Result<MadeCode, AllocError>
    ensures { IfOk result (λ a. a ≡ record { code = made.code ++ Havoc cell true ∷ []; further = made.further ++ zero_of ty.now ∷ [] }) }
{
    let (mut made, zero) = beside(made, zero_expression(alloc, ty))?;
    made.code.push(Statement::Havoc(cell, true))?;
    made.further.push(zero)?;
    Ok(made)
}

/// Locals of a type, each of which takes a choice.
pub(crate) fn declare(
    alloc: Global,
    names: &mut Items<Meant>,
    shadowed: &mut Items<Shadowed>,
    first: u32,
    ty: &Ty,
    identifiers: &[Identifier],
) -> Result<MadeCode, AllocError>
    ensures made { IfOk result (λ a. declared ty.now identifiers.now names.old first ≡ Some (with_names a names.new)) }
    ensures undone { OnOk result (undone shadowed.new names.new ≡ undone shadowed.old names.old) }
{
    let mut made = MadeCode::alone(alloc, Items::new(alloc));
    let mut cell = first;
    for identifier in identifiers {
        stand(alloc, names, shadowed, identifier.name, cell, ty)?;
        made = chosen(alloc, made, cell, ty)?;
        cell = behind(cell, 1)?;
    }
    Ok(made)
}

/// The names get back what they stood for.
#[tactic(auto, using(crate::proofs::Names::undone_last))]
pub(crate) fn undo(names: &mut Items<Meant>, shadowed: Items<Shadowed>)
    ensures { names.new ≡ undone shadowed names.old }
{
    let mut left = shadowed;
    while let Some(last) = left.pop() {
        put(names, last.name as usize, last.meant);
    }
}

/// Another meaning in a place, if there is such a place.
#[tactic(auto, using(crate::proofs::Names::set_past))]
fn put(names: &mut Items<Meant>, place: usize, meant: Meant)
    ensures { names.new ≡ slice_set names.old place meant }
{
    if place < names.len() {
        names.set(place, meant);
    }
}
