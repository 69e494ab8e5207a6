//! What names stand for between two states, and where there are no cells.

ghost use Rattle.std.specs.Prelude.{◌≡◌, ◌+◌, Some, None, map, IfOk};
ghost use Rattle.uc_flat_design.specs.Names.{without_cell};
ghost use Rattle.uc_flat_design.specs.Next.{with_new, names_between};

use std::alloc::{AllocError, Global};
use uc_flat_expressions::Meant;
use uc_items::Items;
use uc_values::copy_ty;

/// The number of a cell of the new state. Numbers are below 2^32: a larger one counts as want of memory.
fn behind(cell: u32, count: u32) -> Result<u32, AllocError>
    ensures { IfOk result (λ k. k ≡ cell + count) }
{
    match cell.checked_add(count) {
        Some(k) => Ok(k),
        None => Err(AllocError),
    }
}

fn with_new(alloc: Global, meant: &Meant, count: u32) -> Result<Meant, AllocError>
    ensures { IfOk result (λ m. m ≡ with_new count meant.now) }
{
    match meant {
        Meant::Unknown => Ok(Meant::Unknown),
        Meant::Cell(cell, _, ty) => {
            let new = behind(*cell, count)?;
            let ty = copy_ty(alloc, ty)?;
            Ok(Meant::Cell(*cell, Some(new), ty))
        }
        Meant::Label(number, labels, place) => Ok(Meant::Label(*number, *labels, *place)),
        Meant::Constant(number, ty) => {
            let ty = copy_ty(alloc, ty)?;
            Ok(Meant::Constant(*number, ty))
        }
    }
}

/// What names stand for in a next block over so many cells, where these stand for what is listed in one state.
pub fn names_between(alloc: Global, names: &[Meant], count: u32) -> Result<Items<Meant>, AllocError>
    ensures { IfOk result (λ all. all ≡ names_between count names.now) }
{
    let mut all = Items::new(alloc);
    for meant in names {
        let more = with_new(alloc, meant, count)?;
        all.push(more)?;
    }
    Ok(all)
}

fn without_cell(alloc: Global, meant: &Meant) -> Result<Meant, AllocError>
    ensures { IfOk result (λ m. m ≡ without_cell meant.now) }
{
    match meant {
        Meant::Unknown => Ok(Meant::Unknown),
        Meant::Cell(_, _, _) => Ok(Meant::Unknown),
        Meant::Label(number, labels, place) => Ok(Meant::Label(*number, *labels, *place)),
        Meant::Constant(number, ty) => {
            let ty = copy_ty(alloc, ty)?;
            Ok(Meant::Constant(*number, ty))
        }
    }
}

/// What names stand for in an axiom, which reads no cells.
pub fn without_cells(alloc: Global, names: &[Meant]) -> Result<Items<Meant>, AllocError>
    ensures { IfOk result (λ all. all ≡ map without_cell names.now) }
{
    let mut all = Items::new(alloc);
    for meant in names {
        let more = without_cell(alloc, meant)?;
        all.push(more)?;
    }
    Ok(all)
}
