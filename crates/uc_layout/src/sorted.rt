//! Written parts, cell by cell.

ghost use Rattle.std.specs.Prelude.{◌≡◌, ◌∷◌, ◌++◌, ◌<◌, ℕ, [], length, map, nat_eq, if◌then◌else◌, IfOk, OnOk};
ghost use Rattle.uc_layout.specs.Kept.{lent, cell_part, written_in};
ghost use Rattle.uc_layout.specs.Sorted.{list_at};

use crate::part::Part;
use std::alloc::{AllocError, Global};

/// For each of so many cells, the fields that lead to its written parts.
pub(crate) fn by_cell(
    alloc: Global,
    count: usize,
    written: &[Part],
) -> Result<Vec<Vec<&[u32]>>, AllocError>
    ensures count { IfOk result (λ cells. length cells.items ≡ count) }
    ensures sorted { IfOk result (λ cells. (k : ℕ) → k < count → lent (list_at cells.items k) ≡ written_in k (map cell_part written.now)) }
{
    let mut cells = empty(alloc, count)?;
    for part in written {
        push_at(&mut cells, part.cell, part.fields.as_slice())?;
    }
    Ok(cells)
}

/// So many empty lists.
fn empty<'w>(alloc: Global, count: usize) -> Result<Vec<Vec<&'w [u32]>>, AllocError>
    ensures count { IfOk result (λ cells. length cells.items ≡ count) }
    ensures empty { IfOk result (λ cells. (k : ℕ) → lent (list_at cells.items k) ≡ []) }
{
    let mut cells = Vec::new(alloc);
    for _ in 0..count {
        cells.push(Vec::new(alloc))?;
    }
    Ok(cells)
}

/// Adds fields to the list at a place, if there is one.
fn push_at<'w>(
    cells: &mut Vec<Vec<&'w [u32]>>,
    place: usize,
    fields: &'w [u32],
) -> Result<(), AllocError>
    ensures count { OnOk result (length cells.new.items ≡ length cells.old.items) }
    ensures pushed { OnOk result ((k : ℕ) → k < length cells.old.items → lent (list_at cells.new.items k) ≡ (if nat_eq place k then lent (list_at cells.old.items k) ++ fields.now ∷ [] else lent (list_at cells.old.items k))) }
{
    if place < cells.len() {
        cells[place].push(fields)?;
    }
    Ok(())
}
