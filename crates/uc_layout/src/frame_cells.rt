//! The frame rule over all cells.

ghost use Rattle.std.specs.Prelude.{◌≡◌, ◌↔◌, List, length, map, IsTrue, IfOk};
ghost use Rattle.uc_meaning.specs.Cells.{cells_of};
ghost use Rattle.uc_meaning.specs.Steps.{CellPart, AllKeep};
ghost use Rattle.uc_layout.specs.Kept.{cell_part};
ghost use Rattle.uc_layout.specs.Instances.{cell_meant};
ghost use Rattle.uc_layout.specs.Sorted.{AreParts};

use crate::frame_cell::keeps_cell;
use crate::part::Part;
use crate::sorted::by_cell;
use crate::{Cell, cells};
use std::alloc::{AllocError, Global};
use uc_items::at;
use uc_type_reader::Tables;
use uc_values::Value;

/// Whether each cell keeps what is not written.
pub fn all_keep(
    alloc: Global,
    tables: &Tables,
    written: &[Part],
    old: &[Value],
    new: &[Value],
) -> Result<bool, AllocError>
    ensures { IfOk result (λ keep. IsTrue keep ↔ AllKeep (map cell_part written.now) 0 (cells_of tables.now) old.now new.now) }
{
    let cells = cells(alloc, tables)?;
    let parts = by_cell(alloc, cells.len(), written)?;
    cells_keep(alloc, cells.as_slice(), parts.as_slice(), old, new)
}

/// The same by the fields that lead to the written parts of each cell.
fn cells_keep(
    alloc: Global,
    cells: &[Cell],
    parts: &[Vec<&[u32]>],
    old: &[Value],
    new: &[Value],
) -> Result<bool, AllocError>
    requires { length parts.now ≡ length cells.now }
    ensures { IfOk result (λ keep. (written : List CellPart) → AreParts cells.now parts.now written → (IsTrue keep ↔ AllKeep written 0 (map cell_meant cells.now) old.now new.now)) }
{
    for (number, cell) in cells.iter().enumerate() {
        let (Some(before), Some(after)) = (at(old, number), at(new, number)) else {
            return Ok(true);
        };
        let inside = parts[number].as_slice();
        let keeps = keeps_cell(alloc, cell.kind, &cell.ty, inside, before, after)?;
        if !keeps {
            return Ok(false);
        }
    }
    Ok(true)
}
