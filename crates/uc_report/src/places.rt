//! Where the cells of names stand.

ghost use Rattle.std.specs.Prelude.{◌≡◌, ◌&&◌, nat_eq, IfOk};
ghost use Rattle.uc_meaning.specs.Cells.{same_path};
ghost use Rattle.uc_report.specs.TraceTables.{ArePlaces, AreNone, IsEntered, place_among};

use std::alloc::{AllocError, Global};
use uc_flat::Cell;

/// The place of the first cell of main for each name, by its number, so many names.
pub(crate) fn places_in_main(
    alloc: Global,
    cells: &[Cell],
    count: usize,
) -> Result<Vec<Option<usize>>, AllocError>
    ensures { IfOk result (λ places. ArePlaces cells.now places.items) }
{
    let mut places = no_places(alloc, count)?;
    // the first cell of a name comes last, and stays
    let mut place = cells.len();
    while place > 0 {
        place -= 1;
        enter(&mut places, place, &cells[place]);
    }
    Ok(places)
}

fn no_places(alloc: Global, count: usize) -> Result<Vec<Option<usize>>, AllocError>
    ensures { IfOk result (λ places. AreNone places.items) }
{
    let mut places = Vec::new(alloc);
    for _turn in 0..count {
        places.push(None)?;
    }
    Ok(places)
}

/// Enters a cell at its name, where it is one of main.
fn enter(places: &mut Vec<Option<usize>>, place: usize, cell: &Cell)
    ensures { IsEntered place cell.now places.old.items places.new.items }
{
    let name = cell.name as usize;
    if !cell.path.is_empty() {
        return;
    }
    if name < places.len() {
        places[name] = Some(place);
    }
}

/// The place of a cell among all.
pub(crate) fn place_among(cells: &[Cell], path: &[u32], name: u32) -> Option<usize>
    ensures { result ≡ place_among cells.now path.now name }
{
    for (place, cell) in cells.iter().enumerate() {
        if is_cell(cell, path, name) {
            return Some(place);
        }
    }
    None
}

fn is_cell(cell: &Cell, path: &[u32], name: u32) -> bool
    ensures { result ≡ (same_path cell.now.path path.now && nat_eq cell.now.name name) }
{
    same_path(cell.path.as_slice(), path) && cell.name == name
}

/// Whether two paths are the same.
#[tactic(auto, unfolding(uc_meaning::specs::Cells::same_path))]
fn same_path(left: &[u32], right: &[u32]) -> bool
    ensures { result ≡ same_path left.now right.now }
{
    if left.len() != right.len() {
        return false;
    }
    for place in 0..left.len() {
        if left[place] != right[place] {
            return false;
        }
    }
    true
}
