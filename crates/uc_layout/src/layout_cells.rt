//! The cells that an instance has.

ghost use Rattle.std.specs.Prelude.{◌≡◌, ◌++◌, nat_eq, ◌&&◌, OnOk};
ghost use Rattle.std.specs.List.{flat_map, position_from};
ghost use Rattle.uc_meaning.specs.Cells.{is_cell, is_main, same_path};
ghost use Rattle.uc_layout.specs.Listing.{instance_at, cells_at, cells_of_declaration, cells_of_name};

use crate::listing::Here;
use std::alloc::{AllocError, Global};
use uc_items::Items;
use uc_lookup::bound_to;
use uc_syntax::{Decl, Identifier, VariableKind};

/// A cell of a state: the path of its instance, its name, and what it is.
#[derive(Drop)]
pub struct CellName {
    pub path: Items<u32>,
    pub name: u32,
    pub kind: VariableKind,
}

/// Adds the cells of an instance.
#[tactic(auto, using(uc_syntax::proofs::Added::added_begin, uc_syntax::proofs::Added::added_more, uc_syntax::proofs::Added::added_end))]
pub(crate) fn add_cells_at(
    alloc: Global,
    here: &Here<'_>,
    cells: &mut Items<CellName>,
) -> Result<(), AllocError>
    ensures { OnOk result (cells.new ≡ cells.old ++ cells_at (instance_at here.now)) }
{
    for decl in here.code.decls.as_slice() {
        add_cells_of(alloc, here, decl, cells)?;
    }
    Ok(())
}

#[tactic(auto, using(uc_syntax::proofs::Added::added_begin, uc_syntax::proofs::Added::added_more, uc_syntax::proofs::Added::added_end))]
fn add_cells_of(
    alloc: Global,
    here: &Here<'_>,
    decl: &Decl,
    cells: &mut Items<CellName>,
) -> Result<(), AllocError>
    ensures { OnOk result (cells.new ≡ cells.old ++ cells_of_declaration (instance_at here.now) decl.now) }
{
    match decl {
        Decl::Variables(_, kind, names, _) => {
            add_cells(alloc, here, *kind, names.as_slice(), cells)?;
            Ok(())
        }
        _ => Ok(()),
    }
}

#[tactic(auto, using(uc_syntax::proofs::Added::added_begin, uc_syntax::proofs::Added::added_more, uc_syntax::proofs::Added::added_end))]
fn add_cells(
    alloc: Global,
    here: &Here<'_>,
    kind: VariableKind,
    names: &[Identifier],
    cells: &mut Items<CellName>,
) -> Result<(), AllocError>
    ensures { OnOk result (cells.new ≡ cells.old ++ flat_map (cells_of_name (instance_at here.now) kind) names.now) }
{
    for identifier in names {
        add_cell(alloc, here, kind, identifier, cells)?;
    }
    Ok(())
}

fn add_cell(
    alloc: Global,
    here: &Here<'_>,
    kind: VariableKind,
    identifier: &Identifier,
    cells: &mut Items<CellName>,
) -> Result<(), AllocError>
    ensures { OnOk result (cells.new ≡ cells.old ++ cells_of_name (instance_at here.now) kind identifier.now) }
{
    if !is_cell(here, kind, identifier.name) {
        return Ok(());
    }
    let path = Items::from_slice(alloc, here.path.as_slice())?;
    cells.push(CellName {
        path,
        name: identifier.name,
        kind,
    })?;
    Ok(())
}

/// Whether a name of an instance has a cell.
fn is_cell(here: &Here<'_>, kind: VariableKind, name: u32) -> bool
    ensures { result ≡ is_cell (instance_at here.now) kind name }
{
    match kind {
        VariableKind::Variable => true,
        VariableKind::Input => is_main(here.path.as_slice()),
        VariableKind::Output => bound_to(here.bindings, name).is_none(),
        VariableKind::Constant => false,
    }
}

/// Whether a path is that of main.
fn is_main(path: &[u32]) -> bool
    ensures { result ≡ is_main path.now }
{
    match path {
        [] => true,
        [_, ..] => false,
    }
}

/// The first place of a cell.
pub(crate) fn place_of(cells: &[CellName], path: &[u32], name: u32) -> Option<usize>
    ensures { result ≡ position_from (λ c. same_path c.path path.now && nat_eq c.name name) 0 cells.now }
{
    for (place, cell) in cells.iter().enumerate() {
        if is_named(cell, path, name) {
            return Some(place);
        }
    }
    None
}

fn is_named(cell: &CellName, path: &[u32], name: u32) -> bool
    ensures { result ≡ (same_path cell.now.path path.now && nat_eq cell.now.name name) }
{
    same_path(cell.path.as_slice(), path) && cell.name == name
}

/// Whether two paths are the same.
#[tactic(auto, unfolding(uc_meaning::specs::Cells::same_path))]
fn same_path(left: &[u32], right: &[u32]) -> bool
    ensures { result ≡ same_path left.now right.now }
{
    if left.len() != right.len() {
        return false;
    }
    for place in 0..left.len() {
        if left[place] != right[place] {
            return false;
        }
    }
    true
}
