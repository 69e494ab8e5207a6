//! The cells of a state, with their types.

ghost use Rattle.std.specs.Prelude.{◌≡◌, ◌++◌, map, IfOk, OnOk};
ghost use Rattle.std.specs.List.{flat_map};
ghost use Rattle.uc_meaning.specs.Cells.{cells_of, cells_in, is_cell, is_main};
ghost use Rattle.uc_layout.specs.Instances.{instance_meant, cell_meant, cells_at, named_cell};

use crate::instance::{InstanceRef, instances};
use std::alloc::{AllocError, Global};
use uc_items::{Items, beside};
use uc_lookup::bound_to;
use uc_syntax::{Decl, Identifier, TypeExpr, VariableKind};
use uc_type_reader::{Tables, type_of_written};
use uc_values::Ty;

/// A cell of a state: where it is declared, and its type.
#[derive(Drop)]
pub struct Cell {
    pub path: Items<u32>,
    pub name: u32,
    pub kind: VariableKind,
    pub ty: Ty,
}

/// The cells of a state, in their order.
#[tactic(auto, using(uc_syntax::proofs::Added::added_begin, uc_syntax::proofs::Added::added_more))]
pub fn cells(alloc: Global, tables: &Tables) -> Result<Items<Cell>, AllocError>
    ensures { IfOk result (λ cs. map cell_meant cs ≡ cells_of tables.now) }
{
    let all = instances(alloc, &tables.system())?;
    let mut cells = Items::new(alloc);
    for here in all.as_slice() {
        add_cells_at(alloc, tables, here, &mut cells)?;
    }
    Ok(cells)
}

/// The types of the cells, in their order.
pub fn cell_types(alloc: Global, tables: &Tables) -> Result<Items<Ty>, AllocError>
    ensures { IfOk result (λ ts. ts ≡ map (λ c. c.type) (cells_of tables.now)) }
{
    let cells = cells(alloc, tables)?;
    types_of(alloc, cells)
}

fn types_of(alloc: Global, cells: Items<Cell>) -> Result<Items<Ty>, AllocError>
    ensures { IfOk result (λ ts. ts ≡ map (λ c. c.ty) cells) }
{
    let mut types = Items::new(alloc);
    for cell in cells.into_vec() {
        types.push(cell.ty)?;
    }
    Ok(types)
}

/// Adds the cells of an instance.
#[tactic(auto, using(uc_syntax::proofs::Added::added_begin, uc_syntax::proofs::Added::added_more))]
fn add_cells_at(
    alloc: Global,
    tables: &Tables,
    here: &InstanceRef<'_>,
    cells: &mut Items<Cell>,
) -> Result<(), AllocError>
    ensures { OnOk result (map cell_meant cells.new ≡ map cell_meant cells.old ++ cells_at tables.now (instance_meant here.now)) }
{
    for decl in here.code.decls.as_slice() {
        add_cells_in(alloc, tables, here, decl, cells)?;
    }
    Ok(())
}

fn add_cells_in(
    alloc: Global,
    tables: &Tables,
    here: &InstanceRef<'_>,
    decl: &Decl,
    cells: &mut Items<Cell>,
) -> Result<(), AllocError>
    ensures { OnOk result (map cell_meant cells.new ≡ map cell_meant cells.old ++ cells_in tables.now (instance_meant here.now) decl.now) }
{
    match decl {
        Decl::Variables(_, kind, names, ty) => {
            add_cells(alloc, tables, here, *kind, names.as_slice(), ty, cells)?;
            Ok(())
        }
        _ => Ok(()),
    }
}

#[tactic(auto, using(uc_syntax::proofs::Added::added_begin, uc_syntax::proofs::Added::added_more))]
fn add_cells(
    alloc: Global,
    tables: &Tables,
    here: &InstanceRef<'_>,
    kind: VariableKind,
    names: &[Identifier],
    ty: &TypeExpr,
    cells: &mut Items<Cell>,
) -> Result<(), AllocError>
    ensures { OnOk result (map cell_meant cells.new ≡ map cell_meant cells.old ++ flat_map (λ i. named_cell tables.now (instance_meant here.now) kind ty.now i.name) names.now) }
{
    for identifier in names {
        add_cell(alloc, tables, here, kind, identifier.name, ty, cells)?;
    }
    Ok(())
}

fn add_cell(
    alloc: Global,
    tables: &Tables,
    here: &InstanceRef<'_>,
    kind: VariableKind,
    name: u32,
    ty: &TypeExpr,
    cells: &mut Items<Cell>,
) -> Result<(), AllocError>
    ensures { OnOk result (map cell_meant cells.new ≡ map cell_meant cells.old ++ named_cell tables.now (instance_meant here.now) kind ty.now name) }
{
    if !is_cell(here, kind, name) {
        return Ok(());
    }
    let ty = type_of_written(alloc, tables, here.code, ty)?;
    let (ty, path) = beside(ty, Items::from_slice(alloc, here.path.as_slice()))?;
    cells.push(Cell {
        path,
        name,
        kind,
        ty,
    })
}

/// Whether a name of an instance has a cell.
fn is_cell(here: &InstanceRef<'_>, kind: VariableKind, name: u32) -> bool
    ensures { result ≡ is_cell (instance_meant here.now) kind name }
{
    match kind {
        VariableKind::Variable => true,
        VariableKind::Input => is_main(here.path.as_slice()),
        VariableKind::Output => bound_to(here.bindings, name).is_none(),
        VariableKind::Constant => false,
    }
}

/// Whether a path is that of main.
fn is_main(path: &[u32]) -> bool
    ensures { result ≡ is_main path.now }
{
    match path {
        [] => true,
        [_, ..] => false,
    }
}
