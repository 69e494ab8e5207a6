//! The cells of a module that stands alone.

ghost use Rattle.std.specs.Prelude.{◌≡◌, ℕ, ◌++◌, nat_eq, map, OnOk, IfOk};
ghost use Rattle.std.specs.List.{flat_map, position_from};
ghost use Rattle.indexmap.specs.IndexMap.{get};
ghost use Rattle.uc_meaning.specs.Types.{type_of_written};
ghost use Rattle.uc_flat_design.specs.Names.{StandsAlone, types_of};
ghost use Rattle.uc_flat_making.specs.Cells.{has_cells, cell_of_name, declared_cells, own_cells};

use std::alloc::{AllocError, Global};
use uc_items::Items;
use uc_names::Firsts;
use uc_syntax::{Decl, Identifier, Module, VariableKind};
use uc_type_reader::{Tables, type_of_written};
use uc_values::{Ty, copy_ty};

/// A cell of main: its name, its kind and its type.
#[derive(Drop)]
pub struct OwnCell {
    pub name: u32,
    pub kind: VariableKind,
    pub ty: Ty,
}

/// The types of the cells of a design of one module, in order.
#[tactic(auto, using(crate::proofs::Declared::types_are))]
pub fn cell_types_of(alloc: Global, tables: &Tables, code: &Module) -> Result<Items<Ty>, AllocError>
    requires { StandsAlone tables.now code.now }
    ensures { IfOk result (λ types. types ≡ types_of tables.now) }
{
    let cells = own_cells(alloc, tables, code)?;
    types_in(alloc, cells)
}

fn types_in(alloc: Global, cells: Items<OwnCell>) -> Result<Items<Ty>, AllocError>
    ensures { IfOk result (λ types. types ≡ map (λ c. c.ty) cells) }
{
    let mut types = Items::new(alloc);
    for cell in cells.into_vec() {
        types.push(cell.ty)?;
    }
    Ok(types)
}

/// The cells that a module declares, in order.
#[tactic(auto, using(uc_syntax::proofs::Added::added_begin, uc_syntax::proofs::Added::added_more, uc_syntax::proofs::Added::added_end))]
pub fn own_cells(
    alloc: Global,
    tables: &Tables,
    code: &Module,
) -> Result<Items<OwnCell>, AllocError>
    ensures { IfOk result (λ cells. cells ≡ own_cells tables.now code.now) }
{
    let mut cells = Items::new(alloc);
    for decl in code.decls.as_slice() {
        add_declared(alloc, tables, code, decl, &mut cells)?;
    }
    Ok(cells)
}

#[tactic(auto, using(uc_syntax::proofs::Added::append_nil))]
fn add_declared(
    alloc: Global,
    tables: &Tables,
    code: &Module,
    decl: &Decl,
    cells: &mut Items<OwnCell>,
) -> Result<(), AllocError>
    ensures { OnOk result (cells.new ≡ cells.old ++ declared_cells tables.now code.now decl.now) }
{
    match decl {
        Decl::Variables(_, kind, names, ty) => {
            if !has_cells(*kind) {
                return Ok(());
            }
            let ty = type_of_written(alloc, tables, code, ty)?;
            add_cells(alloc, *kind, &ty, names.as_slice(), cells)?;
            Ok(())
        }
        _ => Ok(()),
    }
}

/// Whether names of a kind have cells in main.
pub(crate) fn has_cells(kind: VariableKind) -> bool
    ensures { result ≡ has_cells kind }
{
    !matches!(kind, VariableKind::Constant)
}

#[tactic(auto, using(uc_syntax::proofs::Added::added_begin, uc_syntax::proofs::Added::added_more, uc_syntax::proofs::Added::added_end))]
fn add_cells(
    alloc: Global,
    kind: VariableKind,
    ty: &Ty,
    names: &[Identifier],
    cells: &mut Items<OwnCell>,
) -> Result<(), AllocError>
    ensures { OnOk result (cells.new ≡ cells.old ++ flat_map (cell_of_name kind ty.now) names.now) }
{
    for identifier in names {
        add_cell(alloc, kind, ty, identifier, cells)?;
    }
    Ok(())
}

fn add_cell(
    alloc: Global,
    kind: VariableKind,
    ty: &Ty,
    identifier: &Identifier,
    cells: &mut Items<OwnCell>,
) -> Result<(), AllocError>
    ensures { OnOk result (cells.new ≡ cells.old ++ cell_of_name kind ty.now identifier.now) }
{
    let ty = copy_ty(alloc, ty)?;
    cells.push(OwnCell {
        name: identifier.name,
        kind,
        ty,
    })?;
    Ok(())
}

/// The number of the first cell of each name.
#[tactic(auto, using(crate::proofs::Entered::placed_begin, crate::proofs::Entered::placed_more, crate::proofs::Entered::placed_end))]
pub(crate) fn places_of(alloc: Global, cells: &[OwnCell]) -> Result<Firsts<usize>, AllocError>
    ensures { IfOk result (λ t. (x : ℕ) → get nat_eq t.things x ≡ position_from (λ c. nat_eq c.name x) 0 cells.now) }
{
    let mut places = Firsts::new(alloc);
    for (place, cell) in cells.iter().enumerate() {
        places.enter(cell.name, Some(place))?;
    }
    Ok(places)
}
