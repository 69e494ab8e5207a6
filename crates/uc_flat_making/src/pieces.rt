//! The design over cells by its cells and by what its names stand for.

ghost use Rattle.std.specs.Prelude.{◌≡◌, ◌++◌, [], Some, map, length, IfOk};
ghost use Rattle.uc_flat_expressions.specs.Answers.{IsAnswer};
ghost use Rattle.uc_flat_code.specs.CellTypes.{cell_type_of};
ghost use Rattle.uc_flat_design.specs.Next.{inputs_from, step_code};
ghost use Rattle.uc_flat_design.specs.Design.{flat_cell};
ghost use Rattle.uc_flat_making.specs.Made.{full, flat_over, next_once, made_over};

use crate::OwnCell;
use crate::blocks::{made_init, next_code};
use crate::names::names_between;
use crate::parts::{Conditions, all_conditions, inputs};
use std::alloc::{AllocError, Global};
use uc_flat::{Cell, Flat, Statement};
use uc_flat_code::{MadeCode, Writing};
use uc_flat_expressions::{FlatError, Meant};
use uc_items::Items;
use uc_syntax::{Module, VariableKind};
use uc_type_reader::Tables;
use uc_values::copy_ty;

/// The cells, each with its name and its type, of main itself.
fn flat_cells(alloc: Global, cells: &[OwnCell]) -> Result<Items<Cell>, AllocError>
    ensures { IfOk result (λ all. all ≡ map flat_cell (map full cells.now)) }
{
    let mut all = Items::new(alloc);
    for cell in cells {
        let made = flat_cell(alloc, cell)?;
        all.push(made)?;
    }
    Ok(all)
}

fn flat_cell(alloc: Global, cell: &OwnCell) -> Result<Cell, AllocError>
    ensures { IfOk result (λ c. c ≡ flat_cell (full cell.now)) }
{
    let ty = copy_ty(alloc, &cell.ty)?;
    Ok(Cell {
        path: Items::new(alloc),
        name: cell.name,
        ty,
    })
}

fn kinds_of(alloc: Global, cells: &[OwnCell]) -> Result<Items<VariableKind>, AllocError>
    ensures { IfOk result (λ kinds. map (λ c. c.kind) (map full cells.now) ≡ kinds) }
{
    let mut kinds = Items::new(alloc);
    for cell in cells {
        kinds.push(cell.kind)?;
    }
    Ok(kinds)
}

/// The code in which the inputs get any values.
fn input_code(alloc: Global, cells: &[OwnCell], count: u32) -> Result<Items<Statement>, FlatError>
    ensures { IsAnswer (Some (inputs_from count (map full cells.now))) result }
{
    let kinds = kinds_of(alloc, cells)?;
    inputs(alloc, kinds.as_slice(), count)
}

/// A step's code.
fn step_code(
    alloc: Global,
    cells: &[OwnCell],
    count: u32,
    next: Items<Statement>,
) -> Result<Items<Statement>, FlatError>
    ensures { IsAnswer (Some (inputs_from count (map full cells.now) ++ next)) result }
{
    let mut code = input_code(alloc, cells, count)?;
    code.append(next)?;
    Ok(code)
}

/// The design over cells but for its constants.
fn flat_over(
    alloc: Global,
    cells: &[OwnCell],
    count: u32,
    init: MadeCode,
    next: Items<Statement>,
    conditions: Conditions,
) -> Result<Flat, FlatError>
    requires { count ≡ length (map full cells.now) }
    ensures { IsAnswer (Some (flat_over (map full cells.now) [] init next conditions)) result }
{
    let step = step_code(alloc, cells, count, next)?;
    let cells = flat_cells(alloc, cells)?;
    Ok(Flat {
        cells,
        constants: Items::new(alloc),
        functions: Items::new(alloc),
        further: init.further,
        init: init.code,
        step,
        sites: Items::new(alloc),
        formulas: conditions.formulas,
        axioms: conditions.axioms,
    })
}

/// The code of the `next` block, where it writes no part of a cell on a way after it was written there, or read in the new state.
fn next_once(
    alloc: Global,
    names: &[Meant],
    cells: &[OwnCell],
    count: u32,
    code: &Module,
) -> Result<Items<Statement>, FlatError>
    requires { count ≡ length (map full cells.now) }
    ensures { IsAnswer (next_once names.now (map full cells.now) code.now) result }
{
    let writing = Writing {
        primed: true,
        shift: count,
    };
    let names = names_between(alloc, names, count)?;
    next_code(alloc, names.as_slice(), writing, code)
}

/// How many cells there are. Their numbers are below 2^32: more count as want of memory.
#[tactic(auto, using(crate::proofs::Lengths::same_length))]
fn count_of(cells: &[OwnCell]) -> Result<u32, AllocError>
    ensures { IfOk result (λ count. count ≡ length (map full cells.now)) }
{
    match u32::try_from(cells.len()) {
        Ok(count) => Ok(count),
        Err(_) => Err(AllocError),
    }
}

/// The design over cells by its cells and by what its names stand for, but for its constants.
pub(crate) fn made_over(
    alloc: Global,
    tables: &Tables,
    names: &[Meant],
    cells: &[OwnCell],
    code: &Module,
) -> Result<Flat, FlatError>
    ensures { IsAnswer (made_over (cell_type_of tables.now code.now) names.now (map full cells.now) [] code.now) result }
{
    let count = count_of(cells)?;
    let init = made_init(alloc, tables, code, names, count)?;
    let next = next_once(alloc, names, cells, count, code)?;
    let conditions = all_conditions(alloc, names, code.decls.as_slice())?;
    flat_over(alloc, cells, count, init, next, conditions)
}
