//! The tests of a design, and what is made of it.

ghost use Rattle.std.specs.Prelude.{◌≡◌, ◌∷◌, [], true, IfOk};
ghost use Rattle.std.specs.List.{list_all};
ghost use Rattle.uc_meaning.specs.Cells.{cells_of};
ghost use Rattle.uc_flat_expressions.specs.Answers.{IsAnswer};
ghost use Rattle.uc_flat_code.specs.CellTypes.{cell_type_of};
ghost use Rattle.uc_flat_design.specs.Names.{StandsAlone, names_over_cells, flat_constants};
ghost use Rattle.uc_flat_design.specs.Design.{is_built};
ghost use Rattle.uc_flat_making.specs.Made.{IsMade, made_over, made_with, made_typed, made, made_whole};

use crate::parts::are_built;
use crate::pieces::made_over;
use crate::types::are_cell_types;
use crate::{cell_types_of, constant_types_of, constants_of, names_table, own_cells};
use std::alloc::{AllocError, Global};
use uc_flat::Flat;
use uc_flat_expressions::FlatError;
use uc_syntax::Module;
use uc_type_reader::Tables;

/// The design over numbered cells of a design, where this is one of one module whose declarations, types, code, axioms and invariants are built, and
/// the statements of whose next block have an order in which no part of a cell is written on a way after it was written there, or read in
/// the new state.
pub fn flat_design(alloc: Global, tables: &Tables) -> Result<Flat, FlatError>
    ensures { IsMade tables.now result }
{
    let system = tables.system();
    of_modules(alloc, tables, system.main, system.modules)
}

/// The design over cells of the modules of a design.
#[tactic(auto, using(crate::proofs::Answered::not_first, crate::proofs::Answered::not_one, crate::proofs::Answered::one_item, crate::proofs::Answered::of_one))]
fn of_modules(
    alloc: Global,
    tables: &Tables,
    main: u32,
    modules: &[Module],
) -> Result<Flat, FlatError>
    requires main { main ≡ tables.now.main }
    requires modules { modules.now ≡ tables.now.modules }
    ensures { IsAnswer (made_whole tables.now) result }
{
    if main != 0 {
        return Err(FlatError::NotBuilt);
    }
    if modules.len() != 1 {
        return Err(FlatError::NotBuilt);
    }
    of_module(alloc, tables, &modules[0])
}

/// The design over cells of the one module.
fn of_module(alloc: Global, tables: &Tables, code: &Module) -> Result<Flat, FlatError>
    requires only { tables.now.modules ≡ code.now ∷ [] }
    requires first { tables.now.main ≡ 0 }
    ensures { IsAnswer (made tables.now code.now) result }
{
    if !are_built(code.decls.as_slice()) {
        return Err(FlatError::NotBuilt);
    }
    of_declarations(alloc, tables, code)
}

/// The same, where all declarations are built.
fn of_declarations(alloc: Global, tables: &Tables, code: &Module) -> Result<Flat, FlatError>
    requires only { tables.now.modules ≡ code.now ∷ [] }
    requires first { tables.now.main ≡ 0 }
    requires built { list_all is_built code.now.decls ≡ true }
    ensures { IsAnswer (made_typed tables.now code.now) result }
{
    let types = cell_types_of(alloc, tables, code)?;
    if !are_cell_types(types.as_slice()) {
        return Err(FlatError::NotBuilt);
    }
    with_constants(alloc, tables, code)
}

/// The same, where the types of all cells are built too.
fn with_constants(alloc: Global, tables: &Tables, code: &Module) -> Result<Flat, FlatError>
    requires { StandsAlone tables.now code.now }
    ensures { IsAnswer (made_with tables.now code.now) result }
{
    let types = constant_types_of(alloc, tables, code)?;
    if !are_cell_types(types.as_slice()) {
        return Err(FlatError::NotBuilt);
    }
    let flat = over_cells(alloc, tables, code)?;
    let flat = constants_added(alloc, tables, code, flat)?;
    Ok(flat)
}

/// The same but for its constants, where the types of these are built too.
fn over_cells(alloc: Global, tables: &Tables, code: &Module) -> Result<Flat, FlatError>
    requires { StandsAlone tables.now code.now }
    ensures { IsAnswer (made_over (cell_type_of tables.now code.now) (names_over_cells tables.now code.now) (cells_of tables.now) [] code.now) result }
{
    let names = names_table(alloc, tables, code)?;
    let cells = own_cells(alloc, tables, code)?;
    made_over(alloc, tables, names.as_slice(), cells.as_slice(), code)
}

/// A design over cells with the constants of the module.
fn constants_added(
    alloc: Global,
    tables: &Tables,
    code: &Module,
    mut flat: Flat,
) -> Result<Flat, AllocError>
    requires { StandsAlone tables.now code.now }
    ensures { IfOk result (λ f. f ≡ record flat { constants = flat_constants tables.now }) }
{
    flat.constants = constants_of(alloc, tables, code)?;
    Ok(flat)
}
