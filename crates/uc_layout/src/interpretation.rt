//! Whether an interpretation is one of a design.

ghost use Rattle.std.specs.Prelude.{◌≡◌, ◌&&◌, IfOk};
ghost use Rattle.std.specs.Bool.{Decides};
ghost use Rattle.std.specs.List.{list_all};
ghost use Rattle.uc_values.specs.Values.{fits};
ghost use Rattle.uc_meaning.specs.Cells.{IsInterpretation};
ghost use Rattle.uc_layout.specs.Fits.{row_fits, table_fits, tables_fit};

use crate::fitting::all_fit;
use crate::{FunctionTypes, constant_types, function_types};
use std::alloc::{AllocError, Global};
use uc_meaning::Interp;
use uc_type_reader::Tables;
use uc_values::{Row, Table, fits};

/// Whether there is a fitting value for each constant and a fitting table for each function.
pub fn is_interpretation(
    alloc: Global,
    tables: &Tables,
    interp: &Interp,
) -> Result<bool, AllocError>
    ensures { IfOk result (λ is. Decides is (IsInterpretation tables.now interp.now)) }
{
    let constants = constant_types(alloc, tables)?;
    if !all_fit(constants.as_slice(), interp.consts.as_slice()) {
        return Ok(false);
    }
    let functions = function_types(alloc, tables)?;
    Ok(tables_fit(functions.as_slice(), interp.tables.as_slice()))
}

#[tactic(auto, unfolding(crate::specs::Fits::tables_fit))]
fn tables_fit(functions: &[FunctionTypes], tables: &[Table]) -> bool
    ensures { result ≡ tables_fit functions.now tables.now }
{
    if functions.len() != tables.len() {
        return false;
    }
    for place in 0..functions.len() {
        if !table_fits(&functions[place], &tables[place]) {
            return false;
        }
    }
    true
}

fn table_fits(function: &FunctionTypes, table: &Table) -> bool
    ensures { result ≡ table_fits function.now table.now }
{
    rows_fit(function, table.rows.as_slice()) && fits(&function.result, &table.default)
}

fn rows_fit(function: &FunctionTypes, rows: &[Row]) -> bool
    ensures { result ≡ list_all (row_fits function.now) rows.now }
{
    for row in rows {
        if !row_fits(function, row) {
            return false;
        }
    }
    true
}

fn row_fits(function: &FunctionTypes, row: &Row) -> bool
    ensures { result ≡ row_fits function.now row.now }
{
    all_fit(function.arguments.as_slice(), row.arguments.as_slice())
        && fits(&function.result, &row.result)
}
