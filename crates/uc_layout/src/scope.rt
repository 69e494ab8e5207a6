//! The scope of main in a state.

ghost use Rattle.std.specs.Prelude.{◌≡◌, [], IfOk};
ghost use Rattle.uc_meaning.specs.Steps.{scope_of, state_of};

use std::alloc::{AllocError, Global};
use uc_items::{Items, beside};
use uc_meaning::{Interp, Path, Scope, State};
use uc_values::{Row, Table, Value, copy, copy_all};

/// The same interpretation again.
pub fn copy_interp(alloc: Global, interp: &Interp) -> Result<Interp, AllocError>
    ensures { IfOk result (λ i. i ≡ interp.now) }
{
    let consts = copy_all(alloc, interp.consts.as_slice())?;
    let (consts, tables) = beside(consts, copy_tables(alloc, interp.tables.as_slice()))?;
    Ok(Interp { consts, tables })
}

fn copy_tables(alloc: Global, tables: &[Table]) -> Result<Items<Table>, AllocError>
    ensures { IfOk result (λ ts. ts ≡ tables.now) }
{
    let mut copies = Items::new(alloc);
    for table in tables {
        copies.push(copy_table(alloc, table)?)?;
    }
    Ok(copies)
}

fn copy_table(alloc: Global, table: &Table) -> Result<Table, AllocError>
    ensures { IfOk result (λ t. t ≡ table.now) }
{
    let rows = copy_rows(alloc, table.rows.as_slice())?;
    let (rows, default) = beside(rows, copy(alloc, &table.default))?;
    Ok(Table { rows, default })
}

fn copy_rows(alloc: Global, rows: &[Row]) -> Result<Items<Row>, AllocError>
    ensures { IfOk result (λ rs. rs ≡ rows.now) }
{
    let mut copies = Items::new(alloc);
    for row in rows {
        copies.push(copy_row(alloc, row)?)?;
    }
    Ok(copies)
}

fn copy_row(alloc: Global, row: &Row) -> Result<Row, AllocError>
    ensures { IfOk result (λ r. r ≡ row.now) }
{
    let arguments = copy_all(alloc, row.arguments.as_slice())?;
    let (arguments, result) = beside(arguments, copy(alloc, &row.result))?;
    Ok(Row { arguments, result })
}

/// The scope of main in the state with these cells.
pub fn main_scope(alloc: Global, interp: &Interp, cells: &[Value]) -> Result<Scope, AllocError>
    ensures { IfOk result (λ s. s ≡ scope_of interp.now [] (state_of cells.now)) }
{
    let cells = copy_all(alloc, cells)?;
    let (cells, interp) = beside(cells, copy_interp(alloc, interp))?;
    Ok(Scope {
        path: Path::main(alloc),
        before: State { cells },
        after: None,
        at_entry: None,
        copies: Items::new(alloc),
        locals: Items::new(alloc),
        interp,
    })
}
