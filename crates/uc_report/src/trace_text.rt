//! The text of a counterexample.

ghost use Rattle.std.specs.Prelude.{◌≡◌, ◌++◌, OnOk, IfOk};
ghost use Rattle.std.specs.Option.{option_copied, option_map};
ghost use Rattle.std.specs.List.{flat_map};
ghost use Rattle.uc_report.specs.Described.{described};
ghost use Rattle.uc_report.specs.TraceText.{held_text, shown_text, cell_text, state_text, states_text, first_copy, cex_text};
ghost use Rattle.uc_report.specs.TraceTables.{AreCexTables, IsShown};

use crate::cell::CellRef;
use crate::interpretation::put_interpretation;
use crate::shown::ShownDesign;
use crate::trace_tables::CexTables;
use crate::values::put_fitting;
use crate::{DesignView, put, put_head, put_number, put_path};
use std::alloc::{AllocError, Global};
use uc_flat::Cell;
use uc_items::at;
use uc_meaning::{Choices, Line, State, Trace};
use uc_values::Value;

/// The text of a counterexample of a line: `CEX for ` and the head of the line, the constants, and then the cells in each state of the
/// first copy.
pub fn cex_text(
    alloc: Global,
    d: &ShownDesign<'_>,
    line: &Line,
    trace: &Trace,
    cells: &[CellRef],
) -> Result<Vec<u8>, AllocError>
    requires { IsShown d.now }
    ensures { IfOk result (λ text. text.items ≡ cex_text (described d.now.view) line.now trace.now cells.now) }
{
    let tables = CexTables::of(alloc, d)?;
    let mut text = Vec::new(alloc);
    put_cex(&mut text, &d.view, &tables, line, trace, cells)?;
    Ok(text)
}

/// Puts a counterexample of a line.
#[tactic(auto, unfolding(crate::specs::TraceText::cex_text))]
pub fn put_cex(
    out: &mut Vec<u8>,
    d: &DesignView<'_>,
    tables: &CexTables<'_>,
    line: &Line,
    trace: &Trace,
    cells: &[CellRef],
) -> Result<(), AllocError>
    requires { AreCexTables (described d.now) tables.now }
    ensures { OnOk result (out.new.items ≡ out.old.items ++ cex_text (described d.now) line.now trace.now cells.now) }
{
    put(out, b"CEX for ")?;
    put_head(out, d, &tables.heads, line)?;
    put(out, b"\n")?;
    put_interpretation(out, d, tables, &trace.interp)?;
    put_states(out, d, tables, cells, first_copy(trace))?;
    Ok(())
}

/// The states of the first copy, none where there is no copy.
fn first_copy(trace: &Trace) -> &[(State, Choices)]
    ensures { result.now ≡ first_copy trace.now }
{
    match at(trace.copies.as_slice(), 0) {
        Some(states) => states.as_slice(),
        None => &[],
    }
}

/// Puts states, numbered from 0.
fn put_states(
    out: &mut Vec<u8>,
    d: &DesignView<'_>,
    tables: &CexTables<'_>,
    cells: &[CellRef],
    states: &[(State, Choices)],
) -> Result<(), AllocError>
    requires { AreCexTables (described d.now) tables.now }
    ensures { OnOk result (out.new.items ≡ out.old.items ++ states_text (described d.now) cells.now 0 states.now) }
{
    for place in 0..states.len() {
        put_state(out, d, tables, cells, place, &states[place].0)?;
    }
    Ok(())
}

/// Puts the number of a state and the cells that are shown.
#[tactic(auto, unfolding(crate::specs::TraceText::state_text))]
fn put_state(
    out: &mut Vec<u8>,
    d: &DesignView<'_>,
    tables: &CexTables<'_>,
    cells: &[CellRef],
    place: usize,
    state: &State,
) -> Result<(), AllocError>
    requires { AreCexTables (described d.now) tables.now }
    ensures { OnOk result (out.new.items ≡ out.old.items ++ state_text (described d.now) cells.now place state.now) }
{
    put(out, b"  state ")?;
    put_number(out, place as u64)?;
    put(out, b"\n")?;
    put_cells(out, d, tables, cells, state)?;
    Ok(())
}

/// Puts the cells of a state that are shown.
fn put_cells(
    out: &mut Vec<u8>,
    d: &DesignView<'_>,
    tables: &CexTables<'_>,
    cells: &[CellRef],
    state: &State,
) -> Result<(), AllocError>
    requires { AreCexTables (described d.now) tables.now }
    ensures { OnOk result (out.new.items ≡ out.old.items ++ flat_map (cell_text (described d.now) state.now) cells.now) }
{
    for cell in cells {
        put_cell(out, d, tables, cell, state)?;
    }
    Ok(())
}

/// Puts a cell by its path and its name, with its value.
#[tactic(auto, unfolding(crate::specs::TraceText::cell_text))]
fn put_cell(
    out: &mut Vec<u8>,
    d: &DesignView<'_>,
    tables: &CexTables<'_>,
    cell: &CellRef,
    state: &State,
) -> Result<(), AllocError>
    requires { AreCexTables (described d.now) tables.now }
    ensures { OnOk result (out.new.items ≡ out.old.items ++ cell_text (described d.now) state.now cell.now) }
{
    let path = cell.path.as_slice();
    put(out, b"    ")?;
    put_path(out, d, path)?;
    put(out, d.name(cell.name))?;
    put(out, b" = ")?;
    let place = tables.place_of(d, path, cell.name);
    put_held(out, d, tables, place, state)?;
    put(out, b"\n")?;
    Ok(())
}

/// Puts the value that a state has at a place, nothing where there is none.
#[tactic(auto, using(crate::proofs::Held::held_there))]
fn put_held(
    out: &mut Vec<u8>,
    d: &DesignView<'_>,
    tables: &CexTables<'_>,
    place: Option<usize>,
    state: &State,
) -> Result<(), AllocError>
    requires { AreCexTables (described d.now) tables.now }
    ensures { OnOk result (out.new.items ≡ out.old.items ++ held_text (described d.now) state.now place) }
{
    match place {
        Some(place) => {
            let cell = at(tables.cells, place);
            let value = at(state.cells.as_slice(), place);
            put_shown(out, d, tables, cell, value)
        }
        None => Ok(()),
    }
}

/// Puts the value of a cell, nothing where either is missing.
fn put_shown(
    out: &mut Vec<u8>,
    d: &DesignView<'_>,
    tables: &CexTables<'_>,
    cell: Option<&Cell>,
    value: Option<&Value>,
) -> Result<(), AllocError>
    requires { AreCexTables (described d.now) tables.now }
    ensures { OnOk result (out.new.items ≡ out.old.items ++ shown_text (described d.now) (option_map (λ c. c.ty) (option_copied cell.entry)) (option_copied value.entry)) }
{
    match (cell, value) {
        (Some(cell), Some(value)) => put_fitting(out, d, tables, &cell.ty, value),
        _ => Ok(()),
    }
}
