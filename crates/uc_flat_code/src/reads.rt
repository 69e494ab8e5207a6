//! The cells of the new state that expressions read. Their numbers are those from `first` on.

ghost use Rattle.std.specs.Prelude.{◌≡◌, ◌++◌, IfOk};
ghost use Rattle.std.specs.List.{flat_map};
ghost use Rattle.uc_flat_code.specs.Once.{new_cell, new_cells, read_by, conditions_read};

use crate::once::Part;
use std::alloc::{AllocError, Global};
use uc_flat::Expression;
use uc_flat_expressions::{FlatError, Meant, flat_expression};
use uc_items::Items;
use uc_syntax::{Arm, Expr, Stmt};

/// The parts, and behind them the cell of this number, where it is one of the new state.
fn with_cell(
    alloc: Global,
    first: u32,
    k: u32,
    before: Items<Part>,
) -> Result<Items<Part>, AllocError>
    ensures { IfOk result (λ all. all ≡ before ++ new_cell first k) }
{
    if k < first {
        return Ok(before);
    }
    let mut all = before;
    all.push(Part {
        cell: k - first,
        fields: Items::new(alloc),
    })?;
    Ok(all)
}

/// The parts, and behind them the cells that an expression over cells reads.
#[cycle(with_new_cells)]
#[tactic(auto, using(crate::proofs::NewCells::cell_told, crate::proofs::NewCells::apply_told))]
fn with_new_cells(
    alloc: Global,
    first: u32,
    e: &Expression,
    before: Items<Part>,
) -> Result<Items<Part>, AllocError>
    ensures { IfOk result (λ all. all ≡ before ++ new_cells first e.now) }
{
    match e {
        Expression::Cell(k) => with_cell(alloc, first, *k, before),
        Expression::Apply(_, parts) => with_all_new_cells(alloc, first, parts.as_slice(), before),
    }
}

#[cycle(with_new_cells)]
#[tactic(auto, using(uc_syntax::proofs::Added::added_begin, uc_syntax::proofs::Added::added_more, uc_syntax::proofs::Added::added_end))]
fn with_all_new_cells(
    alloc: Global,
    first: u32,
    parts: &[Expression],
    before: Items<Part>,
) -> Result<Items<Part>, AllocError>
    ensures { IfOk result (λ all. all ≡ before ++ flat_map (new_cells first) parts.now) }
{
    let mut all = before;
    for part in parts {
        all = with_new_cells(alloc, first, part, all)?;
    }
    Ok(all)
}

/// The parts, and behind them what an expression of the design reads.
pub(crate) fn with_reads(
    alloc: Global,
    names: &[Meant],
    first: u32,
    e: &Expr,
    before: Items<Part>,
) -> Result<Items<Part>, AllocError>
    ensures { IfOk result (λ all. all ≡ before ++ read_by names.now first e.now) }
{
    match flat_expression(alloc, names, e) {
        Ok(t) => with_new_cells(alloc, first, &t.expression, before),
        Err(FlatError::NotBuilt) => Ok(before),
        Err(FlatError::NoMemory) => Err(AllocError),
    }
}

/// The parts, and behind them what all sources of an assignment read.
#[tactic(auto, using(uc_syntax::proofs::Added::added_begin, uc_syntax::proofs::Added::added_more, uc_syntax::proofs::Added::added_end))]
pub(crate) fn with_sources(
    alloc: Global,
    names: &[Meant],
    first: u32,
    sources: &[Expr],
    before: Items<Part>,
) -> Result<Items<Part>, AllocError>
    ensures { IfOk result (λ all. all ≡ before ++ flat_map (read_by names.now first) sources.now) }
{
    let mut all = before;
    for source in sources {
        all = with_reads(alloc, names, first, source, all)?;
    }
    Ok(all)
}

/// The parts, and behind them what the conditions of all arms read.
#[tactic(auto, using(uc_syntax::proofs::Added::added_begin, uc_syntax::proofs::Added::added_more, uc_syntax::proofs::Added::added_end))]
pub(crate) fn with_conditions(
    alloc: Global,
    names: &[Meant],
    first: u32,
    arms: &[Arm<Stmt>],
    before: Items<Part>,
) -> Result<Items<Part>, AllocError>
    ensures { IfOk result (λ all. all ≡ before ++ conditions_read names.now first arms.now) }
{
    let mut all = before;
    for arm in arms {
        all = with_reads(alloc, names, first, &arm.condition, all)?;
    }
    Ok(all)
}
