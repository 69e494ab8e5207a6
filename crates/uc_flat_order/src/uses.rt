//! What the statements of a block write and read, and the order that follows from it.

ghost use Rattle.std.specs.Prelude.{◌≡◌, map, IfOk};
ghost use Rattle.uc_flat_expressions.specs.Expressions.{all_of};
ghost use Rattle.uc_flat_order.specs.Uses.{use_of, AreNeeds, IsOrder};

use crate::writers::{needs_of, writers_of};
use std::alloc::{AllocError, Global};
use uc_flat_code::{Part, statement_parts, written_parts};
use uc_flat_expressions::Meant;
use uc_graph::first_free_order;
use uc_items::{Items, beside};
use uc_syntax::Stmt;

/// All parts of cells that a statement writes, or reads in the new state, and those that it writes.
#[derive(Drop)]
pub(crate) struct Uses {
    pub(crate) parts: Items<Part>,
    pub(crate) writes: Items<Part>,
}

/// The places of the statements of a block in the order in which they are run, where the cells of the new state begin with `first`; or
/// nothing, where no order of them keeps each part from being written after it was written, or read in the new state.
pub(crate) fn order_of(
    alloc: Global,
    names: &[Meant],
    first: u32,
    code: &[Stmt],
) -> Result<Option<Items<usize>>, AllocError>
    ensures { IfOk result (IsOrder names.now first code.now) }
{
    let Some(uses) = uses_of(alloc, names, first, code)? else {
        return Ok(None);
    };
    let graph = needs_graph(alloc, uses.as_slice())?;
    first_free_order(alloc, graph.as_slice())
}

/// What each statement uses, where each is at one with itself.
fn uses_of(
    alloc: Global,
    names: &[Meant],
    first: u32,
    code: &[Stmt],
) -> Result<Option<Items<Uses>>, AllocError>
    ensures { IfOk result (λ o. o ≡ all_of (map (use_of names.now first) code.now)) }
{
    let mut all = Items::new(alloc);
    for statement in code {
        match use_of(alloc, names, first, statement)? {
            Some(uses) => all.push(uses)?,
            None => return Ok(None),
        }
    }
    Ok(Some(all))
}

fn use_of(
    alloc: Global,
    names: &[Meant],
    first: u32,
    statement: &Stmt,
) -> Result<Option<Uses>, AllocError>
    ensures { IfOk result (λ o. o ≡ use_of names.now first statement.now) }
{
    let Some(parts) = statement_parts(alloc, names, first, statement)? else {
        return Ok(None);
    };
    let (parts, writes) = beside(parts, written_parts(alloc, names, statement))?;
    Ok(Some(Uses { parts, writes }))
}

/// For each statement those that write what it uses.
fn needs_graph(alloc: Global, uses: &[Uses]) -> Result<Items<Items<usize>>, AllocError>
    ensures { IfOk result (AreNeeds uses.now) }
{
    let writers = writers_of(alloc, uses)?;
    let mut graph = Items::new(alloc);
    for own in uses {
        let needs = needs_of(alloc, uses, &writers, own.parts.as_slice())?;
        graph.push(needs)?;
    }
    Ok(graph)
}
