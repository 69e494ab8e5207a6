//! The graph.

ghost use Rattle.std.specs.Prelude.{◌≡◌, IfOk};
ghost use Rattle.uc_step_cycles.specs.Edges.{HasEdges};
ghost use Rattle.uc_step_cycles.specs.Building.{HasAllEdges, all_edges};

use crate::Block;
use crate::block_edges::add_blocks;
use crate::numbers::{Bases, Names, bases_of, sum};
use crate::reads::add_uses;
use std::alloc::{AllocError, Global};
use uc_graph::Lists;
use uc_items::{Items, beside};
use uc_uses::UseGraph;

/// The graph, and the first number of each block of the tree.
#[derive(Drop)]
pub struct StepGraph {
    pub bases: Items<usize>,
    pub graph: Lists,
}

/// The graph of a tree.
pub fn step_graph(
    alloc: Global,
    names: &Names<'_, '_>,
    uses: &UseGraph,
    blocks: &[Block],
) -> Result<StepGraph, AllocError>
    ensures { IfOk result (λ g. HasAllEdges names.now uses.now blocks.now g) }
{
    let start = sum(names.cells.count(), uses.uses().len())?;
    let behind = sum(start, 1)?;
    let bases = bases_of(alloc, behind, blocks)?;
    let Bases { bases, total } = bases;
    let graph = edges_of(alloc, names, uses, bases.as_slice(), total, blocks);
    let (bases, graph) = beside(bases, graph)?;
    Ok(StepGraph { bases, graph })
}

fn edges_of(
    alloc: Global,
    names: &Names<'_, '_>,
    uses: &UseGraph,
    bases: &[usize],
    total: usize,
    blocks: &[Block],
) -> Result<Lists, AllocError>
    ensures { IfOk result (λ g. HasEdges g total (all_edges names.now uses.now bases.now blocks.now)) }
{
    let mut graph = Lists::new(alloc, total)?;
    let start = names.cells.count();
    add_uses(names, start, uses.uses(), uses.names(), &mut graph)?;
    add_blocks(names, bases, blocks, &mut graph)?;
    Ok(graph)
}
