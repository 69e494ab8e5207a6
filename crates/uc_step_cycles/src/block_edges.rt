//! Edges of what blocks do.

ghost use Rattle.std.specs.Prelude.{◌≡◌, ◌+◌, ◌++◌, length, slice_index_or, OnOk};
ghost use Rattle.uc_step_cycles.specs.Edges.{AddsEdges};
ghost use Rattle.uc_step_cycles.specs.Building.{act_edges, acts_edges, block_edges, blocks_edges, context_edges, contexts_edges, step_edges, writing_edges};

use crate::adding::{add_edge, add_to};
use crate::numbers::{Names, base_at, sum};
use crate::reads::{add_reads, add_writes};
use crate::{Act, Block, Context, Writing};
use std::alloc::AllocError;
use uc_graph::Lists;

/// Where a block is: its node in the tree, and its first number.
#[derive(Clone, Copy)]
pub(crate) struct Spot {
    pub(crate) node: usize,
    pub(crate) base: usize,
}

/// Adds the edges of a condition: to what is around it, and to what it reads primed.
fn add_context(
    names: &Names<'_, '_>,
    spot: Spot,
    number: usize,
    context: &Context,
    graph: &mut Lists,
) -> Result<(), AllocError>
    ensures { OnOk result (AddsEdges graph.old graph.new (context_edges names.now spot number context.now)) }
{
    let place = sum(number, 1)?;
    let from = sum(spot.base, place)?;
    let around = sum(spot.base, context.around)?;
    add_edge(from, around, graph)?;
    add_reads(names, spot.node, from, context.reads.as_slice(), graph)?;
    Ok(())
}

fn add_contexts(
    names: &Names<'_, '_>,
    spot: Spot,
    contexts: &[Context],
    graph: &mut Lists,
) -> Result<(), AllocError>
    ensures { OnOk result (AddsEdges graph.old graph.new (contexts_edges names.now spot contexts.now)) }
{
    for (number, context) in contexts.iter().enumerate() {
        add_context(names, spot, number, context, graph)?;
    }
    Ok(())
}

/// Adds the edges of a statement: to what is around it and what it reads primed, and from the cells that it writes.
fn add_writing(
    names: &Names<'_, '_>,
    spot: Spot,
    number: usize,
    writing: &Writing,
    graph: &mut Lists,
) -> Result<(), AllocError>
    ensures { OnOk result (AddsEdges graph.old graph.new (writing_edges names.now spot number writing.now)) }
{
    let around = sum(spot.base, writing.around)?;
    add_edge(number, around, graph)?;
    add_reads(names, spot.node, number, writing.reads.as_slice(), graph)?;
    add_writes(names, spot.node, number, writing.written.as_slice(), graph)?;
    Ok(())
}

/// Adds the edge from what is around the block of an instance to what is around a step of it.
fn add_step(
    names: &Names<'_, '_>,
    bases: &[usize],
    spot: Spot,
    instance: u32,
    around: usize,
    graph: &mut Lists,
) -> Result<(), AllocError>
    ensures { OnOk result (AddsEdges graph.old graph.new (step_edges names.now bases.now spot instance around)) }
{
    let to = sum(spot.base, around)?;
    match names.tree.instance(spot.node, instance) {
        None => Ok(()),
        Some(None) => Ok(()),
        Some(Some(below)) => {
            add_edge(base_at(bases, below), to, graph)?;
            Ok(())
        }
    }
}

fn add_act(
    names: &Names<'_, '_>,
    bases: &[usize],
    spot: Spot,
    number: usize,
    act: &Act,
    graph: &mut Lists,
) -> Result<(), AllocError>
    ensures { OnOk result (AddsEdges graph.old graph.new (act_edges names.now bases.now spot number act.now)) }
{
    match act {
        Act::Writes(writing) => {
            add_writing(names, spot, number, writing, graph)?;
            Ok(())
        }
        Act::Steps(instance, around) => {
            add_step(names, bases, spot, *instance, *around, graph)?;
            Ok(())
        }
    }
}

/// Adds the edges of what a block does, whose numbers begin at `start`.
fn add_acts(
    names: &Names<'_, '_>,
    bases: &[usize],
    spot: Spot,
    start: usize,
    acts: &[Act],
    graph: &mut Lists,
) -> Result<(), AllocError>
    ensures { OnOk result (AddsEdges graph.old graph.new (acts_edges names.now bases.now spot start acts.now)) }
{
    for (number, act) in acts.iter().enumerate() {
        add_act(names, bases, spot, sum(start, number)?, act, graph)?;
    }
    Ok(())
}

fn add_block(
    names: &Names<'_, '_>,
    bases: &[usize],
    node: usize,
    block: &Block,
    graph: &mut Lists,
) -> Result<(), AllocError>
    ensures { OnOk result (AddsEdges graph.old graph.new (block_edges names.now bases.now node block.now)) }
{
    if !block.is_stepped {
        return Ok(());
    }
    let base = base_at(bases, node);
    let spot = Spot { node, base };
    let contexts = block.acts.contexts.as_slice();
    let conditions = sum(contexts.len(), 1)?;
    let start = sum(base, conditions)?;
    add_contexts(names, spot, contexts, graph)?;
    let acts = block.acts.acts.as_slice();
    add_acts(names, bases, spot, start, acts, graph)?;
    Ok(())
}

/// Adds the edges of the blocks that are stepped.
pub(crate) fn add_blocks(
    names: &Names<'_, '_>,
    bases: &[usize],
    blocks: &[Block],
    graph: &mut Lists,
) -> Result<(), AllocError>
    ensures { OnOk result (AddsEdges graph.old graph.new (blocks_edges names.now bases.now blocks.now)) }
{
    for (node, block) in blocks.iter().enumerate() {
        add_block(names, bases, node, block, graph)?;
    }
    Ok(())
}
