//! Edges to what is read, and from what is written.

ghost use Rattle.std.specs.Prelude.{◌≡◌, ◌+◌, ◌++◌, length, map, OnOk};
ghost use Rattle.std.specs.List.{flat_map};
ghost use Rattle.uc_step_cycles.specs.Edges.{AddsEdges};
ghost use Rattle.uc_step_cycles.specs.Building.{names_edges, reads_edges, use_edges, used_edges, uses_edges, writes_edges};

use crate::adding::{add_edge, add_from, add_to};
use crate::numbers::{Names, read_node, sum};
use std::alloc::AllocError;
use uc_graph::Lists;
use uc_items::{Items, at};
use uc_uses::Step;

/// Adds edges from a node to those of the names that are read primed in a node of the tree.
pub(crate) fn add_reads(
    names: &Names<'_, '_>,
    node: usize,
    from: usize,
    read: &[u32],
    graph: &mut Lists,
) -> Result<(), AllocError>
    ensures { OnOk result (AddsEdges graph.old graph.new (reads_edges names.now node from read.now)) }
{
    for name in read {
        let to = read_node(names, Step { node, name: *name })?;
        add_from(from, to, graph)?;
    }
    Ok(())
}

/// Adds edges from the cells that names of a node stand for to a statement that writes them.
pub(crate) fn add_writes(
    names: &Names<'_, '_>,
    node: usize,
    to: usize,
    written: &[u32],
    graph: &mut Lists,
) -> Result<(), AllocError>
    ensures { OnOk result (AddsEdges graph.old graph.new (writes_edges names.now node to written.now)) }
{
    for name in written {
        let from = names.cells.written(names.tree, Step { node, name: *name });
        add_to(from, to, graph)?;
    }
    Ok(())
}

/// Adds edges from a use to what it uses.
fn add_used(start: usize, from: usize, used: &[usize], graph: &mut Lists) -> Result<(), AllocError>
    ensures { OnOk result (AddsEdges graph.old graph.new (used_edges start from used.now)) }
{
    for number in used {
        let to = sum(start, *number)?;
        add_edge(from, to, graph)?;
    }
    Ok(())
}

/// Adds edges from a use to the cells that it names itself.
fn add_named(
    names: &Names<'_, '_>,
    from: usize,
    named: &[Step],
    graph: &mut Lists,
) -> Result<(), AllocError>
    ensures { OnOk result (AddsEdges graph.old graph.new (names_edges names.now from named.now)) }
{
    for name in named {
        let to = names.cells.written(names.tree, *name);
        add_from(from, to, graph)?;
    }
    Ok(())
}

fn add_use(
    names: &Names<'_, '_>,
    start: usize,
    number: usize,
    used: &[usize],
    named: &[Items<Step>],
    graph: &mut Lists,
) -> Result<(), AllocError>
    ensures { OnOk result (AddsEdges graph.old graph.new (use_edges names.now start named.now number used.now)) }
{
    let from = sum(start, number)?;
    add_used(start, from, used, graph)?;
    match at(named, number) {
        None => Ok(()),
        Some(cells) => {
            add_named(names, from, cells.as_slice(), graph)?;
            Ok(())
        }
    }
}

/// Adds the edges from all uses, whose numbers begin at `start`.
pub(crate) fn add_uses(
    names: &Names<'_, '_>,
    start: usize,
    used: &[Items<usize>],
    named: &[Items<Step>],
    graph: &mut Lists,
) -> Result<(), AllocError>
    ensures { OnOk result (AddsEdges graph.old graph.new (uses_edges names.now start named.now used.now)) }
{
    for (number, list) in used.iter().enumerate() {
        add_use(names, start, number, list.as_slice(), named, graph)?;
    }
    Ok(())
}
