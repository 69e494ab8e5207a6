//! Edges one by one.

ghost use Rattle.std.specs.Prelude.{◌≡◌, ◌∷◌, [], OnOk};
ghost use Rattle.uc_step_cycles.specs.Edges.{AddsEdges, edges_from, edges_to};

use std::alloc::AllocError;
use uc_graph::Lists;

pub(crate) fn add_edge(from: usize, to: usize, graph: &mut Lists) -> Result<(), AllocError>
    ensures { OnOk result (AddsEdges graph.old graph.new ((from, to) ∷ [])) }
{
    graph.add(from, to)?;
    Ok(())
}

/// Adds an edge to a node, if there is one.
pub(crate) fn add_from(from: usize, to: Option<usize>, graph: &mut Lists) -> Result<(), AllocError>
    ensures { OnOk result (AddsEdges graph.old graph.new (edges_from from to)) }
{
    match to {
        None => Ok(()),
        Some(to) => {
            add_edge(from, to, graph)?;
            Ok(())
        }
    }
}

/// Adds an edge from a node, if there is one.
pub(crate) fn add_to(from: Option<usize>, to: usize, graph: &mut Lists) -> Result<(), AllocError>
    ensures { OnOk result (AddsEdges graph.old graph.new (edges_to to from)) }
{
    match from {
        None => Ok(()),
        Some(from) => {
            add_edge(from, to, graph)?;
            Ok(())
        }
    }
}
