//! The nodes of a graph that lie on a cycle.

ghost use Rattle.std.specs.Prelude.{◌≡◌, ℕ, true, false, length, replicate, slice_index_or, IfOk, OnOk};
ghost use Rattle.uc_graph.specs.Reached.{is_left};
ghost use Rattle.uc_graph.specs.Cycles.{MarksCycles};
ghost use Rattle.uc_graph.specs.Settling.{IsReversed, Settles};

use crate::cycle_order::in_order;
use crate::reversed::reversed;
use crate::settled::Settled;
use std::alloc::{AllocError, Global};
use uc_items::Items;

/// For each node of a graph, whether it lies on a cycle.
pub fn on_cycles(alloc: Global, graph: &[Items<usize>]) -> Result<Items<bool>, AllocError>
    ensures { IfOk result (λ flags. MarksCycles graph.now flags) }
{
    let back = reversed(alloc, graph)?;
    let order = in_order(alloc, back.as_slice())?;
    let mut settled = Settled::new(alloc, graph.len())?;
    settle_all(
        alloc,
        graph,
        back.as_slice(),
        order.as_slice(),
        &mut settled,
    )?;
    for node in 0..graph.len() {
        settled.settle(alloc, graph, back.as_slice(), node)?;
    }
    Ok(settled.into_flags())
}

/// Settles some nodes, in any order.
fn settle_all(
    alloc: Global,
    graph: &[Items<usize>],
    back: &[Items<usize>],
    nodes: &[usize],
    settled: &mut Settled,
) -> Result<(), AllocError>
    requires { IsReversed graph.now back.now }
    ensures { OnOk result (Settles graph.now settled.old → Settles graph.now settled.new) }
{
    for node in nodes {
        settled.settle(alloc, graph, back, *node)?;
    }
    Ok(())
}
