//! The walk, in rounds.

ghost use Rattle.std.specs.Prelude.{◌≡◌, [], false, slice_index_or, nat_eq, IfOk, OnOk};
ghost use Rattle.uc_graph.specs.Order.{has, needs};
ghost use Rattle.uc_graph.specs.Reached.{IsReached, IsTaken};
ghost use Rattle.uc_graph.specs.Taking.{Takes, edge_from};

use std::alloc::{AllocError, Global};
use uc_items::{Items, at};

/// The nodes that are reached from some over nodes that are left, each once. They aren't left any more.
#[tactic(auto, using(crate::proofs::Rounds::fewer_left))]
pub fn take_reached(
    alloc: Global,
    graph: &[Items<usize>],
    left: &mut Items<bool>,
    starts: &[usize],
) -> Result<Items<usize>, AllocError>
    ensures reached { IfOk result (λ found. IsReached graph.now left.old starts.now found) }
    ensures taken { IfOk result (λ found. IsTaken left.old found left.new) }
{
    let mut found = Items::new(alloc);
    let mut fresh = Items::new(alloc);
    take_all(left, starts, &mut fresh)?;
    'rounds: while fresh.len() > 0 {
        let next = next_round(alloc, graph, left, fresh.as_slice())?;
        found.append(fresh)?;
        fresh = next;
    }
    Ok(found)
}

/// Takes the nodes that an edge leads to from one of some.
fn next_round(
    alloc: Global,
    graph: &[Items<usize>],
    left: &mut Items<bool>,
    fresh: &[usize],
) -> Result<Items<usize>, AllocError>
    ensures { IfOk result (λ next. Takes (edge_from graph.now fresh.now) left.old [] left.new next) }
{
    let mut next = Items::new(alloc);
    for node in fresh {
        take_needs(graph, left, *node, &mut next)?;
    }
    Ok(next)
}

/// Takes the nodes that an edge leads to from a node.
fn take_needs(
    graph: &[Items<usize>],
    left: &mut Items<bool>,
    node: usize,
    taken: &mut Items<usize>,
) -> Result<(), AllocError>
    ensures { OnOk result (Takes (has (needs graph.now node)) left.old taken.old left.new taken.new) }
{
    match at(graph, node) {
        Some(list) => take_all(left, list.as_slice(), taken),
        None => Ok(()),
    }
}

/// Takes those of some nodes that are left.
fn take_all(
    left: &mut Items<bool>,
    nodes: &[usize],
    taken: &mut Items<usize>,
) -> Result<(), AllocError>
    ensures { OnOk result (Takes (has nodes.now) left.old taken.old left.new taken.new) }
{
    for node in nodes {
        take(left, *node, taken)?;
    }
    Ok(())
}

/// Takes a node, where it is left.
fn take(left: &mut Items<bool>, node: usize, taken: &mut Items<usize>) -> Result<(), AllocError>
    ensures { OnOk result (Takes (λ n. nat_eq n node) left.old taken.old left.new taken.new) }
{
    if node < left.len() && is_set(left, node) {
        left.set(node, false);
        taken.push(node)?;
    }
    Ok(())
}

fn is_set(left: &Items<bool>, node: usize) -> bool
    ensures { result ≡ slice_index_or left.now node false }
{
    match left.get(node) {
        Some(flag) => *flag,
        None => false,
    }
}
