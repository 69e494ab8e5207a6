//! Rounds over a graph: a way of one step more begins where a step leads to a node at which a way begins.

ghost use Rattle.std.specs.Prelude.{◌≡◌, ℕ, [], false, nat_eq, slice_index_or, IfOk};
ghost use Rattle.uc_order_rules.specs.Uses.{has_way};
ghost use Rattle.uc_uses.specs.Rounds.{any_flag};

use std::alloc::{AllocError, Global};
use uc_items::Items;

/// For each node of a graph, whether a way of so many steps begins there; a node is the place of the list of the nodes to which its steps
/// lead. A number that is no node leads nowhere. The time is that of so many walks over the graph.
#[tactic(auto, using(crate::proofs::Rounds::rounds_begin))]
pub fn long_ways(
    alloc: Global,
    graph: &[Items<usize>],
    steps: usize,
) -> Result<Items<bool>, AllocError>
    ensures { IfOk result (λ flags. (n : ℕ) → slice_index_or flags n (nat_eq steps 0) ≡ has_way steps (λ k. slice_index_or graph.now k []) n) }
{
    let mut flags = Items::new(alloc);
    for step in 0..steps {
        flags = next_round(alloc, graph, flags.as_slice(), step == 0)?;
    }
    Ok(flags)
}

/// The flags of ways of one step more. `past` is that of a number that has none.
fn next_round(
    alloc: Global,
    graph: &[Items<usize>],
    flags: &[bool],
    past: bool,
) -> Result<Items<bool>, AllocError>
    ensures { IfOk result (λ next. (n : ℕ) → slice_index_or next n false ≡ any_flag flags.now past (slice_index_or graph.now n [])) }
{
    let mut next = Items::new(alloc);
    for nodes in graph {
        next.push(any_flag(flags, past, nodes.as_slice()))?;
    }
    Ok(next)
}

/// Whether one of some nodes has its flag.
fn any_flag(flags: &[bool], past: bool, nodes: &[usize]) -> bool
    ensures { result ≡ any_flag flags.now past nodes.now }
{
    for node in nodes {
        if flag_at(flags, *node, past) {
            return true;
        }
    }
    false
}

fn flag_at(flags: &[bool], node: usize, past: bool) -> bool
    ensures { result ≡ slice_index_or flags.now node past }
{
    match flags.get(node) {
        Some(flag) => *flag,
        None => past,
    }
}
