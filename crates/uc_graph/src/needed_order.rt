//! The order, and the rounds in which it is found.

ghost use Rattle.std.specs.Prelude.{◌≡◌, ℕ, ◌<◌, [], true, IfOk};
ghost use Rattle.uc_graph.specs.Order.{has, IsNeededFirst};
ghost use Rattle.uc_graph.specs.NeededFirstSteady.{IsFewer, IsSized, Steady};

use crate::settling::Settling;
use std::alloc::{AllocError, Global};
use uc_items::Items;

/// The nodes of a graph, by their places in it, each after all that it needs. Left out is what leads into a cycle, or to a number that
/// is no node.
#[tactic(auto, using(crate::proofs::Counts::smaller, crate::proofs::NeededFirstSteps::ends))]
pub fn needed_first(alloc: Global, graph: &[Items<usize>]) -> Result<Items<usize>, AllocError>
    ensures { IfOk result (λ order. IsNeededFirst graph.now order) }
{
    let mut settling = Settling::new(alloc, graph.len())?;
    let mut ready = numbers_below(alloc, graph.len())?;
    'rounds: while ready.len() > 0 {
        ready = next_round(alloc, graph, &mut settling, ready.as_slice())?;
    }
    Ok(settling.into_order())
}

/// Has each node take its turn, and gives those that are woken.
fn next_round(
    alloc: Global,
    graph: &[Items<usize>],
    settling: &mut Settling,
    ready: &[usize],
) -> Result<Items<usize>, AllocError>
    requires { IsSized graph.now settling.old.flags settling.old.passed settling.old.parked }
    ensures sized { IfOk result (λ woken. IsSized graph.now settling.new.flags settling.new.passed settling.new.parked) }
    ensures steady { IfOk result (λ woken. Steady graph.now settling.old.flags settling.old.passed settling.old.parked settling.old.order ready.now → Steady graph.now settling.new.flags settling.new.passed settling.new.parked settling.new.order woken) }
    ensures fewer { IfOk result (λ woken. IsFewer settling.old.flags [] settling.new.flags woken) }
{
    let mut woken = Items::new(alloc);
    for node in ready {
        settling.take_turn(graph, *node, &mut woken)?;
    }
    Ok(woken)
}

fn numbers_below(alloc: Global, count: usize) -> Result<Items<usize>, AllocError>
    ensures { IfOk result (λ ns. (n : ℕ) → n < count → has ns n ≡ true) }
{
    let mut numbers = Items::new(alloc);
    for number in 0..count {
        numbers.push(number)?;
    }
    Ok(numbers)
}
