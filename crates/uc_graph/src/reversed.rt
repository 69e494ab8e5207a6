//! The edges of a graph the other way round.

ghost use Rattle.std.specs.Prelude.{IfOk, OnOk};
ghost use Rattle.uc_graph.specs.Settling.{Enters, IsReversed};

use crate::Lists;
use std::alloc::{AllocError, Global};
use uc_items::Items;

/// For each node, those from which an edge leads to it.
pub(crate) fn reversed(alloc: Global, graph: &[Items<usize>]) -> Result<Lists, AllocError>
    ensures { IfOk result (λ back. IsReversed graph.now back) }
{
    let mut back = Lists::new(alloc, graph.len())?;
    for (node, needs) in graph.iter().enumerate() {
        add_all(&mut back, node, needs.as_slice())?;
    }
    Ok(back)
}

/// Adds a node to the lists of some places.
fn add_all(back: &mut Lists, node: usize, needs: &[usize]) -> Result<(), AllocError>
    ensures { OnOk result (Enters node needs.now back.old back.new) }
{
    for need in needs {
        back.add(*need, node)?;
    }
    Ok(())
}
