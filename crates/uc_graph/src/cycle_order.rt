//! An order of nodes in which no node comes before one that it leads to, but for those of its cycles. It serves speed alone, so nothing is
//! said of it: in any order the same is found.

use std::alloc::{AllocError, Global};
use uc_items::{Items, at};

/// A node that is entered or left by the walk.
#[derive(Clone, Copy)]
struct Visit {
    node: usize,
    is_last: bool,
}

/// The nodes of a graph by the ends of a walk into the depth, the last one first.
pub(crate) fn in_order(alloc: Global, graph: &[Items<usize>]) -> Result<Items<usize>, AllocError> {
    let mut walk = Walk::new(alloc, graph.len())?;
    for node in 0..graph.len() {
        walk.stack.push(Visit {
            node,
            is_last: false,
        })?;
    }
    for _ in 0..visits(graph) {
        let Some(visit) = walk.stack.pop() else {
            break;
        };
        walk.take(graph, visit)?;
    }
    reversed_numbers(alloc, walk.ended.as_slice())
}

/// How often nodes are taken from the stack at most.
fn visits(graph: &[Items<usize>]) -> usize {
    let mut count = graph.len().saturating_add(graph.len());
    for needs in graph {
        count = count.saturating_add(needs.len());
    }
    count
}

/// A walk into the depth: which nodes were entered, what is to be visited, and the nodes that were left.
#[derive(Drop)]
struct Walk {
    entered: Items<bool>,
    stack: Items<Visit>,
    ended: Items<usize>,
}

impl Walk {
    fn new(alloc: Global, count: usize) -> Result<Walk, AllocError> {
        let mut entered = Items::new(alloc);
        for _ in 0..count {
            entered.push(false)?;
        }
        let stack = Items::new(alloc);
        let ended = Items::new(alloc);
        Ok(Walk {
            entered,
            stack,
            ended,
        })
    }

    fn take(&mut self, graph: &[Items<usize>], visit: Visit) -> Result<(), AllocError> {
        if visit.is_last {
            self.ended.push(visit.node)
        } else {
            self.enter(graph, visit.node)
        }
    }

    fn enter(&mut self, graph: &[Items<usize>], node: usize) -> Result<(), AllocError> {
        if node >= self.entered.len() {
            return Ok(());
        }
        if self.is_entered(node) {
            return Ok(());
        }
        self.entered.set(node, true);
        self.stack.push(Visit {
            node,
            is_last: true,
        })?;
        match at(graph, node) {
            None => Ok(()),
            Some(needs) => self.push_all(needs.as_slice()),
        }
    }

    fn push_all(&mut self, needs: &[usize]) -> Result<(), AllocError> {
        for need in needs {
            self.stack.push(Visit {
                node: *need,
                is_last: false,
            })?;
        }
        Ok(())
    }

    fn is_entered(&self, node: usize) -> bool {
        match self.entered.get(node) {
            Some(flag) => *flag,
            None => false,
        }
    }
}

fn reversed_numbers(alloc: Global, numbers: &[usize]) -> Result<Items<usize>, AllocError> {
    let mut reversed = Items::new(alloc);
    for number in numbers.iter().rev() {
        reversed.push(*number)?;
    }
    Ok(reversed)
}
