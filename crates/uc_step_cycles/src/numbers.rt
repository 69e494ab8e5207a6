//! The numbers of nodes: of cells, then of uses, and then for each node of the tree of its conditions and of what its block does.

ghost use Rattle.std.specs.Prelude.{◌≡◌, ◌+◌, length, slice_index_or, IfOk};
ghost use Rattle.uc_step_cycles.specs.StepEdgesNumbers.{bases_from, block_size, read_node, total_from};

use crate::{Block, CellTable};
use std::alloc::{AllocError, Global};
use uc_items::Items;
use uc_uses::{InstanceTree, Step, UseKind, UseName, UseTable};

/// What names of a tree stand for.
#[derive(Clone, Copy)]
pub struct Names<'a, 'b> {
    pub tree: &'a InstanceTree<'b>,
    pub cells: &'a CellTable,
    pub uses: &'a UseTable<'b>,
}

/// A sum. One that has no room is want of memory.
pub(crate) fn sum(a: usize, b: usize) -> Result<usize, AllocError>
    ensures { IfOk result (λ n. n ≡ a + b) }
{
    match a.checked_add(b) {
        None => Err(AllocError),
        Some(n) => Ok(n),
    }
}

/// The node of a name that is read primed: that of a bound input, or a cell.
pub(crate) fn read_node(names: &Names<'_, '_>, name: Step) -> Result<Option<usize>, AllocError>
    ensures { IfOk result (λ o. o ≡ read_node names.now name) }
{
    let used = UseName {
        kind: UseKind::Input,
        node: name.node,
        name: name.name,
    };
    match names.uses.number(used) {
        None => Ok(names.cells.written(names.tree, name)),
        Some(number) => {
            let node = sum(names.cells.count(), number)?;
            Ok(Some(node))
        }
    }
}

/// How many nodes a block has: what is around it, its conditions, and what it does.
fn block_size(block: &Block) -> Result<usize, AllocError>
    ensures { IfOk result (λ n. n ≡ block_size block.now) }
{
    let conditions = sum(block.acts.contexts.len(), 1)?;
    let size = sum(conditions, block.acts.acts.len())?;
    Ok(size)
}

/// The first number of each block.
#[derive(Drop)]
pub(crate) struct Bases {
    pub(crate) bases: Items<usize>,
    pub(crate) total: usize,
}

pub(crate) fn bases_of(alloc: Global, start: usize, blocks: &[Block]) -> Result<Bases, AllocError>
    ensures bases { IfOk result (λ b. b.bases ≡ bases_from start blocks.now) }
    ensures total { IfOk result (λ b. b.total ≡ total_from start blocks.now) }
{
    let mut bases = Items::new(alloc);
    let mut next = start;
    for block in blocks {
        bases.push(next)?;
        let size = block_size(block)?;
        next = sum(next, size)?;
    }
    Ok(Bases { bases, total: next })
}

/// The first number of a block.
pub(crate) fn base_at(bases: &[usize], node: usize) -> usize
    ensures { result ≡ slice_index_or bases.now node 0 }
{
    match bases.get(node) {
        None => 0,
        Some(base) => *base,
    }
}
