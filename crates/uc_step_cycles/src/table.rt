//! The cells of all nodes of a tree.

ghost use Rattle.std.specs.Prelude.{◌≡◌, not, length, IfOk};
ghost use Rattle.std.specs.Option.{is_some};
ghost use Rattle.uc_step_cycles.specs.Cells.{EntersNode};
ghost use Rattle.uc_step_cycles.specs.Tables.{KnowsCells, above_at, bound_name, outer_at, own_cell, written_by};

use crate::bound::bound_of;
use crate::own::own_cells;
use std::alloc::{AllocError, Global};
use uc_items::Items;
use uc_names::Firsts;
use uc_uses::{InstanceTree, Node, Step};

/// How many modules stand on one chain of instances at most.
const LONGEST_CHAIN: usize = 32;

/// The numbers of the cells of a node, and what is bound there.
#[derive(Drop)]
pub(crate) struct NodeCells {
    own: Firsts<usize>,
    bound: Firsts<Option<u32>>,
}

/// The cells of a tree: the number of each is its place among them.
#[derive(Drop)]
pub struct CellTable {
    cells: Items<Step>,
    nodes: Items<NodeCells>,
}

impl CellTable {
    /// The cells of a tree.
    pub fn of(alloc: Global, tree: &InstanceTree<'_>) -> Result<CellTable, AllocError>
        ensures { IfOk result (λ c. KnowsCells tree.now c) }
    {
        let mut cells = Items::new(alloc);
        let mut nodes = Items::new(alloc);
        for (number, node) in tree.nodes().iter().enumerate() {
            let found = node_cells(alloc, number, *node, &mut cells)?;
            nodes.push(found)?;
        }
        Ok(CellTable { cells, nodes })
    }

    /// How many cells there are.
    pub fn count(&self) -> usize
        ensures { result ≡ length self.now.cells }
    {
        self.cells.len()
    }

    /// The cell that a node has itself under a name.
    pub fn own(&self, cell: Step) -> Option<usize>
        ensures { result ≡ own_cell self.now cell }
    {
        match self.nodes.get(cell.node) {
            None => None,
            Some(found) => found.own.get(cell.name),
        }
    }

    /// The cell that a name of a node stands for: a bound output is the parent's name.
    pub fn written(&self, tree: &InstanceTree<'_>, name: Step) -> Option<usize>
        ensures { result ≡ written_by tree.now self.now name }
    {
        let mut at = name;
        for turn in 0..LONGEST_CHAIN {
            match self.outer(tree, at) {
                None => return self.own(at),
                Some(outer) => at = outer,
            }
        }
        self.own(at)
    }

    /// The parent's name that is bound to a name of a node, if one is.
    fn outer(&self, tree: &InstanceTree<'_>, name: Step) -> Option<Step>
        ensures { result ≡ outer_at tree.now self.now name }
    {
        let above = above_of(tree, name.node)?;
        let outer = self.bound(name)?;
        Some(Step {
            node: above.node,
            name: outer,
        })
    }

    fn bound(&self, name: Step) -> Option<u32>
        ensures { result ≡ bound_name self.now name }
    {
        match self.nodes.get(name.node) {
            None => None,
            Some(found) => match found.bound.get(name.name) {
                None => None,
                Some(outer) => outer,
            },
        }
    }
}

/// The instance as which a node stands in the node above it.
fn above_of(tree: &InstanceTree<'_>, node: usize) -> Option<Step>
    ensures { result ≡ above_at tree.now node }
{
    match tree.nodes().get(node) {
        None => None,
        Some(found) => found.above,
    }
}

fn stands_in_none(above: Option<Step>) -> bool
    ensures { result ≡ not (is_some above) }
{
    match above {
        None => true,
        Some(_) => false,
    }
}

fn node_cells(
    alloc: Global,
    number: usize,
    node: Node<'_>,
    cells: &mut Items<Step>,
) -> Result<NodeCells, AllocError>
    ensures { IfOk result (λ n. EntersNode number node.entry cells.old n cells.new) }
{
    let bound = bound_of(alloc, node.bindings)?;
    let declarations = node.code.decls.as_slice();
    let is_root = stands_in_none(node.above);
    let own = own_cells(alloc, number, is_root, &bound, declarations, cells)?;
    Ok(NodeCells { own, bound })
}
