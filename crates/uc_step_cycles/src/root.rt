//! What is known of the tree of a root, part by part.

ghost use Rattle.std.specs.Prelude.{◌≡◌, IfOk, OnOk};
ghost use Rattle.uc_meaning.specs.Lookup.{System};
ghost use Rattle.uc_rules.specs.Faults.{first_of};
ghost use Rattle.uc_order_rules.specs.Dependence.{cyclic_steps};
ghost use Rattle.uc_uses.specs.Resolving.{IsGraph};
ghost use Rattle.uc_uses.specs.Tables.{KnowsUses};
ghost use Rattle.uc_step_cycles.specs.Tables.{KnowsCells};
ghost use Rattle.uc_step_cycles.specs.Blocks.{KnowsTree};
ghost use Rattle.uc_step_cycles.specs.RootTree.{IsRootTree, MarksSteps};

use crate::noting::note_blocks;
use crate::{Block, Blocks, CellTable, Names, step_graph};
use std::alloc::{AllocError, Global};
use uc_graph::on_cycles;
use uc_items::Items;
use uc_rules::Fault;
use uc_uses::{InstanceTree, UseGraph, UseTable, use_graph};

/// Notes the statements of a tree that may write a cell that depends on itself.
pub(crate) fn note_tree(
    alloc: Global,
    tree: &InstanceTree<'_>,
    first: &mut Option<Fault>,
) -> Result<(), AllocError>
    ensures { OnOk result ((s : System) → IsRootTree s tree.now → first.new ≡ first_of first.old (cyclic_steps s)) }
{
    let cells = CellTable::of(alloc, tree)?;
    note_cells(alloc, tree, &cells, first)?;
    Ok(())
}

fn note_cells(
    alloc: Global,
    tree: &InstanceTree<'_>,
    cells: &CellTable,
    first: &mut Option<Fault>,
) -> Result<(), AllocError>
    ensures { OnOk result ((s : System) → IsRootTree s tree.now → KnowsCells tree.now cells.now → first.new ≡ first_of first.old (cyclic_steps s)) }
{
    let uses = UseTable::of(alloc, tree)?;
    let names = Names {
        tree,
        cells,
        uses: &uses,
    };
    note_names(alloc, &names, first)?;
    Ok(())
}

fn note_names(
    alloc: Global,
    names: &Names<'_, '_>,
    first: &mut Option<Fault>,
) -> Result<(), AllocError>
    ensures { OnOk result ((s : System) → IsRootTree s names.now.tree.now → KnowsCells names.now.tree.now names.now.cells.now → KnowsUses names.now.tree.now names.now.uses.now → first.new ≡ first_of first.old (cyclic_steps s)) }
{
    let uses = use_graph(alloc, names.tree, names.uses)?;
    note_uses(alloc, names, &uses, first)?;
    Ok(())
}

fn note_uses(
    alloc: Global,
    names: &Names<'_, '_>,
    uses: &UseGraph,
    first: &mut Option<Fault>,
) -> Result<(), AllocError>
    ensures { OnOk result ((s : System) → IsRootTree s names.now.tree.now → KnowsCells names.now.tree.now names.now.cells.now → KnowsUses names.now.tree.now names.now.uses.now → IsGraph names.now.tree.now names.now.uses.now uses.now → first.new ≡ first_of first.old (cyclic_steps s)) }
{
    let blocks = Blocks::of(alloc, names.tree)?;
    let known = blocks.as_slice();
    let flags = cyclic_nodes(alloc, names, uses, known)?;
    note_blocks(names, flags.as_slice(), known, first);
    Ok(())
}

/// For each node of the graph of a tree, whether it lies on a cycle.
fn cyclic_nodes(
    alloc: Global,
    names: &Names<'_, '_>,
    uses: &UseGraph,
    blocks: &[Block],
) -> Result<Items<bool>, AllocError>
    ensures { IfOk result (λ flags. MarksSteps names.now uses.now blocks.now flags) }
{
    let graph = step_graph(alloc, names, uses, blocks)?;
    let flags = on_cycles(alloc, graph.graph.as_slice())?;
    Ok(flags)
}
