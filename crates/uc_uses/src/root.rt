//! The uses below a root, with their graph.

ghost use Rattle.std.specs.Prelude.{◌≡◌, ℕ, Some, slice_get, slice_index_or, false, IfOk};
ghost use Rattle.uc_meaning.specs.Lookup.{System};
ghost use Rattle.uc_order_rules.specs.Roots.{rooted};
ghost use Rattle.uc_uses.specs.Modules.{KnowsModules};
ghost use Rattle.uc_uses.specs.RootUses.{IsRootUses};

use crate::{InstanceTree, ModuleTable, UseGraph, UseTable, instance_tree, use_graph};
use std::alloc::{AllocError, Global};
use uc_items::Items;
use uc_syntax::Module;

/// The tree of a root, its uses by their numbers, and the graph of these.
#[derive(Drop)]
pub(crate) struct RootUses<'a> {
    pub(crate) tree: InstanceTree<'a>,
    pub(crate) table: UseTable<'a>,
    pub(crate) graph: UseGraph,
}

/// The uses below a root.
pub(crate) fn root_uses<'a>(
    alloc: Global,
    modules: &ModuleTable<'a>,
    root: &'a Module,
) -> Result<RootUses<'a>, AllocError>
    ensures { IfOk result (λ r. (s : System) (k : ℕ) → KnowsModules s.modules modules.now → slice_get s.modules k ≡ Some root.now → IsRootUses (rooted s k) root.now r) }
{
    let tree = instance_tree(alloc, modules, root)?;
    let table = UseTable::of(alloc, &tree)?;
    let graph = use_graph(alloc, &tree, &table)?;
    Ok(RootUses { tree, table, graph })
}

pub(crate) fn flag_at(flags: &Items<bool>, number: usize) -> bool
    ensures { result ≡ slice_index_or flags.now number false }
{
    match flags.get(number) {
        None => false,
        Some(flag) => *flag,
    }
}
