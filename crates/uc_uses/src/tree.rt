//! The nodes of a tree of instances.

ghost use Rattle.std.specs.Prelude.{◌≡◌};
ghost use Rattle.uc_uses.specs.Trees.{instance_at};

use uc_items::Items;
use uc_names::Firsts;
use uc_syntax::{Binding, Module};

/// A name of the module at a node, as that of an instance of it.
#[derive(Clone, Copy, Debug, PartialEq, Eq)]
pub struct Step {
    pub node: usize,
    pub name: u32,
}

/// A node: its module, the instance as which it stands in the node above it, and what is bound there. The root stands in none.
#[derive(Clone, Copy)]
pub struct Node<'a> {
    pub code: &'a Module,
    pub above: Option<Step>,
    pub bindings: &'a [Binding],
}

/// The root and the instances below it, each behind the one in which it stands; and for each node its instances by their names, where an
/// instance of a module that isn't there has no node.
#[derive(Drop)]
pub struct InstanceTree<'a> {
    pub(crate) nodes: Items<Node<'a>>,
    pub(crate) instances: Items<Firsts<Option<usize>>>,
}

impl<'a> InstanceTree<'a> {
    /// The nodes, the root first.
    pub fn nodes(&self) -> &[Node<'a>]
        ensures { result.now ≡ self.now.nodes }
    {
        self.nodes.as_slice()
    }

    /// The instance of a name in a node, if it has one, and its node.
    pub fn instance(&self, node: usize, name: u32) -> Option<Option<usize>>
        ensures { result ≡ instance_at self.now node name }
    {
        match self.instances.get(node) {
            None => None,
            Some(found) => found.get(name),
        }
    }
}
