//! The uses of all nodes of a tree, by their numbers and by their names.

ghost use Rattle.std.specs.Prelude.{◌≡◌, IfOk, OnOk};
ghost use Rattle.uc_uses.specs.Tables.{KnowsUses, number};
ghost use Rattle.uc_uses.specs.Sources.{input_source};
ghost use Rattle.uc_uses.specs.Entering.{Enters, EntersNode};
ghost use Rattle.uc_uses.specs.declared.uses.UseKind.TheVariants.{Input};

use crate::entering::{bound_uses, declared_uses};
use crate::inputs::inputs_of;
use crate::uses::{NumberedUse, UseKind, UseName};
use crate::{InstanceTree, Node};
use std::alloc::{AllocError, Global};
use uc_items::Items;
use uc_names::Firsts;

/// The numbers of the uses of a node.
#[derive(Drop)]
pub(crate) struct NodeUses {
    defines: Firsts<usize>,
    procedures: Firsts<usize>,
    inputs: Firsts<usize>,
}

/// The defines, procedures and bound inputs of all nodes of a tree; the number of each is its place among them.
#[derive(Drop)]
pub struct UseTable<'a> {
    uses: Items<NumberedUse<'a>>,
    nodes: Items<NodeUses>,
}

impl<'a> UseTable<'a> {
    /// The uses of a tree.
    pub fn of(alloc: Global, tree: &InstanceTree<'a>) -> Result<UseTable<'a>, AllocError>
        ensures { IfOk result (λ u. KnowsUses tree.now u) }
    {
        let mut uses = Items::new(alloc);
        let mut nodes = Items::new(alloc);
        for (number, node) in tree.nodes().iter().enumerate() {
            let found = node_uses(alloc, number, *node, &mut uses)?;
            nodes.push(found)?;
        }
        Ok(UseTable { uses, nodes })
    }

    /// The uses.
    pub fn uses(&self) -> &[NumberedUse<'a>]
        ensures { result.now ≡ self.now.uses }
    {
        self.uses.as_slice()
    }

    /// The number of a use.
    pub fn number(&self, used: UseName) -> Option<usize>
        ensures { result ≡ number self.now used }
    {
        match self.nodes.get(used.node) {
            None => None,
            Some(found) => match used.kind {
                UseKind::Define => found.defines.get(used.name),
                UseKind::Procedure => found.procedures.get(used.name),
                UseKind::Input => found.inputs.get(used.name),
            },
        }
    }
}

fn node_uses<'a>(
    alloc: Global,
    number: usize,
    node: Node<'a>,
    uses: &mut Items<NumberedUse<'a>>,
) -> Result<NodeUses, AllocError>
    ensures { IfOk result (λ n. EntersNode number node.entry uses.old n uses.new) }
{
    let declarations = node.code.decls.as_slice();
    let defines = declared_uses(alloc, UseKind::Define, number, declarations, uses)?;
    let procedures = declared_uses(alloc, UseKind::Procedure, number, declarations, uses)?;
    let inputs = input_uses(alloc, number, node, uses)?;
    Ok(NodeUses {
        defines,
        procedures,
        inputs,
    })
}

/// The bound inputs of a node. The root has none.
fn input_uses<'a>(
    alloc: Global,
    number: usize,
    node: Node<'a>,
    uses: &mut Items<NumberedUse<'a>>,
) -> Result<Firsts<usize>, AllocError>
    ensures { IfOk result (λ t. Enters Input number uses.old (input_source node.entry) t uses.new) }
{
    match node.above {
        None => Ok(Firsts::new(alloc)),
        Some(step) => {
            let inputs = inputs_of(alloc, node.code.decls.as_slice())?;
            let table = bound_uses(alloc, number, step.node, &inputs, node.bindings, uses)?;
            Ok(table)
        }
    }
}
