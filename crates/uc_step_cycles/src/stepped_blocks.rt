//! The blocks of all nodes of a tree.

ghost use Rattle.std.specs.Prelude.{◌≡◌, IfOk};
ghost use Rattle.uc_step_cycles.specs.Blocks.{IsBlock, KnowsTree, flag_of};

use crate::steps::steps_in;
use crate::{Acts, acts_of};
use std::alloc::{AllocError, Global};
use uc_items::{Items, beside};
use uc_names::Firsts;
use uc_uses::{InstanceTree, Node, Step};

/// What the next block of a node does, the names of the instances that it steps, and whether it is stepped itself. The root's is.
#[derive(Drop)]
pub struct Block {
    pub acts: Acts,
    pub is_stepped: bool,
    pub(crate) steps: Firsts<bool>,
}

/// The blocks of the nodes of a tree.
#[derive(Drop)]
pub struct Blocks {
    blocks: Items<Block>,
}

impl Blocks {
    /// The blocks of a tree.
    pub fn of(alloc: Global, tree: &InstanceTree<'_>) -> Result<Blocks, AllocError>
        ensures { IfOk result (λ b. KnowsTree tree.now b.blocks) }
    {
        let mut blocks = Items::new(alloc);
        for node in tree.nodes() {
            let block = block_of(alloc, blocks.as_slice(), *node)?;
            blocks.push(block)?;
        }
        Ok(Blocks { blocks })
    }

    /// The blocks, by the numbers of the nodes.
    pub fn as_slice(&self) -> &[Block]
        ensures { result.now ≡ self.now.blocks }
    {
        self.blocks.as_slice()
    }
}

fn block_of(alloc: Global, before: &[Block], node: Node<'_>) -> Result<Block, AllocError>
    ensures { IfOk result (λ b. IsBlock before.now node.entry b) }
{
    let is_stepped = is_stepped(before, node.above);
    let acts = acts_of(alloc, node.code)?;
    let steps = steps_in(alloc, acts.acts.as_slice());
    let (acts, steps) = beside(acts, steps)?;
    Ok(Block {
        acts,
        is_stepped,
        steps,
    })
}

/// Whether an instance is stepped, by the blocks of the nodes before it.
fn is_stepped(before: &[Block], above: Option<Step>) -> bool
    ensures { result ≡ flag_of before.now above }
{
    match above {
        None => true,
        Some(instance) => match before.get(instance.node) {
            None => false,
            Some(block) => block.is_stepped && block.steps.get(instance.name).is_some(),
        },
    }
}
