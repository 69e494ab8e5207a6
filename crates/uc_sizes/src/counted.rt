//! Nodes that were counted, and uses whose nodes are to be counted.

ghost use Rattle.std.specs.Prelude.{◌≡◌, OnOk};
ghost use Rattle.uc_sizes.specs.Counting.{Adds, Setting, cost, one_node, weight};

use std::alloc::{AllocError, Global};
use uc_items::Items;
use uc_syntax::{Expr, Selection};

/// What an expression uses elsewhere.
#[derive(Clone, Copy)]
pub enum Use<'a> {
    /// A name that is read, with what is selected behind it.
    Name(u32, &'a [Selection<Expr>]),
    /// A function or a define that is applied.
    Applied(u32),
}

/// How many nodes were counted, and what was used.
#[derive(Drop)]
pub struct Counted<'a> {
    pub nodes: u64,
    pub uses: Items<Use<'a>>,
}

impl<'a> Counted<'a> {
    /// Nothing yet.
    pub fn new(alloc: Global) -> Counted<'a>
        ensures { (c : Setting) → weight c result ≡ 0 }
    {
        Counted {
            nodes: 0,
            uses: Items::new(alloc),
        }
    }

    /// Counts a node. More nodes than 64 bits can number are answered as want of memory.
    pub(crate) fn add_node(&mut self) -> Result<(), AllocError>
        ensures { OnOk result (Adds self.old self.new one_node) }
    {
        match self.nodes.checked_add(1) {
            Some(nodes) => {
                self.nodes = nodes;
                Ok(())
            }
            None => Err(AllocError),
        }
    }

    /// Adds a use.
    pub(crate) fn add_use(&mut self, used: Use<'a>) -> Result<(), AllocError>
        ensures { OnOk result (Adds self.old self.new (λ c. cost c used.entry)) }
    {
        self.uses.push(used)?;
        Ok(())
    }
}
