//! Where a name and the names behind its dots lead in a tree.

ghost use Rattle.std.specs.Prelude.{◌≡◌};
ghost use Rattle.uc_uses.specs.Trees.{led_node};

use crate::tree::{InstanceTree, Step};

impl<'a> InstanceTree<'a> {
    /// Where a name of a node and the names behind its dots lead: through instances to a name of one of them. None where they lead into an
    /// instance of a module that isn't there.
    pub fn led(&self, node: usize, name: u32, behind: &[u32]) -> Option<Step>
        ensures { result ≡ led_node self.now node name behind.now }
    {
        let mut at = Step { node, name };
        for next in behind {
            match self.instance(at.node, at.name) {
                None => return Some(at),
                Some(found) => match found {
                    None => return None,
                    Some(below) => {
                        at = Step {
                            node: below,
                            name: *next,
                        };
                    }
                },
            }
        }
        Some(at)
    }
}
