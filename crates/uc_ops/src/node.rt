//! The nodes of a table of terms.

use crate::equality::{equal_codes, equal_held, op_code};
use crate::op::Op;
use crate::term_id::TermId;
use std::hash::{Hash, Hasher};
use uc_items::Items;
use uc_values::Ty;

/// An operation on parts, and the type of what it gives. Nodes are equal where they have one operation and the same parts,
/// which determine the type.
pub struct Node {
    pub op: Op,
    pub parts: Items<TermId>,
    pub ty: Ty,
}

impl PartialEq for Node {
    ghost use Rattle.std.specs.Cmp.{partial_equiv_from_equiv};
    ghost use Rattle.uc_ops.specs.Equality.{equal_nodes};
    ghost use Rattle.uc_ops.specs.Decisions.{nodes-equivalence};

    ghost eq = { equal_nodes };

    ghost laws = { partial_equiv_from_equiv nodes-equivalence };

    fn eq(&self, other: &Node) -> bool {
        equal_codes(&op_code(&self.op), &op_code(&other.op))
            && equal_held(&self.op, &other.op)
            && self.parts == other.parts
    }
}

impl Eq for Node {
    ghost use Rattle.uc_ops.specs.Decisions.{nodes-equivalence};

    ghost laws = { nodes-equivalence };
}

impl Hash for Node {
    ghost use Rattle.uc_ops.specs.Equality.{hash_input};
    ghost use Rattle.uc_ops.specs.Decisions.{equal-alike};

    ghost hash_input = { hash_input };

    ghost respects_eq = { equal-alike };

    fn hash<H: Hasher>(&self, state: &mut H) {
        let code = op_code(&self.op);
        code.kind.hash(state);
        code.first.hash(state);
        code.second.hash(state);
        code.number.hash(state);
        self.parts.hash(state);
    }
}

impl Drop for Node {
    fn drop(self) {
        let Node { op, parts, ty } = self;
        drop(op);
        drop(parts);
        drop(ty);
    }
}
