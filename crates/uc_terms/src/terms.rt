//! The table of terms.

ghost use Rattle.std.specs.Prelude.{◌≡◌, ℕ, ◌<◌, ◌≤◌, ◌+◌, ◌^◌, [], length, slice_get, IfOk, OnOk, OnErr, All, Some};
ghost use Rattle.uc_ops.specs.Typing.{AllValid, Suits, Valid, type_at, type_of, types_at};
ghost use Rattle.uc_ops.specs.Meaning.{apply};
ghost use Rattle.uc_ops.specs.declared.model.Model.{Model};
ghost use Rattle.uc_terms.specs.Tables.{WellTyped, NoTwoEqual, Makes, Adds, HasOp, node_of, parts_at};
ghost use Rattle.uc_terms.specs.Values.{value, values_at};
ghost use Rattle.uc_terms.specs.Laws.{KeepsValues};

use indexmap::IndexSet;
use std::alloc::{AllocError, Global};
use std::marker::Model;
use uc_items::{Items, beside};
use uc_ops::{Node, Op, TermId, result_type};
use uc_values::Ty;

/// The nodes, by number. Equal nodes are shared.
pub struct Terms {
    nodes: IndexSet<Node>,
}

impl Model for Terms {
    ghost use Rattle.std.specs.Prelude.{List};
    ghost use Rattle.std.specs.Coded.{codes};
    ghost use Rattle.uc_values.specs.contracts.ty.Ty as ty;
    ghost use Rattle.uc_values.specs.contracts.value.Value as value;
    ghost use Rattle.uc_ops.specs.declared.node.Node.{Node};
    ghost use Rattle.uc_terms.specs.Tables.{IsTable};

    ghost Value = { List Node };

    ghost coded = { Prim.hlevel (codes, ty.the_row.coded, value.the_row.coded) };

    ghost view = { λ s. s.nodes.keys };

    ghost invariant = { λ s. IsTable s.nodes.keys };
}

impl Terms {
    /// A table without nodes.
    pub fn new(alloc: Global) -> Result<Terms, AllocError>
        ensures { IfOk result (λ t. t ≡ []) }
    {
        Ok(Terms {
            nodes: IndexSet::new(alloc),
        })
    }

    /// The number of nodes.
    pub fn len(&self) -> u32
        ensures len { result ≡ length self.now }
        ensures shared { NoTwoEqual self.now }
        ensures well { WellTyped self.now }
    {
        self.nodes.len() as u32
    }

    /// All nodes, by number.
    pub fn nodes(&self) -> &[Node]
        ensures nodes { result.now ≡ self.now }
        ensures shared { NoTwoEqual self.now }
        ensures well { WellTyped self.now }
    {
        self.nodes.as_slice()
    }

    /// The node at a place.
    pub fn node(&self, place: usize) -> &Node
        requires { place < length self.now }
        ensures node { slice_get self.now place ≡ Some result.now }
        ensures well { WellTyped self.now }
    {
        let nodes = self.nodes.as_slice();
        &nodes[place]
    }

    /// The number of an operation on parts that suit it: that of the equal node where there is one.
    pub fn mk(&mut self, alloc: Global, op: Op, parts: &[TermId]) -> Result<TermId, AllocError>
        requires there { All (λ p. p < length self.old) parts.now }
        requires suits { Suits op (types_at self.old parts.now) }
        ensures ok { IfOk result (λ t. Makes self.old self.new t op parts.now) }
        ensures len { IfOk result (λ t. Adds self.old self.new op parts.now) }
        ensures value { IfOk result (λ t. (m : Model) → value m self.new t ≡ apply m op (types_at self.old parts.now) (values_at m self.old parts.now)) }
        ensures kept { KeepsValues self.old self.new }
        ensures err { OnErr result (self.new ≡ self.old) }
    {
        let node = new_node(alloc, self.nodes.as_slice(), op, parts)?;
        let (place, _) = self.nodes.insert_full(node)?;
        Ok(TermId::new(place as u32))
    }

    /// The operation of a term.
    pub fn op(&self, t: TermId) -> &Op
        requires { t < length self.now }
        ensures op { HasOp self.now t result.now }
        ensures well { WellTyped self.now }
    {
        &self.node(t.index()).op
    }

    /// The parts of a term, whose numbers are smaller.
    pub fn parts(&self, t: TermId) -> &[TermId]
        requires { t < length self.now }
        ensures parts { result.now ≡ parts_at self.now t }
        ensures before { All (λ p. p < t) result.now }
    {
        self.node(t.index()).parts.as_slice()
    }

    /// The type of a term.
    pub fn ty(&self, t: TermId) -> &Ty
        requires { t < length self.now }
        ensures ty { result.now ≡ type_at self.now t }
        ensures valid { Valid result.now }
    {
        &self.node(t.index()).ty
    }
}

/// The node of an operation on parts that suit it, where a table has room for one more.
fn new_node(alloc: Global, nodes: &[Node], op: Op, parts: &[TermId]) -> Result<Node, AllocError>
    requires suits { Suits op (types_at nodes.now parts.now) }
    requires valid { AllValid (types_at nodes.now parts.now) }
    ensures node { IfOk result (λ node. node ≡ node_of nodes.now op parts.now) }
    ensures room { IfOk result (λ _. length nodes.now + 1 < 2 ^ 32) }
{
    let found = type_and_parts(alloc, nodes, &op, parts);
    let (op, (ty, parts)) = beside(op, found)?;
    Ok(Node { op, parts, ty })
}

/// The type of an operation on parts that suit it, and the parts, where a table has room for one more.
fn type_and_parts(
    alloc: Global,
    nodes: &[Node],
    op: &Op,
    parts: &[TermId],
) -> Result<(Ty, Items<TermId>), AllocError>
    requires suits { Suits op.now (types_at nodes.now parts.now) }
    requires valid { AllValid (types_at nodes.now parts.now) }
    ensures ty { IfOk result (λ found. found.0 ≡ type_of op.now (types_at nodes.now parts.now)) }
    ensures parts { IfOk result (λ found. found.1 ≡ parts.now) }
    ensures room { IfOk result (λ _. length nodes.now + 1 < 2 ^ 32) }
{
    if nodes.len() >= u32::MAX as usize {
        return Err(AllocError);
    }
    let ty = result_type(alloc, nodes, op, parts)?;
    beside(ty, Items::from_slice(alloc, parts))
}

impl Drop for Terms {
    fn drop(self) {
        let Terms { nodes } = self;
        drop(nodes);
    }
}
