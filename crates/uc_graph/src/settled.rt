//! Nodes of which it is known whether they lie on a cycle.

ghost use Rattle.std.specs.Prelude.{◌≡◌, ◌<◌, ◌&&◌, ◌||◌, not, nat_eq, nat_lt, ℕ, true, false, length, replicate, IfOk, OnOk};
ghost use Rattle.uc_graph.specs.Order.{has, needs};
ghost use Rattle.uc_graph.specs.Reached.{is_left};
ghost use Rattle.uc_graph.specs.Settling.{Clears, IsReversed, Sets, Settles, SettlesNode};

use crate::take_reached;
use std::alloc::{AllocError, Global};
use uc_items::{Items, at};

/// The nodes of which it isn't known, those that lie on a cycle among the others, and room to mark nodes.
#[derive(Drop)]
pub(crate) struct Settled {
    left: Items<bool>,
    flags: Items<bool>,
    inside: Items<bool>,
}

impl Settled {
    /// Nothing is known of so many nodes.
    pub(crate) fn new(alloc: Global, count: usize) -> Result<Settled, AllocError>
        ensures left { IfOk result (λ s. s.left ≡ replicate count true) }
        ensures flags { IfOk result (λ s. s.flags ≡ replicate count false) }
        ensures inside { IfOk result (λ s. s.inside ≡ replicate count false) }
    {
        let left = flags_of(alloc, count, true)?;
        let flags = flags_of(alloc, count, false)?;
        let inside = flags_of(alloc, count, false)?;
        Ok(Settled {
            left,
            flags,
            inside,
        })
    }

    /// Finds out of a node whether it lies on a cycle, with all others of its cycles. The second graph is the first one reversed.
    pub(crate) fn settle(
        &mut self,
        alloc: Global,
        graph: &[Items<usize>],
        back: &[Items<usize>],
        node: usize,
    ) -> Result<(), AllocError>
        requires { IsReversed graph.now back.now }
        ensures { OnOk result (Settles graph.now self.old → SettlesNode graph.now node self.old self.new) }
    {
        if !is_set(&self.left, node) {
            return Ok(());
        }
        let found = take_reached(alloc, graph, &mut self.left, list_at(graph, node))?;
        if is_set(&self.left, node) {
            set_all(&mut self.left, found.as_slice());
            clear(&mut self.left, node);
            return Ok(());
        }
        set_all(&mut self.inside, found.as_slice());
        let cycle = take_reached(alloc, back, &mut self.inside, list_at(back, node))?;
        clear_all(&mut self.inside, found.as_slice());
        set_all(&mut self.left, found.as_slice());
        clear_all(&mut self.left, cycle.as_slice());
        set_all(&mut self.flags, cycle.as_slice());
        Ok(())
    }

    /// The nodes that lie on a cycle.
    pub(crate) fn into_flags(self) -> Items<bool>
        ensures { result ≡ self.flags }
    {
        let Settled {
            left: _,
            flags,
            inside: _,
        } = self;
        flags
    }
}

fn list_at(graph: &[Items<usize>], node: usize) -> &[usize]
    ensures { result.now ≡ needs graph.now node }
{
    match at(graph, node) {
        Some(list) => list.as_slice(),
        None => &[],
    }
}

fn is_set(flags: &Items<bool>, node: usize) -> bool
    ensures { result ≡ is_left flags.now node }
{
    match flags.get(node) {
        Some(flag) => *flag,
        None => false,
    }
}

/// Sets the flags of some nodes.
fn set_all(flags: &mut Items<bool>, nodes: &[usize])
    ensures { Sets (has nodes.now) flags.old flags.new }
{
    for node in nodes {
        set(flags, *node);
    }
}

fn set(flags: &mut Items<bool>, node: usize)
    ensures { Sets (λ n. nat_eq n node) flags.old flags.new }
{
    if node < flags.len() {
        flags.set(node, true);
    }
}

/// Clears the flags of some nodes.
fn clear_all(flags: &mut Items<bool>, nodes: &[usize])
    ensures { Clears (has nodes.now) flags.old flags.new }
{
    for node in nodes {
        clear(flags, *node);
    }
}

fn clear(flags: &mut Items<bool>, node: usize)
    ensures { Clears (λ n. nat_eq n node) flags.old flags.new }
{
    if node < flags.len() {
        flags.set(node, false);
    }
}

fn flags_of(alloc: Global, count: usize, value: bool) -> Result<Items<bool>, AllocError>
    ensures { IfOk result (λ bs. bs ≡ replicate count value) }
{
    let mut flags = Items::new(alloc);
    for _ in 0..count {
        flags.push(value)?;
    }
    Ok(flags)
}
