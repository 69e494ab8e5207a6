//! The order as it grows.

ghost use Rattle.std.specs.Prelude.{◌≡◌, ◌++◌, ◌∷◌, [], ℕ, ◌<◌, ◌≤◌, true, false, length, slice_get, slice_index_or, slice_set, replicate, List, IfOk, OnOk};
ghost use Rattle.uc_graph.specs.Order.{has};
ghost use Rattle.uc_graph.specs.NeededFirstSteady.{IsFewer, IsSized, Steady};

use crate::Lists;
use std::alloc::{AllocError, Global};
use uc_items::{Items, at};

/// The order so far. A node that isn't in it waits at the first of its needs that isn't.
#[derive(Drop)]
pub(crate) struct Settling {
    /// Whether a node is in the order.
    flags: Items<bool>,
    /// How many of the needs of a node, from the first on, are known to be in the order.
    passed: Items<usize>,
    /// The nodes that wait for a node.
    parked: Lists,
    order: Items<usize>,
}

impl Settling {
    /// No order yet.
    pub(crate) fn new(alloc: Global, count: usize) -> Result<Settling, AllocError>
        ensures sized { IfOk result (λ s. (graph : List (List ℕ)) → length graph ≡ count → IsSized graph s.flags s.passed s.parked) }
        ensures steady { IfOk result (λ s. (graph : List (List ℕ)) (pending : List ℕ) → length graph ≡ count → ((n : ℕ) → n < count → has pending n ≡ true) → Steady graph s.flags s.passed s.parked s.order pending) }
    {
        let flags = falses(alloc, count)?;
        let passed = zeros(alloc, count)?;
        let parked = Lists::new(alloc, count)?;
        let order = Items::new(alloc);
        Ok(Settling {
            flags,
            passed,
            parked,
            order,
        })
    }

    /// Takes a node that waits for its turn: it is put into the order, and those that wait for it are woken, or it waits for a need.
    pub(crate) fn take_turn(
        &mut self,
        graph: &[Items<usize>],
        node: usize,
        woken: &mut Items<usize>,
    ) -> Result<(), AllocError>
        requires { IsSized graph.now self.old.flags self.old.passed self.old.parked }
        ensures sized { OnOk result (IsSized graph.now self.new.flags self.new.passed self.new.parked) }
        ensures steady { OnOk result ((rest : List ℕ) → Steady graph.now self.old.flags self.old.passed self.old.parked self.old.order (node ∷ (rest ++ woken.old)) → Steady graph.now self.new.flags self.new.passed self.new.parked self.new.order (rest ++ woken.new)) }
        ensures fewer { OnOk result (IsFewer self.old.flags woken.old self.new.flags woken.new) }
    {
        let Some(needs) = at(graph, node) else {
            return Ok(());
        };
        if is_set(&self.flags, node) {
            return Ok(());
        }
        let start = number_at(&self.passed, node);
        let passed = first_unmet(&self.flags, needs, start);
        self.passed.set(node, passed);
        match nth(needs, passed) {
            Some(need) => self.park(need, node),
            None => self.settle(node, woken),
        }
    }

    /// Has a node wait for a need.
    fn park(&mut self, need: usize, node: usize) -> Result<(), AllocError>
        ensures kept { OnOk result ((self.new.flags ≡ self.old.flags) × (self.new.passed ≡ self.old.passed) × (self.new.order ≡ self.old.order)) }
        ensures parked { OnOk result (self.new.parked ≡ slice_set self.old.parked need (slice_index_or self.old.parked need [] ++ node ∷ [])) }
    {
        self.parked.add(need, node)?;
        Ok(())
    }

    /// Puts a node into the order, and wakes those that wait for it.
    fn settle(&mut self, node: usize, woken: &mut Items<usize>) -> Result<(), AllocError>
        requires { node < length self.old.flags }
        ensures kept { OnOk result ((self.new.passed ≡ self.old.passed) × (self.new.parked ≡ self.old.parked)) }
        ensures settled { OnOk result ((self.new.flags ≡ slice_set self.old.flags node true) × (self.new.order ≡ self.old.order ++ node ∷ [])) }
        ensures woken { OnOk result (woken.new ≡ woken.old ++ slice_index_or self.old.parked node []) }
    {
        wake(self.parked.list(node), woken)?;
        self.order.push(node)?;
        self.flags.set(node, true);
        Ok(())
    }

    pub(crate) fn into_order(self) -> Items<usize>
        ensures { result ≡ self.order }
    {
        let Settling {
            flags: _,
            passed: _,
            parked: _,
            order,
        } = self;
        order
    }
}

/// Adds numbers at the end.
fn wake(parked: &[usize], woken: &mut Items<usize>) -> Result<(), AllocError>
    ensures { OnOk result (woken.new ≡ woken.old ++ parked.now) }
{
    for node in parked {
        woken.push(*node)?;
    }
    Ok(())
}

/// The place of the first need, from a place on, whose flag isn't set, or a place past them all.
fn first_unmet(flags: &Items<bool>, needs: &Items<usize>, start: usize) -> usize
    ensures met { (k : ℕ) → start ≤ k → k < result → slice_index_or flags.now (slice_index_or needs.now k 0) false ≡ true }
    ensures unmet { result < length needs.now → slice_index_or flags.now (slice_index_or needs.now result 0) false ≡ false }
{
    for k in start..needs.len() {
        if !is_set(flags, number_at(needs, k)) {
            return k;
        }
    }
    needs.len()
}

fn is_set(flags: &Items<bool>, node: usize) -> bool
    ensures { result ≡ slice_index_or flags.now node false }
{
    match flags.get(node) {
        Some(flag) => *flag,
        None => false,
    }
}

fn number_at(numbers: &Items<usize>, k: usize) -> usize
    ensures { result ≡ slice_index_or numbers.now k 0 }
{
    match numbers.get(k) {
        Some(number) => *number,
        None => 0,
    }
}

fn nth(numbers: &Items<usize>, k: usize) -> Option<usize>
    ensures { result ≡ slice_get numbers.now k }
{
    numbers.get(k).copied()
}

fn falses(alloc: Global, count: usize) -> Result<Items<bool>, AllocError>
    ensures { IfOk result (λ bs. bs ≡ replicate count false) }
{
    let mut flags = Items::new(alloc);
    for _ in 0..count {
        flags.push(false)?;
    }
    Ok(flags)
}

fn zeros(alloc: Global, count: usize) -> Result<Items<usize>, AllocError>
    ensures { IfOk result (λ ns. ns ≡ replicate count 0) }
{
    let mut numbers = Items::new(alloc);
    for _ in 0..count {
        numbers.push(0)?;
    }
    Ok(numbers)
}
