//! The order, and the places as they are put in it.

ghost use Rattle.std.specs.Prelude.{◌≡◌, ◌++◌, ◌∷◌, [], ℕ, ◌<◌, ◌||◌, true, false, List, length, slice_index_or, slice_set, replicate, IfOk, MatchOption, OnOk};
ghost use Rattle.uc_graph.specs.Order.{has, needs};
ghost use Rattle.uc_graph.specs.Places.{IsPlaced};
ghost use Rattle.uc_graph.specs.FirstFreeSteady.{AllWait, IsNext, IsOpen, IsSized, IsSoFar, Steady};

use crate::Lists;
use crate::ready::Ready;
use std::alloc::{AllocError, Global};
use uc_items::{Items, at};

/// The places of a graph, each time the first that needs none of those left; or nothing, where some need each other in a cycle.
pub fn first_free_order(
    alloc: Global,
    graph: &[Items<usize>],
) -> Result<Option<Items<usize>>, AllocError>
    ensures { IfOk result (IsPlaced graph.now) }
{
    let mut settling = Settling::new(alloc, graph.len())?;
    'places: while let Some(place) = settling.next_free(graph)? {
        settling.settle(place)?;
    }
    if settling.count() < graph.len() {
        return Ok(None);
    }
    Ok(Some(settling.into_order()))
}

/// The order so far. A place that isn't in it may be free, or waits for one that it needs.
#[derive(Drop)]
struct Settling {
    /// Whether a place is in the order.
    flags: Items<bool>,
    /// The places that wait for a place.
    waiting: Lists,
    /// Those that may be free.
    ready: Ready,
    order: Items<usize>,
}

impl Settling {
    /// No order yet.
    fn new(alloc: Global, count: usize) -> Result<Settling, AllocError>
        ensures steady { IfOk result (λ s. (graph : List (List ℕ)) → length graph ≡ count → Steady graph s.flags s.waiting s.ready) }
        ensures so_far { IfOk result (λ s. (graph : List (List ℕ)) → length graph ≡ count → IsSoFar graph s.flags s.order) }
    {
        let flags = falses(alloc, count)?;
        let waiting = Lists::new(alloc, count)?;
        let ready = Ready::below(alloc, count)?;
        let order = Items::new(alloc);
        Ok(Settling {
            flags,
            waiting,
            ready,
            order,
        })
    }

    /// The first place that needs none of those left. Those that do wait from now on.
    fn next_free(&mut self, graph: &[Items<usize>]) -> Result<Option<usize>, AllocError>
        requires { Steady graph.now self.old.flags self.old.waiting self.old.ready }
        ensures kept { OnOk result ((self.new.flags ≡ self.old.flags) × (self.new.order ≡ self.old.order)) }
        ensures next { IfOk result (λ found. MatchOption found (AllWait graph.now self.new.flags self.new.waiting) (IsNext graph.now self.new.flags self.new.waiting self.new.ready)) }
    {
        'turns: while let Some(place) = self.ready.take_first() {
            if is_settled(&self.flags, place) {
                continue;
            }
            match first_open(&self.flags, needs_of(graph, place), place) {
                Some(need) => self.waiting.add(need, place)?,
                None => return Ok(Some(place)),
            }
        }
        Ok(None)
    }

    /// Puts a place into the order. Those that wait for it may be free.
    fn settle(&mut self, place: usize) -> Result<(), AllocError>
        requires { place < length self.old.flags }
        ensures settled { OnOk result ((self.new.flags ≡ slice_set self.old.flags place true) × (self.new.order ≡ self.old.order ++ place ∷ [])) }
        ensures kept { OnOk result (self.new.waiting ≡ self.old.waiting) }
        ensures woken { OnOk result ((n : ℕ) → has self.new.ready n ≡ (has self.old.ready n || has (slice_index_or self.old.waiting place []) n)) }
    {
        wake(self.waiting.list(place), &mut self.ready)?;
        self.order.push(place)?;
        self.flags.set(place, true);
        Ok(())
    }

    fn count(&self) -> usize
        ensures { result ≡ length self.now.order }
    {
        self.order.len()
    }

    fn into_order(self) -> Items<usize>
        ensures { result ≡ self.order }
    {
        let Settling {
            flags: _,
            waiting: _,
            ready: _,
            order,
        } = self;
        order
    }
}

fn wake(waiting: &[usize], ready: &mut Ready) -> Result<(), AllocError>
    ensures { OnOk result ((n : ℕ) → has ready.new n ≡ (has ready.old n || has waiting.now n)) }
{
    for place in waiting {
        ready.add(*place)?;
    }
    Ok(())
}

/// The first need of a place that is another open place.
fn first_open(flags: &Items<bool>, needs: &[usize], place: usize) -> Option<usize>
    ensures { MatchOption result ((m : ℕ) → has needs.now m ≡ true → (m ≡ place → ⊥) → slice_index_or flags.now m true ≡ true) (λ m. (has needs.now m ≡ true) × (m ≡ place → ⊥) × IsOpen flags.now m) }
{
    for need in needs {
        if *need != place && !is_settled(flags, *need) {
            return Some(*need);
        }
    }
    None
}

/// What a place needs: nothing past the graph.
fn needs_of(graph: &[Items<usize>], place: usize) -> &[usize]
    ensures { result.now ≡ needs graph.now place }
{
    match at(graph, place) {
        Some(needs) => needs.as_slice(),
        None => &[],
    }
}

/// Whether a place is in the order, or is none.
fn is_settled(flags: &Items<bool>, place: usize) -> bool
    ensures { result ≡ slice_index_or flags.now place true }
{
    match flags.get(place) {
        Some(flag) => *flag,
        None => true,
    }
}

fn falses(alloc: Global, count: usize) -> Result<Items<bool>, AllocError>
    ensures { IfOk result (λ bs. bs ≡ replicate count false) }
{
    let mut flags = Items::new(alloc);
    for _ in 0..count {
        flags.push(false)?;
    }
    Ok(flags)
}
