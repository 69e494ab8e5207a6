//! The table of parts.

ghost use Rattle.std.specs.Prelude.{◌≡◌, ◌++◌, ◌∷◌, ◌<◌, ◌≤◌, ℕ, List, [], drop, length, nat_eq, take, IfOk, OnErr, OnOk};
ghost use Rattle.std.specs.List.{list_any};
ghost use Rattle.std.specs.Cmp.Lexicographic.{pointwise};
ghost use Rattle.uc_meaning.specs.Steps.{is_prefix};
ghost use Rattle.uc_order_rules.specs.Writes.{overlap};
ghost use Rattle.uc_written_once.specs.Places.{any_front, is_known, hit, AreNoted, Known, Notes};

use crate::places::PathPlaces;
use std::alloc::{AllocError, Global};
use std::marker::Model;
use uc_items::{Items, at};

/// Parts in the order in which they came. A part is a path: the name of a variable and the names of fields down to it.
#[derive(Drop)]
pub struct PartTable {
    parts: Vec<Items<u32>>,
    /// Where a path stands as a part. What is said of a path that is no part may be wrong.
    wholes: PathPlaces,
    /// Where a path stands at the front of a part, likewise.
    fronts: PathPlaces,
}

impl Model for PartTable {
    ghost use Rattle.std.specs.Prelude.{List, ℕ, nat_eq};
    ghost use Rattle.std.specs.Cmp.Lexicographic.{pointwise};
    ghost use Rattle.uc_meaning.specs.Steps.{is_prefix};
    ghost use Rattle.uc_written_once.specs.Places.{Known};

    ghost Value = { List (List ℕ) };

    ghost view = { λ t. t.parts.items };

    ghost invariant = { λ t. Known (pointwise nat_eq) t.wholes t.parts.items × Known is_prefix t.fronts t.parts.items };
}

impl PartTable {
    /// No parts.
    pub fn new(alloc: Global) -> PartTable
        ensures { result ≡ [] }
    {
        let parts = Vec::new(alloc);
        let wholes = PathPlaces::new(alloc);
        let fronts = PathPlaces::new(alloc);
        PartTable {
            parts,
            wholes,
            fronts,
        }
    }

    /// How many parts there are.
    pub fn len(&self) -> usize
        ensures { result ≡ length self.now }
    {
        self.parts.len()
    }

    /// The parts.
    pub fn parts(&self) -> &[Items<u32>]
        ensures { result.now ≡ self.now }
    {
        self.parts.as_slice()
    }

    /// Whether a part lies in one of the table, or contains one.
    pub fn overlaps(&self, part: &[u32]) -> bool
        ensures { result ≡ list_any (λ p. overlap p part.now) self.now }
    {
        let parts = self.parts.as_slice();
        if is_front_known(&self.fronts, parts, part) {
            return true;
        }
        has_known_front(&self.wholes, parts, part)
    }

    /// Adds a part at the end.
    pub fn push(&mut self, alloc: Global, part: Items<u32>) -> Result<(), AllocError>
        ensures ok { OnOk result (self.new ≡ self.old ++ part ∷ []) }
        ensures err { OnErr result (self.new ≡ self.old) }
    {
        note_whole(
            alloc,
            &mut self.wholes,
            self.parts.as_slice(),
            part.as_slice(),
        )?;
        note_fronts(
            alloc,
            &mut self.fronts,
            self.parts.as_slice(),
            part.as_slice(),
        )?;
        self.parts.push(part)?;
        Ok(())
    }

    /// Adds parts at the end.
    pub fn push_all(&mut self, alloc: Global, more: Items<Items<u32>>) -> Result<(), AllocError>
        ensures { OnOk result (self.new ≡ self.old ++ more) }
    {
        for part in more.into_vec() {
            self.push(alloc, part)?;
        }
        Ok(())
    }

    /// Takes the parts from a place on out.
    pub fn split_off(
        &mut self,
        alloc: Global,
        start: usize,
    ) -> Result<Items<Items<u32>>, AllocError>
        ensures kept { OnOk result (self.new ≡ take start self.old) }
        ensures tail { IfOk result (λ tail. tail ≡ drop start self.old) }
    {
        if start >= self.parts.len() {
            return Ok(Items::new(alloc));
        }
        let tail = self.parts.split_off(start)?;
        Ok(Items::from_vec(tail))
    }
}

/// Whether two paths are the same.
fn is_same(path: &[u32], other: &[u32]) -> bool
    ensures { result ≡ pointwise nat_eq path.now other.now }
{
    path == other
}

/// Whether a path is the front of another one.
#[tactic(auto, using(crate::proofs::Overlaps::front_long, crate::proofs::Overlaps::front_same))]
fn is_front(front: &[u32], path: &[u32]) -> bool
    ensures { result ≡ is_prefix front.now path.now }
{
    if front.len() > path.len() {
        return false;
    }
    is_same(front, front_of(path, front.len()))
}

/// The first names of a path.
fn front_of(path: &[u32], end: usize) -> &[u32]
    requires { end ≤ length path.now }
    ensures { result.now ≡ take end path.now }
{
    &path[..end]
}

#[tactic(auto, using(crate::proofs::KnownPlaces::hit_none, crate::proofs::KnownPlaces::hit_some))]
fn is_same_at(parts: &[Items<u32>], place: usize, path: &[u32]) -> bool
    ensures { result ≡ hit (pointwise nat_eq) path.now parts.now place }
{
    match at(parts, place) {
        None => false,
        Some(part) => is_same(path, part.as_slice()),
    }
}

#[tactic(auto, using(crate::proofs::KnownPlaces::hit_none, crate::proofs::KnownPlaces::hit_some))]
fn is_front_at(parts: &[Items<u32>], place: usize, path: &[u32]) -> bool
    ensures { result ≡ hit is_prefix path.now parts.now place }
{
    match at(parts, place) {
        None => false,
        Some(part) => is_front(path, part.as_slice()),
    }
}

fn is_whole_known(places: &PathPlaces, parts: &[Items<u32>], path: &[u32]) -> bool
    ensures { result ≡ is_known (pointwise nat_eq) places.now parts.now path.now }
{
    match places.get(path) {
        None => false,
        Some(place) => is_same_at(parts, place, path),
    }
}

fn is_front_known(places: &PathPlaces, parts: &[Items<u32>], path: &[u32]) -> bool
    ensures { result ≡ is_known is_prefix places.now parts.now path.now }
{
    match places.get(path) {
        None => false,
        Some(place) => is_front_at(parts, place, path),
    }
}

/// Whether a front of a path is known as a part.
fn has_known_front(places: &PathPlaces, parts: &[Items<u32>], path: &[u32]) -> bool
    ensures { result ≡ any_front (is_known (pointwise nat_eq) places.now parts.now) path.now }
{
    for end in 0..path.len() {
        if is_whole_known(places, parts, front_of(path, end)) {
            return true;
        }
    }
    is_whole_known(places, parts, path)
}

/// Notes a path as one that will be the next part.
fn note_whole(
    alloc: Global,
    places: &mut PathPlaces,
    parts: &[Items<u32>],
    path: &[u32],
) -> Result<(), AllocError>
    ensures known { Known (pointwise nat_eq) places.old parts.now → Known (pointwise nat_eq) places.new parts.now }
    ensures noted { OnOk result (Known (pointwise nat_eq) places.old parts.now → Known (pointwise nat_eq) places.new (parts.now ++ path.now ∷ [])) }
{
    let is_known = is_whole_known(places, parts, path);
    places.enter(alloc, path, is_known, parts.len())?;
    Ok(())
}

/// Notes a path as the front of what will be the next part.
fn note_front(
    alloc: Global,
    places: &mut PathPlaces,
    parts: &[Items<u32>],
    front: &[u32],
) -> Result<(), AllocError>
    ensures ok { OnOk result (Notes is_prefix parts.now places.old places.new front.now) }
    ensures known { Known is_prefix places.old parts.now → Known is_prefix places.new parts.now }
{
    let is_known = is_front_known(places, parts, front);
    places.enter(alloc, front, is_known, parts.len())?;
    Ok(())
}

/// Notes the fronts of a path that will be the next part, but for the path itself.
fn note_short_fronts(
    alloc: Global,
    places: &mut PathPlaces,
    parts: &[Items<u32>],
    path: &[u32],
) -> Result<(), AllocError>
    ensures known { Known is_prefix places.old parts.now → Known is_prefix places.new parts.now }
    ensures noted { OnOk result ((k : ℕ) → k < length path.now → AreNoted is_prefix places.new parts.now path.now (take k path.now)) }
{
    for end in 0..path.len() {
        note_front(alloc, places, parts, front_of(path, end))?;
    }
    Ok(())
}

/// Notes all fronts of a path that will be the next part.
fn note_fronts(
    alloc: Global,
    places: &mut PathPlaces,
    parts: &[Items<u32>],
    path: &[u32],
) -> Result<(), AllocError>
    ensures known { Known is_prefix places.old parts.now → Known is_prefix places.new parts.now }
    ensures noted { OnOk result (Known is_prefix places.old parts.now → Known is_prefix places.new (parts.now ++ path.now ∷ [])) }
{
    note_short_fronts(alloc, places, parts, path)?;
    note_front(alloc, places, parts, path)?;
    Ok(())
}
