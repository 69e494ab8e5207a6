//! What code writes.

ghost use Rattle.std.specs.Prelude.{◌≡◌, ◌<◌, ◌++◌, ◌∷◌, [], ℕ, List, filter, nat_lt, IfOk, OnOk};
ghost use Rattle.uc_order_rules.specs.Paths.{in_turn, one_of, times, Stretch};
ghost use Rattle.uc_order_rules.specs.Writes.{Meets, Part};
ghost use Rattle.uc_order_rules.specs.Pairs.{SameThings};
ghost use Rattle.uc_lexer.specs.declared.place.Place.{Place};
ghost use Rattle.uc_module_writes.specs.Found.{is_kept, single, Code, Finds, FindsInTurn, FindsOneOf, GoesOn};

use crate::sets::{PairSet, PartSet};
use std::alloc::{AllocError, Global};
use uc_items::{Items, beside};
use uc_type_names::NameSet;

/// The parts that code writes, those of some names among them, and the pairs of these that it writes on one path, the earlier first.
#[derive(Drop)]
pub struct WrittenPairs {
    parts: PartSet,
    kept: PartSet,
    pairs: PairSet,
}

/// Whether a part is one of some names.
fn is_kept(names: &NameSet, part: &[u32]) -> bool
    ensures { result ≡ is_kept names.now part.now }
{
    match part {
        [] => false,
        [name, ..] => names.contains(*name),
    }
}

impl WrittenPairs {
    /// Nothing is written.
    pub fn new(alloc: Global) -> WrittenPairs
        ensures parts { result.parts ≡ [] }
        ensures kept { result.kept ≡ [] }
        ensures pairs { result.pairs ≡ [] }
    {
        let parts = PartSet::new(alloc);
        let kept = PartSet::new(alloc);
        let pairs = PairSet::new(alloc);
        WrittenPairs { parts, kept, pairs }
    }

    /// All parts.
    pub fn parts(&self) -> &[Items<u32>]
        ensures { result.now ≡ self.now.parts }
    {
        self.parts.as_slice()
    }

    /// The pairs.
    pub fn pairs(&self) -> &[(Items<u32>, Items<u32>)]
        ensures { result.now ≡ self.now.pairs }
    {
        self.pairs.as_slice()
    }

    /// Adds a part that is written on no path with others.
    pub fn add_part(
        &mut self,
        alloc: Global,
        names: &NameSet,
        part: Items<u32>,
    ) -> Result<(), AllocError>
        ensures parts { OnOk result (SameThings self.new.parts (self.old.parts ++ part ∷ [])) }
        ensures kept { OnOk result (SameThings self.new.kept (self.old.kept ++ filter (is_kept names.now) (part ∷ []))) }
        ensures pairs { OnOk result (self.new.pairs ≡ self.old.pairs) }
    {
        self.keep(alloc, names, part.as_slice())?;
        self.parts.add(part)?;
        Ok(())
    }

    fn keep(&mut self, alloc: Global, names: &NameSet, part: &[u32]) -> Result<(), AllocError>
        ensures parts { OnOk result (self.new.parts ≡ self.old.parts) }
        ensures kept { OnOk result (SameThings self.new.kept (self.old.kept ++ filter (is_kept names.now) (part.now ∷ []))) }
        ensures pairs { OnOk result (self.new.pairs ≡ self.old.pairs) }
    {
        if !is_kept(names, part) {
            return Ok(());
        }
        let copy = Items::from_slice(alloc, part)?;
        self.kept.add(copy)?;
        Ok(())
    }

    /// Adds a pair.
    pub fn add_pair(&mut self, earlier: Items<u32>, later: Items<u32>) -> Result<(), AllocError>
        ensures parts { OnOk result (self.new.parts ≡ self.old.parts) }
        ensures kept { OnOk result (self.new.kept ≡ self.old.kept) }
        ensures pairs { OnOk result (SameThings self.new.pairs (self.old.pairs ++ (earlier, later) ∷ [])) }
    {
        self.pairs.add(earlier, later)?;
        Ok(())
    }

    /// Adds what is written next on the same paths.
    pub(crate) fn then(&mut self, alloc: Global, next: &WrittenPairs) -> Result<(), AllocError>
        ensures { OnOk result ((names : List ℕ) (stretch : Meets → Stretch Part) → Finds names stretch next.now → GoesOn names (λ meets. stretch meets ∷ []) self.old self.new) }
    {
        self.pairs.add_copies(alloc, next.pairs.as_slice())?;
        self.pairs
            .add_cross(alloc, self.kept.as_slice(), next.kept.as_slice())?;
        self.parts.add_copies(alloc, next.parts.as_slice())?;
        self.kept.add_copies(alloc, next.kept.as_slice())?;
        Ok(())
    }

    /// Adds what is written on other paths.
    fn or(&mut self, alloc: Global, other: &WrittenPairs) -> Result<(), AllocError>
        ensures { OnOk result ((names : List ℕ) (arms arm : Code) → FindsOneOf names arms self.old → FindsInTurn names arm other.now → FindsOneOf names (λ meets. arms meets ++ in_turn (arm meets) ∷ []) self.new) }
    {
        self.pairs.add_copies(alloc, other.pairs.as_slice())?;
        self.parts.add_copies(alloc, other.parts.as_slice())?;
        self.kept.add_copies(alloc, other.kept.as_slice())?;
        Ok(())
    }

    /// Adds that all is written again.
    fn repeat(&mut self, alloc: Global) -> Result<(), AllocError>
        ensures { OnOk result ((names : List ℕ) (body : Code) (n : ℕ) → 1 < n → FindsInTurn names body self.old → Finds names (λ meets. in_turn (times n (in_turn (body meets)))) self.new) }
    {
        self.pairs
            .add_cross(alloc, self.kept.as_slice(), self.kept.as_slice())?;
        Ok(())
    }

    /// As `then`, and drops what is added.
    pub(crate) fn then_all(&mut self, alloc: Global, next: WrittenPairs) -> Result<(), AllocError>
        ensures { OnOk result ((names : List ℕ) (stretch : Meets → Stretch Part) → Finds names stretch next → GoesOn names (λ meets. stretch meets ∷ []) self.old self.new) }
    {
        let added = self.then(alloc, &next);
        drop(next);
        added
    }

    /// This and what is written on other paths.
    pub(crate) fn or_all(
        self,
        alloc: Global,
        other: WrittenPairs,
    ) -> Result<WrittenPairs, AllocError>
        ensures { IfOk result (λ w. (names : List ℕ) (arms arm : Code) → FindsOneOf names arms self → FindsInTurn names arm other → FindsOneOf names (λ meets. arms meets ++ in_turn (arm meets) ∷ []) w) }
    {
        let mut either = self;
        let added = either.or(alloc, &other);
        drop(other);
        let (either, _) = beside(either, added)?;
        Ok(either)
    }

    /// Adds what is written next in a loop of at least one turn, by what one turn writes.
    pub(crate) fn then_turns(
        &mut self,
        alloc: Global,
        turn: WrittenPairs,
        is_repeated: bool,
    ) -> Result<(), AllocError>
        ensures { OnOk result ((names : List ℕ) (body : Code) (n : ℕ) → 0 < n → is_repeated ≡ nat_lt 1 n → FindsInTurn names body turn → GoesOn names (λ meets. in_turn (times n (in_turn (body meets))) ∷ []) self.old self.new) }
    {
        let turns = repeat_where(alloc, turn, is_repeated)?;
        self.then_all(alloc, turns)?;
        Ok(())
    }

    /// Adds a part that a statement writes.
    pub(crate) fn write(
        &mut self,
        alloc: Global,
        names: &NameSet,
        part: Items<u32>,
    ) -> Result<(), AllocError>
        ensures { OnOk result ((place : Place) → GoesOn names.now (λ meets. single place part meets ∷ []) self.old self.new) }
    {
        let one = part_alone(alloc, names, part)?;
        self.then_all(alloc, one)?;
        Ok(())
    }
}

/// What all turns of a loop write, by what one turn writes.
fn repeat_where(
    alloc: Global,
    turn: WrittenPairs,
    is_repeated: bool,
) -> Result<WrittenPairs, AllocError>
    ensures { IfOk result (λ w. (names : List ℕ) (body : Code) (n : ℕ) → 0 < n → is_repeated ≡ nat_lt 1 n → FindsInTurn names body turn → Finds names (λ meets. in_turn (times n (in_turn (body meets)))) w) }
{
    if !is_repeated {
        return Ok(turn);
    }
    let mut turns = turn;
    let repeated = turns.repeat(alloc);
    let (turns, _) = beside(turns, repeated)?;
    Ok(turns)
}

/// A statement that writes one part.
fn part_alone(alloc: Global, names: &NameSet, part: Items<u32>) -> Result<WrittenPairs, AllocError>
    ensures { IfOk result (λ w. (place : Place) → Finds names.now (single place part) w) }
{
    let mut one = WrittenPairs::new(alloc);
    let added = one.add_part(alloc, names, part);
    let (one, _) = beside(one, added)?;
    Ok(one)
}
