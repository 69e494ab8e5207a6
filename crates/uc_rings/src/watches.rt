//! Which literals each clause watches.

ghost use Rattle.std.specs.Prelude.{◌≡◌, ℕ, ◌+◌, ◌*◌, ◌^◌, ◌≤◌, ◌<◌, List, [], ◌∷◌, ◌++◌, Some, length, set, All, OnOk, IfOk};
ghost use Rattle.uc_circuit.specs.declared.literal.Lit.{Lit};
ghost use Rattle.uc_rings.specs.Lists.{InAList, place_of, with_front, without};
ghost use Rattle.uc_rings.specs.Pairs.{TwoOf, FirstTwo};

use crate::Rings;
use std::alloc::{AllocError, Global};
use uc_circuit::Lit;

/// Slots and literals have numbers of 32 bits.
const MOST: usize = 1 << 31;

/// The literals that the clauses watch.
#[derive(Drop)]
pub struct Watches {
    /// For each literal the slots that watch it.
    pub rings: Rings,
    /// The literal that each slot watches.
    pub watched: Vec<Option<Lit>>,
    /// The clauses without two different literals. They watch none.
    pub narrow: Vec<u32>,
    /// How many literals there are, both signs of a variable counted.
    pub literals: u32,
}

impl Watches {
    ghost use Rattle.uc_rings.specs.Watched.{Linked, IsLinked, HasAdded};

    /// Of no clause and no variable.
    pub fn new(alloc: Global) -> Result<Watches, AllocError>
        ensures { IfOk result (λ w. Linked [] 0 w) }
    {
        Ok(Watches {
            rings: Rings::new(alloc)?,
            watched: Vec::new(alloc),
            narrow: Vec::new(alloc),
            literals: 0,
        })
    }

    /// Makes room for so many variables.
    pub fn grow(&mut self, variables: usize) -> Result<(), AllocError>
        requires linked { IsLinked self.old }
        requires more { self.old.literals ≤ 2 * variables }
        ensures { OnOk result ((cs : List (List Lit)) (n : ℕ) → Linked cs n self.old → Linked cs variables self.new) }
    {
        let clauses = self.watched.len() / 2;
        if variables >= MOST || clauses > MOST {
            return Err(AllocError);
        }
        let literals = 2 * variables as u32;
        self.rings.grow(clauses as u32, literals)?;
        self.literals = literals;
        Ok(())
    }

    /// Takes over one clause more. One that begins with two different literals watches these.
    pub fn add(&mut self, clause: &[Lit]) -> Result<(), AllocError>
        requires linked { IsLinked self.old }
        requires within { All (λ l. place_of l < self.old.literals) clause.now }
        ensures linked { OnOk result ((cs : List (List Lit)) (n : ℕ) → Linked cs n self.old → Linked (cs ++ clause.now ∷ []) n self.new) }
        ensures added { OnOk result (HasAdded self.old.watched.items clause.now self.new.watched.items) }
    {
        let number = self.watched.len() / 2;
        if number >= MOST {
            return Err(AllocError);
        }
        self.rings.grow(number as u32 + 1, self.literals)?;
        match two_of(clause) {
            None => self.add_narrow(number as u32)?,
            Some((first, second)) => self.add_pair(number as u32, first, second)?,
        }
        Ok(())
    }

    /// The clause of that number watches no literal.
    fn add_narrow(&mut self, number: u32) -> Result<(), AllocError>
        ensures watched { OnOk result (self.new.watched.items ≡ (self.old.watched.items ++ None ∷ []) ++ None ∷ []) }
        ensures narrow { OnOk result (self.new.narrow.items ≡ self.old.narrow.items ++ number ∷ []) }
        ensures rings { self.new.rings ≡ self.old.rings }
        ensures literals { self.new.literals ≡ self.old.literals }
    {
        self.watched.push(None)?;
        self.watched.push(None)?;
        self.narrow.push(number)?;
        Ok(())
    }

    /// The clause of that number watches two literals.
    fn add_pair(&mut self, number: u32, first: Lit, second: Lit) -> Result<(), AllocError>
        requires first { place_of first < length self.old.rings.lists }
        requires second { place_of second < length self.old.rings.lists }
        requires number { number + 1 ≡ self.old.rings.clauses }
        requires few { number < 2 ^ 31 }
        requires fresh { All (λ xs. All (λ s. s < 2 * number) xs) self.old.rings.lists }
        ensures watched { OnOk result (self.new.watched.items ≡ (self.old.watched.items ++ Some first ∷ []) ++ Some second ∷ []) }
        ensures narrow { self.new.narrow.items ≡ self.old.narrow.items }
        ensures rings { OnOk result (self.new.rings ≡ with_front (with_front self.old.rings first (2 * number)) second (2 * number + 1)) }
        ensures literals { self.new.literals ≡ self.old.literals }
    {
        self.watched.push(Some(first))?;
        self.watched.push(Some(second))?;
        self.rings.link_front(first, 2 * number);
        self.rings.link_front(second, 2 * number + 1);
        Ok(())
    }

    /// Makes a slot that watches a literal watch another one.
    pub fn move_slot(&mut self, slot: u32, to: Lit)
        requires slot { slot < length self.old.watched.items }
        requires slots { length self.old.watched.items ≡ 2 * self.old.rings.clauses }
        requires stands { InAList self.old.rings slot }
        requires to { place_of to < length self.old.rings.lists }
        ensures watched { self.new.watched.items ≡ set self.old.watched.items slot (Some to) }
        ensures rings { self.new.rings ≡ with_front (without self.old.rings slot) to slot }
        ensures narrow { self.new.narrow ≡ self.old.narrow }
        ensures literals { self.new.literals ≡ self.old.literals }
    {
        self.rings.unlink(slot);
        self.rings.link_front(to, slot);
        self.watched[slot as usize] = Some(to);
    }
}

/// Two different literals of a clause, None where it has not two.
fn two_of(clause: &[Lit]) -> Option<(Lit, Lit)>
    ensures two { TwoOf clause.now result }
    ensures first { FirstTwo clause.now result }
{
    let first = *clause.first()?;
    for literal in clause {
        if *literal != first {
            return Some((first, *literal));
        }
    }
    None
}
