//! The lists of all literals.

ghost use Rattle.std.specs.Prelude.{◌≡◌, ℕ, ◌+◌, ◌-◌, ◌*◌, ◌^◌, ◌<◌, ◌≤◌, List, [], ◌∷◌, ◌++◌, length, replicate, OnOk, OnErr, IfOk};
ghost use Rattle.uc_rings.specs.Lists.{AreApart, InAList, InNoList, first_of, place_of, slots_of, with_front, without, grown};
ghost use Rattle.uc_rings.specs.Links.{Within, first_without, with_next, with_previous};

use std::alloc::{AllocError, Global};
use std::marker::Model;
use uc_circuit::Lit;

/// Where a slot stands: the place of the literal whose list has it, and its neighbours there.
#[derive(Clone, Copy)]
struct Slot {
    list: Option<u32>,
    next: Option<u32>,
    previous: Option<u32>,
}

const FREE: Slot = Slot {
    list: None,
    next: None,
    previous: None,
};

/// For each literal a list of slots. A slot stands in one list at most.
#[derive(Drop)]
pub struct Rings {
    /// The first slot of each literal's list.
    first: Vec<Option<u32>>,
    /// Two slots for each clause.
    slots: Vec<Slot>,
}

impl Model for Rings {
    ghost use Rattle.uc_rings.specs.Lists.{Lists};

    ghost Value = { Lists };

    ghost use Rattle.uc_rings.specs.Links.{lists_in, AreLinked};

    ghost view = { λ r. lists_in r.first.items r.slots.items };

    ghost invariant = { λ r. AreLinked r.first.items r.slots.items };
}

impl Rings {
    /// Of no clause and no literal.
    pub fn new(alloc: Global) -> Result<Rings, AllocError>
        ensures { IfOk result (λ r. r ≡ record { clauses = 0; lists = [] }) }
    {
        Ok(Rings {
            first: Vec::new(alloc),
            slots: Vec::new(alloc),
        })
    }

    /// Makes room for so many clauses and literals, both signs of a variable counted. The lists
    /// stay, and those of new literals are empty. Slots have numbers of 32 bits, so 2^31 clauses
    /// are the most.
    pub fn grow(&mut self, clauses: u32, lits: u32) -> Result<(), AllocError>
        requires clauses { self.old.clauses ≤ clauses }
        requires lits { length self.old.lists ≤ lits }
        ensures ok { OnOk result (self.new ≡ grown self.old clauses lits) }
        ensures err { OnErr result (self.new ≡ self.old) }
    {
        if clauses > MOST_CLAUSES {
            return Err(AllocError);
        }
        let lits = lits as usize;
        self.first.reserve(lits - self.first.len())?;
        self.slots.resize(2 * clauses as usize, FREE)?;
        self.first.resize(lits, None)
    }

    /// Puts a slot that is in no list at the front of the literal's list.
    pub fn link_front(&mut self, lit: Lit, slot: u32)
        requires lit { place_of lit < length self.old.lists }
        requires slot { slot < 2 * self.old.clauses }
        requires free { InNoList self.old slot }
        ensures { self.new ≡ with_front self.old lit slot }
    {
        let place = place(lit);
        let next = self.first[place];
        lead_back(&mut self.slots, next, Some(slot));
        self.slots[slot as usize] = Slot {
            list: Some(place as u32),
            next,
            previous: None,
        };
        self.first[place] = Some(slot);
    }

    /// Takes a slot out of the list that has it.
    pub fn unlink(&mut self, slot: u32)
        requires { InAList self.old slot }
        ensures lists { self.new ≡ without self.old slot }
        ensures free { InNoList self.new slot }
    {
        let Slot {
            list,
            next,
            previous,
        } = self.slots[slot as usize];
        lead_back(&mut self.slots, next, previous);
        lead_on(&mut self.slots, previous, next);
        lead_first(&mut self.first, list, previous, next);
        self.slots[slot as usize] = FREE;
    }

    /// The first slot of the literal's list.
    pub fn first(&self, lit: Lit) -> Option<u32>
        requires { place_of lit < length self.now.lists }
        ensures first { result ≡ first_of (slots_of self.now lit) }
        ensures apart { AreApart self.now }
    {
        self.first[place(lit)]
    }

    /// The slot behind a slot of a list.
    pub fn after(&self, slot: u32) -> Option<u32>
        requires { InAList self.now slot }
        ensures after { (lit : Lit) (before rest : List ℕ) → slots_of self.now lit ≡ before ++ slot ∷ rest → result ≡ first_of rest }
        ensures apart { AreApart self.now }
    {
        self.slots[slot as usize].next
    }
}

const MOST_CLAUSES: u32 = 1 << 31;

/// The place of a literal's list.
fn place(lit: Lit) -> usize
    ensures { result ≡ place_of lit }
{
    2 * lit.var as usize + usize::from(lit.neg)
}

/// Makes a slot, if there is one, lead on to `next`.
fn lead_on(slots: &mut [Slot], slot: Option<u32>, next: Option<u32>)
    requires { Within slot (length slots.old) }
    ensures { slots.new ≡ with_next slots.old slot next }
{
    if let Some(slot) = slot {
        slots[slot as usize].next = next;
    }
}

/// Makes a slot, if there is one, lead back to `previous`.
fn lead_back(slots: &mut [Slot], slot: Option<u32>, previous: Option<u32>)
    requires { Within slot (length slots.old) }
    ensures { slots.new ≡ with_previous slots.old slot previous }
{
    if let Some(slot) = slot {
        slots[slot as usize].previous = previous;
    }
}

/// Makes a list begin with `next` where nothing stood before it.
fn lead_first(
    first: &mut [Option<u32>],
    list: Option<u32>,
    previous: Option<u32>,
    next: Option<u32>,
)
    requires { Within list (length first.old) }
    ensures { first.new ≡ first_without first.old list previous next }
{
    if let Some(place) = list
        && previous.is_none()
    {
        first[place as usize] = next;
    }
}
