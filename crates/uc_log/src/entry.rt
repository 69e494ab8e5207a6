//! The entries of a log.

ghost use Rattle.std.specs.Prelude.{◌≡◌, ◌↔◌, ◌++◌, ◌∷◌, [], IsTrue, IfOk, length};
ghost use Rattle.uc_log.specs.Entries.{Known, given, added_nodes};
ghost use Rattle.uc_log.specs.Room.{hints_of};

use crate::Atom;
use std::alloc::{AllocError, Global};
use uc_circuit::{Clause, Gate, Lit, clauses_of_gate};
use uc_items::Items;

/// An entry of a log: what it adds to a problem.
pub enum Entry {
    /// A new gate.
    Gate(Gate),
    /// A new input, which stands for the atom.
    Atom(Atom),
    /// A clause, and the numbers of the clauses from which it follows, in order.
    Learnt(Clause, Items<u32>),
}

impl Entry {
    pub fn is_same(&self, other: &Entry) -> bool
        ensures { IsTrue result ↔ (self.now ≡ other.now) }
    {
        match (self, other) {
            (Entry::Gate(gate), Entry::Gate(other_gate)) => gate == other_gate,
            (Entry::Atom(atom), Entry::Atom(other_atom)) => atom.is_same(other_atom),
            (Entry::Learnt(clause, hints), Entry::Learnt(other_clause, other_hints)) => {
                is_same_clause(clause, other_clause) && is_same_list(hints, other_hints)
            }
            _ => false,
        }
    }

    /// The clauses that the entry gives where the circuit has so many inputs and gates before it.
    pub fn clauses(&self, alloc: Global, variables: u32) -> Result<Vec<Clause>, AllocError>
        ensures { IfOk result (λ cs. (k : Known) → length k.circuit ≡ variables → cs.items ≡ given k self.now) }
    {
        match self {
            Entry::Gate(gate) => clauses_of_gate(alloc, variables, *gate),
            Entry::Atom(_) => Ok(Vec::new(alloc)),
            Entry::Learnt(clause, _) => one_clause(alloc, clause.as_slice()),
        }
    }

    /// How many inputs and gates the entry adds.
    pub fn variables_count(&self) -> u32
        ensures { result ≡ length (added_nodes self.now) }
    {
        match self {
            Entry::Gate(_) | Entry::Atom(_) => 1,
            Entry::Learnt(..) => 0,
        }
    }

    /// How many clauses the entry gives.
    pub fn clauses_count(&self) -> usize
        ensures { (k : Known) → length (given k self.now) ≡ result }
    {
        match self {
            Entry::Gate(gate) => gate.clauses_count(),
            Entry::Atom(_) => 0,
            Entry::Learnt(..) => 1,
        }
    }

    pub fn gives_empty_clause(&self) -> bool
        ensures { (k : Known) → IsTrue result ↔ (given k self.now ≡ [] ∷ []) }
    {
        match self {
            Entry::Gate(_) | Entry::Atom(_) => false,
            Entry::Learnt(clause, _) => clause.is_empty(),
        }
    }

    pub(crate) fn hints_count(&self) -> usize
        ensures { result ≡ hints_of self.now }
    {
        match self {
            Entry::Gate(_) | Entry::Atom(_) => 0,
            Entry::Learnt(_, hints) => hints.len(),
        }
    }
}

fn is_same_clause(clause: &Clause, other: &Clause) -> bool
    ensures { IsTrue result ↔ (clause.now ≡ other.now) }
{
    clause.eq(other)
}

fn is_same_list(hints: &Items<u32>, other: &Items<u32>) -> bool
    ensures { IsTrue result ↔ (hints.now ≡ other.now) }
{
    hints == other
}

pub(crate) fn one_clause(alloc: Global, literals: &[Lit]) -> Result<Vec<Clause>, AllocError>
    ensures { IfOk result (λ cs. cs.items ≡ literals.now ∷ []) }
{
    let mut clauses = Vec::new(alloc);
    clauses.push(Clause::from_slice(alloc, literals)?)?;
    Ok(clauses)
}

impl Drop for Entry {
    fn drop(self) {
        match self {
            Entry::Gate(_) => {}
            Entry::Atom(atom) => drop(atom),
            Entry::Learnt(clause, hints) => {
                drop(clause);
                drop(hints);
            }
        }
    }
}
