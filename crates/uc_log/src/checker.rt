//! The checker of a log.

ghost use Rattle.std.specs.Prelude.{◌≡◌, ◌<◌, ◌≤◌, ◌↔◌, ◌^◌, ℕ, None, length, take, slice_set, IsTrue};
ghost use Rattle.uc_log.specs.Refutes.{Refutes, deny, unvalued, forgotten, variables_of, Within, AllWithin, ChangesOnly, Contradicts, IsLearnt};
ghost use Rattle.uc_log.specs.Problems.{IsQuestion, HasNoModel};
ghost use Rattle.uc_log.specs.Entries.{Known, Meets, Accepts};
ghost use Rattle.uc_log.specs.Room.{IsRoomFor, hints_of};

use crate::{Entry, Log, Problem, Scratch};
use uc_circuit::{Clause, ClauseState, Lit, state_of};
use uc_terms::Terms;

/// Whether every entry meets its condition and the last gives the empty clause. Takes no memory. Each entry is read once, and
/// a clause once for each hint that names it.
pub fn check(terms: &Terms, p: &Problem, log: &Log, s: &mut Scratch) -> bool
    requires { IsRoomFor p.now log.now s.old }
    ensures exact { IsTrue result ↔ Accepts terms.now p.now log.now }
    ensures refuted { IsTrue result → HasNoModel terms.now p.now }
    ensures room { s.new ≡ s.old }
{
    check_entries(
        terms,
        p,
        log.entries(),
        s.first,
        s.clauses.as_slice(),
        s.values.as_mut_slice(),
        s.trail.as_mut_slice(),
    )
}

fn check_entries(
    terms: &Terms,
    p: &Problem,
    entries: &[Entry],
    first: usize,
    clauses: &[Clause],
    values: &mut [Option<bool>],
    trail: &mut [u32],
) -> bool
    requires room { IsRoomFor p.now entries.now (record { clauses = clauses.now; first = first; variables = length values.old; steps = length trail.old }) }
    requires unvalued { values.old ≡ unvalued (length values.old) }
    ensures exact { IsTrue result ↔ Accepts terms.now p.now entries.now }
    ensures kept { IsQuestion p.now }
    ensures undone { values.new ≡ values.old }
{
    let mut variables = p.circuit().len() as usize;
    let mut known = first;
    let mut ends_empty = false;
    for entry in entries {
        if !meets(
            terms,
            &clauses[..known],
            &mut values[..variables],
            trail,
            entry,
        ) {
            return false;
        }
        variables += entry.variables_count() as usize;
        known += entry.clauses_count();
        ends_empty = entry.gives_empty_clause();
    }
    ends_empty
}

/// Whether an entry meets its condition after the known clauses of variables without values.
fn meets(
    terms: &Terms,
    known: &[Clause],
    values: &mut [Option<bool>],
    trail: &mut [u32],
    entry: &Entry,
) -> bool
    requires within { AllWithin (length values.old) known.now }
    requires unvalued { values.old ≡ unvalued (length values.old) }
    requires numbered { length values.old < 2 ^ 32 }
    requires steps { hints_of entry.now ≤ length trail.old }
    ensures exact { (k : Known) → length k.circuit ≡ length values.old → k.clauses ≡ known.now → IsTrue result ↔ Meets terms.now k entry.now }
    ensures undone { values.new ≡ values.old }
{
    match entry {
        Entry::Gate(gate) => gate.is_below(values.len() as u32),
        Entry::Atom(atom) => atom.is_meant(terms),
        Entry::Learnt(clause, hints) => is_learnt(
            known,
            values,
            trail,
            clause.as_slice(),
            hints.as_slice(),
        ),
    }
}

/// Whether a learnt clause meets its condition after the known clauses. The values are undone. Takes no memory.
pub fn is_learnt(
    known: &[Clause],
    values: &mut [Option<bool>],
    trail: &mut [u32],
    clause: &[Lit],
    hints: &[u32],
) -> bool
    requires within { AllWithin (length values.old) known.now }
    requires unvalued { values.old ≡ unvalued (length values.old) }
    requires steps { length hints.now ≤ length trail.old }
    ensures exact { IsTrue result ↔ IsLearnt (length values.old) known.now clause.now hints.now }
    ensures undone { values.new ≡ values.old }
{
    if !is_within(values.len(), clause) {
        return false;
    }
    deny_all(values, clause);
    let walk = follow_denied(known, values, trail, clause, hints);
    forget(values, &trail[..walk.steps]);
    forget_clause(values, clause);
    walk.refutes
}

/// How far the hints were followed.
#[derive(Clone, Copy)]
struct Walk {
    /// Whether the last of them, and no other, was false.
    refutes: bool,
    /// How many gave a variable its value.
    steps: usize,
}

/// Follows the hints where the clause is false.
fn follow_denied(
    known: &[Clause],
    values: &mut [Option<bool>],
    trail: &mut [u32],
    clause: &[Lit],
    hints: &[u32],
) -> Walk
    requires within { AllWithin (length values.old) known.now }
    requires clause { Within (length values.old) clause.now }
    requires steps { length hints.now ≤ length trail.old }
    ensures exact { IsTrue result.refutes ↔ Contradicts known.now values.old clause.now hints.now }
    ensures steps { result.steps ≤ length trail.new }
    ensures changes { ChangesOnly values.old values.new (take result.steps trail.new) }
{
    match state_of(clause, values) {
        ClauseState::Falsified => follow(known, values, trail, hints),
        _ => Walk {
            refutes: false,
            steps: 0,
        },
    }
}

/// Makes the literal of each hinted clause true while they are unit.
fn follow(known: &[Clause], values: &mut [Option<bool>], trail: &mut [u32], hints: &[u32]) -> Walk
    requires within { AllWithin (length values.old) known.now }
    requires steps { length hints.now ≤ length trail.old }
    ensures exact { IsTrue result.refutes ↔ Refutes known.now values.old hints.now }
    ensures steps { result.steps ≤ length trail.new }
    ensures changes { ChangesOnly values.old values.new (take result.steps trail.new) }
{
    for i in 0..hints.len() {
        let number = hints[i] as usize;
        if number >= known.len() {
            return Walk {
                refutes: false,
                steps: i,
            };
        }
        match state_of(known[number].as_slice(), values) {
            ClauseState::Falsified => {
                return Walk {
                    refutes: i + 1 == hints.len(),
                    steps: i,
                };
            }
            ClauseState::Unit(literal) => {
                values[literal.var as usize] = Some(!literal.neg);
                trail[i] = literal.var;
            }
            ClauseState::Settled => {
                return Walk {
                    refutes: false,
                    steps: i,
                };
            }
        }
    }
    Walk {
        refutes: false,
        steps: hints.len(),
    }
}

fn is_within(variables: usize, clause: &[Lit]) -> bool
    ensures { IsTrue result ↔ Within variables clause.now }
{
    clause
        .iter()
        .all(|literal| (literal.var as usize) < variables)
}

/// Makes each literal of a clause false.
fn deny_all(values: &mut [Option<bool>], clause: &[Lit])
    requires { Within (length values.old) clause.now }
    ensures { values.new ≡ deny values.old clause.now }
{
    for literal in clause {
        values[literal.var as usize] = Some(literal.neg);
    }
}

/// Takes the values of the variables back.
fn forget(values: &mut [Option<bool>], variables: &[u32])
    ensures { values.new ≡ forgotten values.old variables.now }
{
    for variable in variables {
        take_back(values, *variable);
    }
}

/// Takes the values of the clause's variables back.
fn forget_clause(values: &mut [Option<bool>], clause: &[Lit])
    ensures { values.new ≡ forgotten values.old (variables_of clause.now) }
{
    for literal in clause {
        take_back(values, literal.var);
    }
}

fn take_back(values: &mut [Option<bool>], variable: u32)
    ensures { values.new ≡ slice_set values.old variable None }
{
    let place = variable as usize;
    if place < values.len() {
        values[place] = None;
    }
}
