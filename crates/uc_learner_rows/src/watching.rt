//! Which literals the clauses of a learner watch: the list of each literal is walked, and its slots are compared with the clauses.

ghost use Rattle.std.specs.Prelude.{◌≡◌, ℕ, ◌+◌, ◌*◌, ◌<◌, ◌≤◌, ◌^◌, [], length, slice_index_or};
ghost use Rattle.uc_rings.specs.Lists.{Lists, place_of};
ghost use Rattle.uc_rings.specs.Watched.{IsWatched};
ghost use Rattle.uc_learner.specs.Learners.{HasTaken, HasTakenFor};

use crate::entries::take_over;
use std::alloc::{AllocError, Global};
use uc_circuit::{Clause, Lit};
use uc_learner::{Learner, Search};
use uc_log::{CountMeter, Log, Meter, Problem};
use uc_rings::Rings;
use uc_terms::Terms;

/// A slot that stands in the list of a literal.
#[derive(Clone, Copy)]
struct Place {
    slot: u32,
    literal: Lit,
}

/// What the clauses watch.
#[derive(Clone, Copy)]
pub(crate) struct Count {
    /// How many clauses watch two different literals of theirs.
    pub(crate) two: u32,
    /// How many have not two different literals, and watch none.
    pub(crate) none: u32,
    pub(crate) others: u32,
}

impl Count {
    /// Adds a clause, with the literals in whose lists its slots stand.
    fn add(&mut self, clause: &[Lit], first: &[Lit], second: &[Lit]) {
        match (first, second) {
            ([one], [other]) if one != other && has(clause, *one) && has(clause, *other) => {
                self.two = self.two.wrapping_add(1);
            }
            ([], []) if !has_two(clause) => self.none = self.none.wrapping_add(1),
            _ => self.others = self.others.wrapping_add(1),
        }
    }
}

fn has(clause: &[Lit], literal: Lit) -> bool {
    clause.iter().any(|other| *other == literal)
}

/// Whether the clause has two different literals.
fn has_two(clause: &[Lit]) -> bool {
    match clause.first() {
        None => false,
        Some(first) => clause.iter().any(|other| *other != *first),
    }
}

/// So many variables have lists where the clause watches its literals. A clause of just two different literals watches both, so
/// where the first is negated, its variable has two lists, and so has each one before it.
fn variables_of(clause: &[Lit]) -> u32
    ensures { (rings : Lists) (c : ℕ) → IsWatched clause.now rings c → 2 * result ≤ length rings.lists }
{
    match clause {
        [one, other] if one.neg && *one != *other => one.var.wrapping_add(1),
        _ => 0,
    }
}

/// So many variables have lists where all clauses watch their literals.
fn all_variables(rings: &Rings, clauses: &[Clause]) -> u32
    requires { (c : ℕ) → c < length clauses.now → IsWatched (slice_index_or clauses.now c []) rings.now c }
    ensures { 2 * result ≤ length rings.now.lists }
{
    let mut variables = 0;
    for number in 0..clauses.len() {
        variables = variables_of(clauses[number].as_slice()).max(variables);
    }
    variables
}

/// The slots of a literal's list, and no more than the most.
fn slots_of(alloc: Global, rings: &Rings, literal: Lit, most: usize) -> Result<Vec<u32>, AllocError>
    requires { place_of literal < length rings.now.lists }
{
    let mut slots = Vec::new(alloc);
    let mut place = rings.first(literal);
    for _turn in 0..most {
        let Some(slot) = place else {
            return Ok(slots);
        };
        slots.push(slot)?;
        place = rings.after(slot);
    }
    Ok(slots)
}

/// The slots of all lists.
fn places_of(
    alloc: Global,
    rings: &Rings,
    variables: u32,
    most: usize,
) -> Result<Vec<Place>, AllocError>
    requires { 2 * variables ≤ length rings.now.lists }
{
    let mut places = Vec::new(alloc);
    for var in 0..variables {
        for neg in [false, true] {
            let literal = Lit { var, neg };
            for slot in &slots_of(alloc, rings, literal, most)? {
                places.push(Place {
                    slot: *slot,
                    literal,
                })?;
            }
        }
    }
    Ok(places)
}

/// The literals in whose lists the slot stands.
fn literals_at(alloc: Global, places: &[Place], slot: usize) -> Result<Vec<Lit>, AllocError> {
    let mut literals = Vec::new(alloc);
    for place in places {
        if place.slot as usize == slot {
            literals.push(place.literal)?;
        }
    }
    Ok(literals)
}

/// Compares the slots of all lists with the clauses.
fn counted(alloc: Global, places: &[Place], clauses: &[Clause]) -> Result<Count, AllocError> {
    let mut count = Count {
        two: 0,
        none: 0,
        others: 0,
    };
    let mut slot = 0usize;
    for clause in clauses {
        let first = literals_at(alloc, places, slot)?;
        let second = literals_at(alloc, places, slot.wrapping_add(1))?;
        count.add(clause.as_slice(), first.as_slice(), second.as_slice());
        slot = slot.wrapping_add(2);
    }
    Ok(count)
}

/// The clauses of the problem and of the entries of its log.
fn all_clauses(alloc: Global, p: &Problem, log: &Log) -> Result<Vec<Clause>, AllocError> {
    let mut clauses = p.clauses(alloc)?;
    let mut variables = p.circuit().len();
    for entry in log.entries() {
        clauses.append(&mut entry.clauses(alloc, variables)?)?;
        variables = variables
            .checked_add(entry.variables_count())
            .ok_or(AllocError)?;
    }
    Ok(clauses)
}

/// What the clauses watch of a learner that has taken over the log.
fn look<M: Meter>(
    alloc: Global,
    log: &Log,
    meter: &M,
    learner: &Learner,
) -> Result<Count, AllocError>
    requires { HasTakenFor (M.opened meter.now) log.now learner.now }
{
    match meter.problem() {
        None => Err(AllocError),
        Some(p) => {
            let rings = learner.watches();
            let first = p.clauses(alloc)?;
            let variables = all_variables(rings, first.as_slice());
            let clauses = all_clauses(alloc, p, log)?;
            let places = places_of(alloc, rings, variables, clauses.len())?;
            counted(alloc, places.as_slice(), clauses.as_slice())
        }
    }
}

/// What the clauses watch in the course of a search.
#[derive(Clone, Copy)]
pub(crate) struct Watched {
    pub(crate) first: Count,
    /// Where the search found a candidate.
    pub(crate) candidate: Option<Count>,
    /// How many entries the search made.
    pub(crate) entries: u32,
    /// The watches of another learner that took these over.
    pub(crate) taken: Count,
}

fn observed<M: Meter>(
    alloc: Global,
    terms: &Terms,
    p: Problem,
    budget: u64,
    meter: &mut M,
) -> Result<Watched, AllocError>
    requires { M.total meter.old < 2 ^ 120 }
{
    let mut searching = Learner::new(alloc, &p)?;
    observe_from(alloc, terms, p, &mut searching, budget, meter)
}

/// The learner searches, and another one takes over.
fn observe_from<M: Meter>(
    alloc: Global,
    terms: &Terms,
    p: Problem,
    searching: &mut Learner,
    budget: u64,
    meter: &mut M,
) -> Result<Watched, AllocError>
    requires searching { HasTaken p [] searching.old }
    requires total { M.total meter.old < 2 ^ 120 }
{
    let mut taking = Learner::new(alloc, &p)?;
    observe(alloc, terms, p, searching, &mut taking, budget, meter)
}

/// The one learner searches, and the other one takes over.
fn observe<M: Meter>(
    alloc: Global,
    terms: &Terms,
    p: Problem,
    searching: &mut Learner,
    taking: &mut Learner,
    budget: u64,
    meter: &mut M,
) -> Result<Watched, AllocError>
    requires searching { HasTaken p [] searching.old }
    requires taking { HasTaken p [] taking.old }
    requires total { M.total meter.old < 2 ^ 120 }
{
    let mut log = Log::new(alloc)?;
    meter.open(p);
    let first = look(alloc, &log, meter, searching)?;
    let candidate = match searching.next(terms, &mut log, budget, meter) {
        Ok(Search::Candidate) => Some(look(alloc, &log, meter, searching)?),
        _ => None,
    };
    take_over(terms, &log, meter, taking)?;
    Ok(Watched {
        first,
        candidate,
        entries: log.len(),
        taken: look(alloc, &log, meter, taking)?,
    })
}

/// What the clauses of a problem watch at first, with a candidate, and where entries of the search are taken over.
pub(crate) fn observed_alone(
    alloc: Global,
    p: Problem,
    budget: u64,
) -> Result<Watched, AllocError> {
    let terms = Terms::new(alloc)?;
    let mut meter = CountMeter::new();
    observed(alloc, &terms, p, budget, &mut meter)
}
