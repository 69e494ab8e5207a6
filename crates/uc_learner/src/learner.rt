//! The learner.

ghost use Rattle.std.specs.Prelude.{◌≡◌, ◌≢◌, ◌+◌, ◌^◌, ◌<◌, ◌≤◌, ℕ, [], length, take, slice_get, slice_index_or, Some, Ok, Err, IfOk};
ghost use Rattle.uc_circuit.specs.Circuits.{inputs_of};
ghost use Rattle.uc_rings.specs.Watched.{IsWatched};
ghost use Rattle.uc_circuit.specs.Clauses.{Satisfies};
ghost use Rattle.uc_circuit.specs.Literals.{literal_value};
ghost use Rattle.uc_log.specs.Problems.{Question};
ghost use Rattle.uc_log.specs.declared.entry.Entry.{Entry};
ghost use Rattle.uc_learner.specs.Opened.{known_now, AcceptsFor};
ghost use Rattle.uc_learner.specs.Recorded.{IsRecorded, Extends};
ghost use Rattle.uc_learner.specs.Learners.{HasTaken, HasTakenFor, IsOver, IsUnitRefutable, valuation};

use crate::learn::{LearnError, Search};
use crate::state::State;
use std::alloc::{AllocError, Global};
use std::marker::Model;
use std::mem;
use uc_circuit::Lit;
use uc_log::{Entry, Log, Meter, Problem};
use uc_rings::Rings;
use uc_terms::Terms;

/// The clauses of a problem and of its log, and what the search knows of them.
#[derive(Drop)]
pub struct Learner {
    state: State,
    /// How many entries of the log were taken over or made.
    entries: u32,
}

impl Model for Learner {
    ghost use Rattle.uc_learner.specs.Learners.{Learning};
    ghost use Rattle.uc_learner.specs.Sound.{Whole};

    ghost Value = { Learning };

    ghost view = { λ l. record { inputs = l.state.inputs.items; clauses = l.state.clauses.items; values = l.state.values.items; entries = l.entries } };

    ghost invariant = { λ l. Whole l.state };
}

impl Learner {
    ghost use Rattle.uc_learner.specs.Sound.{Whole};
    ghost use Rattle.uc_learner.specs.declared.learn.Search.TheVariants.{Candidate, Refuted};
    ghost use Rattle.uc_learner.specs.declared.learn.LearnError.TheVariants.{Budget};

    /// A learner of the problem, which has taken over no entry.
    pub fn new(alloc: Global, p: &Problem) -> Result<Learner, AllocError>
        ensures { IfOk result (λ l. HasTaken p.now [] l) }
    {
        Ok(Learner {
            state: State::of(alloc, p)?,
            entries: 0,
        })
    }

    /// Takes over the next entry of the log. Values of an earlier candidate are forgotten. After an error nothing is told
    /// of the learner.
    pub fn add_entry(&mut self, log: &Log, n: u32) -> Result<(), AllocError>
        requires number { n ≡ self.old.entries }
        requires there { n < length log.now }
        requires over { (e : Entry) → slice_get log.now n ≡ Some e → IsOver (length self.old.inputs) e }
        ensures { IfOk result (λ _. (q : Question) → HasTaken q (take n log.now) self.old → HasTaken q (take (n + 1) log.now) self.new) }
    {
        let _entries = log.len();
        let mut state = self.take_state()?;
        state.add(log.entry(n))?;
        self.state = state;
        self.entries = n + 1;
        Ok(())
    }

    /// Takes the state, and leaves an empty one.
    fn take_state(&mut self) -> Result<State, AllocError>
        ensures whole { IfOk result (λ s. Whole s) }
        ensures inputs { IfOk result (λ s. s.inputs.items ≡ self.old.inputs) }
        ensures clauses { IfOk result (λ s. s.clauses.items ≡ self.old.clauses) }
        ensures entries { self.new.entries ≡ self.old.entries }
    {
        let empty = State::empty(*self.state.clauses.allocator())?;
        Ok(mem::replace(&mut self.state, empty))
    }

    /// For each literal the slots of the clauses that watch it.
    pub fn watches(&self) -> &Rings
        ensures { (c : ℕ) → c < length self.now.clauses → IsWatched (slice_index_or self.now.clauses c []) result.now c }
    {
        &self.state.watches.rings
    }

    /// The literal's value, after a candidate was found. A variable without a value counts as false.
    pub fn value(&self, l: Lit) -> bool
        ensures { result ≡ literal_value (valuation self.now.values) l }
    {
        let value = self.state.values.get(l.var as usize);
        value.copied().flatten().unwrap_or(false) != l.neg
    }

    /// Searches until the values make every clause true or the log is accepted. Where no candidate is found nothing is told
    /// of the learner afterwards.
    pub fn next<M: Meter>(
        &mut self,
        terms: &Terms,
        log: &mut Log,
        budget: u64,
        meter: &mut M,
    ) -> Result<Search, LearnError>
        requires recorded { IsRecorded terms.now (M.opened meter.old) (M.here meter.old) log.old }
        requires total { M.total meter.old + 2 ^ 32 ≤ 2 ^ 127 }
        requires taken { HasTakenFor (M.opened meter.old) log.old self.old }
        ensures recorded { IsRecorded terms.now (M.opened meter.new) (M.here meter.new) log.new }
        ensures opened { M.opened meter.new ≡ M.opened meter.old }
        ensures total { M.total meter.new + M.here meter.old ≡ M.total meter.old + M.here meter.new }
        ensures stay { Extends log.old log.new }
        ensures taken { result ≡ Ok Candidate → HasTakenFor (M.opened meter.new) log.new self.new }
        ensures candidate { result ≡ Ok Candidate → Satisfies (valuation self.new.values) (known_now (M.opened meter.new) log.new).clauses }
        ensures refuted { result ≡ Ok Refuted → AcceptsFor terms.now (M.opened meter.new) log.new }
        ensures budget { result ≡ Err Budget → M.here meter.new ≡ budget }
        ensures within { M.here meter.old ≤ budget → M.here meter.new ≤ budget }
        ensures enough { M.here meter.old + 2 ^ inputs_of (known_now (M.opened meter.old) log.old).circuit ≤ budget → result ≢ Err Budget }
        ensures unit { M.here meter.old + 1 ≤ budget → IsUnitRefutable (length self.old.inputs) self.old.clauses → result ≢ Err Budget }
    {
        let mut state = self.take_state()?;
        match state.next(terms, log, budget, meter)? {
            Search::Candidate => {
                self.state = state;
                self.entries = log.len();
                Ok(Search::Candidate)
            }
            Search::Refuted => Ok(Search::Refuted),
        }
    }
}
