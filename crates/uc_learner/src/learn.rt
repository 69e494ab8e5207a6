//! The loop: descend, analyze, record, learn.

ghost use Rattle.std.specs.Prelude.{◌≡◌, ◌≢◌, ◌+◌, ◌^◌, ◌<◌, ◌≤◌, ℕ, List, [], ◌∷◌, ◌++◌, length, All, OnOk, IfOk, OnErr, Ok, Err, Contains};
ghost use Rattle.uc_log.specs.declared.entry.Entry.TheVariants.{Learnt};
ghost use Rattle.uc_learner.specs.Opened.{known_now, AcceptsFor, GivesEmpty, HasQuestion};
ghost use Rattle.uc_learner.specs.Recorded.{IsRecorded, LearntFits, KeepsRecord, RecordsOne};
ghost use Rattle.uc_learner.specs.Answered.{NoneEmpty, NoneEmptyAfter, IsEmptyAt, LastEmpty, Holds, HoldsFor, HasCandidate, AtConflict, Concluded, UnitRefutable, inputs_count};
ghost use Rattle.uc_learner.specs.Learners.{input_flags};
ghost use Rattle.uc_learner.specs.Roamed.{Turned, Refreshed, Roamed, Spares};

use crate::acceptance::Lesson;
use crate::state::{State, Step};
use std::alloc::{AllocError, Global};
use std::mem;
use uc_circuit::{Clause, Lit};
use uc_items::Items;
use uc_log::{Entry, Log, Meter};
use uc_terms::Terms;

/// How a search ends.
#[derive(Clone, Copy, Debug, PartialEq, Eq)]
pub enum Search {
    /// The learner's values make every clause true.
    Candidate,
    /// The log is accepted.
    Refuted,
}

/// Why a search stopped before its end.
#[derive(Clone, Copy, Debug, PartialEq, Eq)]
pub enum LearnError {
    NoMemory,
    Budget,
}

impl From<AllocError> for LearnError {
    ghost use Rattle.uc_learner.specs.declared.learn.LearnError.TheVariants.{NoMemory};

    ghost from_gives = { λ _ e. e ≡ NoMemory };

    fn from(_error: AllocError) -> LearnError {
        LearnError::NoMemory
    }
}

/// Adds a learnt clause to the log, and spends it.
fn record<M: Meter>(
    terms: &Terms,
    log: &mut Log,
    meter: &mut M,
    clause: Clause,
    hints: Items<u32>,
) -> Result<(), AllocError>
    requires recorded { IsRecorded terms.now (M.opened meter.old) (M.here meter.old) log.old }
    requires total { M.total meter.old < 2 ^ 127 }
    requires learnt { LearntFits (M.opened meter.old) log.old clause hints }
    requires new { Contains log.old (Learnt clause hints) → ⊥ }
    ensures records { RecordsOne M.opened M.here M.total terms.now meter.old log.old meter.new log.new }
    ensures ok { OnOk result (log.new ≡ log.old ++ Learnt clause hints ∷ []) }
    ensures err { OnErr result (log.new ≡ log.old) }
{
    log.push(Entry::Learnt(clause, hints))?;
    meter.spend(terms, log);
    Ok(())
}

/// Adds the empty clause once more, from the empty clause of that number.
fn repeat_empty<M: Meter>(
    alloc: Global,
    terms: &Terms,
    log: &mut Log,
    meter: &mut M,
    number: u32,
) -> Result<(), AllocError>
    requires recorded { IsRecorded terms.now (M.opened meter.old) (M.here meter.old) log.old }
    requires total { M.total meter.old < 2 ^ 127 }
    requires inside { number < length (known_now (M.opened meter.old) log.old).clauses }
    requires empty { IsEmptyAt (known_now (M.opened meter.old) log.old).clauses number }
    requires last { NoneEmptyAfter number (known_now (M.opened meter.old) log.old).clauses }
    ensures records { RecordsOne M.opened M.here M.total terms.now meter.old log.old meter.new log.new }
    ensures ok { OnOk result (GivesEmpty log.new) }
{
    let hints = Items::from_slice(alloc, &[number])?;
    record(terms, log, meter, Clause::new(alloc), hints)
}

/// Looks at the opened problem for what each problem keeps.
fn look_at_problem<M: Meter>(meter: &M)
    ensures { HasQuestion (M.opened meter.now) }
{
    if let Some(problem) = meter.problem() {
        let _circuit = problem.circuit();
    }
}

/// How many entries may be spent before inputs alone are decided: all but 2 to the number of inputs, or all where the budget has less.
fn limit_of(inputs: &[bool], start: u64, budget: u64) -> u64
    ensures at_most { result ≤ budget }
    ensures inside { start ≤ budget → start ≤ result }
    ensures spares { Spares inputs.now start budget result }
{
    let Some(room) = budget.checked_sub(start) else {
        return budget;
    };
    let mut reserve = 1;
    for at in 0..inputs.len() {
        if inputs[at] {
            if reserve > room / 2 {
                return budget;
            }
            reserve *= 2;
        }
    }
    if reserve > room {
        return budget;
    }
    budget - reserve
}

impl State {
    ghost use Rattle.uc_learner.specs.Learned.{LearnedBy, IsTaught};
    ghost use Rattle.uc_learner.specs.Moves.{Ready};
    ghost use Rattle.uc_learner.specs.Propagated.{Waiting};
    ghost use Rattle.uc_learner.specs.Sound.{Sound, Whole};
    ghost use Rattle.uc_learner.specs.declared.learn.Search.TheVariants.{Candidate, Refuted};
    ghost use Rattle.uc_learner.specs.declared.learn.LearnError.TheVariants.{Budget};

    /// Takes over a learnt clause, and asserts its first literal behind the steps that stay. The variables took part in the
    /// conflict.
    fn learn(&mut self, clause: &[Lit], variables: &[u32], target: usize) -> Result<(), AllocError>
        requires ready { Ready self.old }
        requires some { 0 < length clause.now }
        requires taught { IsTaught self.old clause.now target }
        ensures learned { OnOk result (LearnedBy self.old clause.now self.new) }
        ensures waiting { OnOk result (Waiting self.new) }
    {
        let number = self.clauses.len();
        if number >= u32::MAX as usize {
            return Err(AllocError);
        }
        let asserted = clause[0];
        let copy = Clause::from_slice(*self.clauses.allocator(), clause)?;
        self.cut(target);
        self.watches.add(clause)?;
        self.clauses.push(copy)?;
        self.preferences.raise(variables);
        self.push(Step {
            literal: asserted,
            reason: Some(number as u32),
        });
        Ok(())
    }

    /// The last clause that is empty.
    fn last_empty(&self) -> Option<u32>
        requires { Sound self.now }
        ensures { LastEmpty self.now.clauses.items result }
    {
        let mut found = None;
        for number in 0..self.clauses.len() {
            if self.clauses[number].is_empty() {
                found = Some(number as u32);
            }
        }
        found
    }

    /// Learns from a conflict. The answer is whether the clause is the empty one.
    fn conclude<M: Meter>(
        &mut self,
        terms: &Terms,
        log: &mut Log,
        meter: &mut M,
        conflict: u32,
    ) -> Result<bool, AllocError>
        requires at_conflict { AtConflict self.old conflict }
        requires recorded { IsRecorded terms.now (M.opened meter.old) (M.here meter.old) log.old }
        requires total { M.total meter.old < 2 ^ 127 }
        requires holds { HoldsFor (input_flags (known_now (M.opened meter.old) log.old).circuit) self.old (known_now (M.opened meter.old) log.old) }
        requires none_empty { NoneEmpty self.old.clauses.items }
        ensures records { RecordsOne M.opened M.here M.total terms.now meter.old log.old meter.new log.new }
        ensures ok { IfOk result (λ refuted. Concluded (input_flags (known_now (M.opened meter.old) log.old).circuit) self.old log.old (known_now (M.opened meter.old) log.new) self.new log.new refuted) }
    {
        let alloc = *self.clauses.allocator();
        let Lesson {
            kept,
            hints,
            target,
            variables,
        } = self.teach(alloc, conflict)?;
        let clause = Clause::from_slice(alloc, kept.as_slice())?;
        record(terms, log, meter, clause, Items::from_vec(hints))?;
        if kept.is_empty() {
            return Ok(true);
        }
        self.learn(kept.as_slice(), variables.as_slice(), target)?;
        Ok(false)
    }

    /// Takes back all steps, and changes what may be decided.
    fn turn(&mut self, choices: &mut Vec<bool>, is_free: bool)
        requires whole { Whole self.old }
        requires long { length choices.old.items ≡ length self.old.inputs.items }
        ensures turned { Turned self.old choices.old.items self.new }
        ensures given { choices.new.items ≡ self.old.inputs.items }
    {
        self.cut(0);
        mem::swap(&mut self.inputs, choices);
        self.preferences.set_free(is_free);
    }

    /// Takes back all steps where it is time to begin anew.
    fn refresh(&mut self)
        requires ready { Ready self.old }
        requires waiting { Waiting self.old }
        ensures { Refreshed self.old self.new }
    {
        if self.preferences.is_stuck() {
            self.cut(0);
            self.preferences.begin_anew();
        }
    }

    /// Searches with any variable to decide, until the log is accepted or has so many entries, or until no clause is false. Then all steps
    /// are taken back. The preferences keep the values that were found.
    fn roam<M: Meter>(
        &mut self,
        terms: &Terms,
        log: &mut Log,
        limit: u64,
        meter: &mut M,
    ) -> Result<bool, AllocError>
        requires whole { Whole self.old }
        requires recorded { IsRecorded terms.now (M.opened meter.old) (M.here meter.old) log.old }
        requires total { M.total meter.old + 2 ^ 32 ≤ 2 ^ 127 }
        requires holds { Holds self.old (known_now (M.opened meter.old) log.old) }
        requires none_empty { NoneEmpty self.old.clauses.items }
        ensures kept { KeepsRecord M.opened M.here M.total terms.now meter.old log.old meter.new log.new }
        ensures within { M.here meter.old ≤ limit → M.here meter.new ≤ limit }
        ensures ok { IfOk result (λ refuted. Roamed self.old log.old (known_now (M.opened meter.new) log.new) self.new log.new refuted) }
    {
        let alloc = *self.clauses.allocator();
        let mut other = vec![in alloc; true; self.inputs.len()]?;
        self.turn(&mut other, true);
        while (log.len() as u64) < limit {
            let Some(conflict) = self.descend() else {
                self.turn(&mut other, false);
                return Ok(false);
            };
            if self.conclude(terms, log, meter, conflict)? {
                return Ok(true);
            }
            self.refresh();
        }
        self.turn(&mut other, false);
        Ok(false)
    }

    /// Searches until each clause is true or the log is accepted.
    pub fn next<M: Meter>(
        &mut self,
        terms: &Terms,
        log: &mut Log,
        budget: u64,
        meter: &mut M,
    ) -> Result<Search, LearnError>
        requires whole { Whole self.old }
        requires recorded { IsRecorded terms.now (M.opened meter.old) (M.here meter.old) log.old }
        requires total { M.total meter.old + 2 ^ 32 ≤ 2 ^ 127 }
        requires holds { Holds self.old (known_now (M.opened meter.old) log.old) }
        ensures kept { KeepsRecord M.opened M.here M.total terms.now meter.old log.old meter.new log.new }
        ensures candidate { result ≡ Ok Candidate → HasCandidate self.new (known_now (M.opened meter.new) log.new) }
        ensures refuted { result ≡ Ok Refuted → AcceptsFor terms.now (M.opened meter.new) log.new }
        ensures budget { result ≡ Err Budget → M.here meter.new ≡ budget }
        ensures within { M.here meter.old ≤ budget → M.here meter.new ≤ budget }
        ensures enough { M.here meter.old + 2 ^ inputs_count self.old.inputs.items ≤ budget → result ≢ Err Budget }
        ensures unit { M.here meter.old + 1 ≤ budget → UnitRefutable self.old → result ≢ Err Budget }
    {
        look_at_problem(meter);
        self.cut(0);
        if let Some(number) = self.last_empty() {
            if log.len() as u64 == budget {
                return Err(LearnError::Budget);
            }
            repeat_empty(*self.clauses.allocator(), terms, log, meter, number)?;
            return Ok(Search::Refuted);
        }
        let limit = limit_of(self.inputs.as_slice(), log.len() as u64, budget);
        if self.roam(terms, log, limit, meter)? {
            return Ok(Search::Refuted);
        }
        loop {
            let Some(conflict) = self.descend() else {
                return Ok(Search::Candidate);
            };
            if log.len() as u64 == budget {
                return Err(LearnError::Budget);
            }
            if self.conclude(terms, log, meter, conflict)? {
                return Ok(Search::Refuted);
            }
        }
    }
}
