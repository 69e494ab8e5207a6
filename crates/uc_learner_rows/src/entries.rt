//! Learners that take over the entries of a log.

ghost use Rattle.std.specs.Prelude.{◌≡◌, ◌<◌, ◌≤◌, ◌+◌, ◌^◌, ◌++◌, ◌∷◌, [], length, Contains, IfOk, OnOk};
ghost use Rattle.uc_circuit.specs.Gates.{OperandsBelow};
ghost use Rattle.uc_log.specs.Atoms.{IsMeant};
ghost use Rattle.uc_log.specs.Entries.{Meets};
ghost use Rattle.uc_learner.specs.Opened.{known_now};
ghost use Rattle.uc_learner.specs.Recorded.{IsRecorded};
ghost use Rattle.uc_learner.specs.Learners.{HasTaken, HasTakenFor};

use crate::searching::{Outcome, searched};
use std::alloc::{AllocError, Global};
use uc_circuit::{Gate, Lit};
use uc_learner::Learner;
use uc_log::{Atom, CountMeter, Entry, Log, Meter, Problem};
use uc_terms::{Op, Terms};
use uc_values::Ty;

/// Takes over each entry of the log.
pub(crate) fn take_over<M: Meter>(
    terms: &Terms,
    log: &Log,
    meter: &M,
    learner: &mut Learner,
) -> Result<(), AllocError>
    requires recorded { IsRecorded terms.now (M.opened meter.now) (M.here meter.now) log.now }
    requires none { HasTakenFor (M.opened meter.now) [] learner.old }
    ensures { OnOk result (HasTakenFor (M.opened meter.now) log.now learner.new) }
{
    for number in 0..log.len() {
        learner.add_entry(log, number)?;
    }
    Ok(())
}

/// A search that ends early, and one of another learner that takes over its log: how both ended.
#[derive(Clone, Copy)]
pub(crate) struct Resumed {
    pub(crate) before: Outcome,
    /// How many entries were taken over.
    pub(crate) entries: u32,
    pub(crate) after: Outcome,
}

fn resume<M: Meter>(
    alloc: Global,
    terms: &Terms,
    p: Problem,
    first_budget: u64,
    budget: u64,
    meter: &mut M,
) -> Result<Resumed, AllocError>
    requires { M.total meter.old < 2 ^ 120 }
{
    let mut first = Learner::new(alloc, &p)?;
    resume_from(alloc, terms, p, &mut first, first_budget, budget, meter)
}

/// The learner searches, and another one goes on.
fn resume_from<M: Meter>(
    alloc: Global,
    terms: &Terms,
    p: Problem,
    first: &mut Learner,
    first_budget: u64,
    budget: u64,
    meter: &mut M,
) -> Result<Resumed, AllocError>
    requires first { HasTaken p [] first.old }
    requires total { M.total meter.old < 2 ^ 120 }
{
    let mut second = Learner::new(alloc, &p)?;
    resume_by(
        alloc,
        terms,
        p,
        first,
        &mut second,
        first_budget,
        budget,
        meter,
    )
}

/// The first learner searches, and the second one goes on.
fn resume_by<M: Meter>(
    alloc: Global,
    terms: &Terms,
    p: Problem,
    first: &mut Learner,
    second: &mut Learner,
    first_budget: u64,
    budget: u64,
    meter: &mut M,
) -> Result<Resumed, AllocError>
    requires first { HasTaken p [] first.old }
    requires second { HasTaken p [] second.old }
    requires total { M.total meter.old < 2 ^ 120 }
{
    let mut log = Log::new(alloc)?;
    let goal = p.goal();
    meter.open(p);
    let before = searched(alloc, terms, first, &mut log, goal, first_budget, meter)?;
    let entries = log.len();
    take_over(terms, &log, meter, second)?;
    let after = searched(alloc, terms, second, &mut log, goal, budget, meter)?;
    Ok(Resumed {
        before,
        entries,
        after,
    })
}

/// Searches with the first budget, and goes on with the second.
pub(crate) fn resumed_alone(
    alloc: Global,
    p: Problem,
    first_budget: u64,
    budget: u64,
) -> Result<Resumed, AllocError> {
    let terms = Terms::new(alloc)?;
    let mut meter = CountMeter::new();
    resume(alloc, &terms, p, first_budget, budget, &mut meter)
}

/// Adds an entry to the log and spends it.
fn enter<M: Meter>(
    terms: &Terms,
    log: &mut Log,
    meter: &mut M,
    entry: Entry,
) -> Result<(), AllocError>
    requires recorded { IsRecorded terms.now (M.opened meter.old) (M.here meter.old) log.old }
    requires meets { Meets terms.now (known_now (M.opened meter.old) log.old) entry }
    requires new { Contains log.old entry → ⊥ }
    requires total { M.total meter.old < 2 ^ 126 }
    ensures recorded { IsRecorded terms.now (M.opened meter.new) (M.here meter.new) log.new }
    ensures opened { M.opened meter.new ≡ M.opened meter.old }
    ensures total { M.total meter.new ≤ M.total meter.old + 1 }
    ensures ok { OnOk result (log.new ≡ log.old ++ entry ∷ []) }
{
    log.push(entry)?;
    meter.spend(terms, log);
    Ok(())
}

/// A bit of a symbol.
fn new_atom(alloc: Global, terms: &mut Terms) -> Result<Atom, AllocError>
    ensures { IfOk result (IsMeant terms.new) }
{
    let symbol = terms.mk(alloc, Op::Symbol(0, Ty::Bool), &[])?;
    let atom = Atom::Bit(symbol, 0);
    if atom.is_meant(terms) {
        Ok(atom)
    } else {
        Err(AllocError)
    }
}

/// A gate on a literal of the problem.
fn gate_of(p: &Problem, literal: Lit) -> Result<Gate, AllocError>
    ensures { IfOk result (OperandsBelow (length p.now.circuit)) }
{
    let gate = Gate::And(literal, literal);
    if gate.is_below(p.circuit().len()) {
        Ok(gate)
    } else {
        Err(AllocError)
    }
}

/// A search for the goal and a gate that the log adds, with a new input: how it ended, and the value of the gate.
fn extended<M: Meter>(
    alloc: Global,
    p: Problem,
    budget: u64,
    meter: &mut M,
) -> Result<(Outcome, bool), AllocError>
    requires { M.total meter.old < 2 ^ 120 }
{
    let mut learner = Learner::new(alloc, &p)?;
    extend_from(alloc, p, &mut learner, budget, meter)
}

/// The search of the learner, among terms of its own.
fn extend_from<M: Meter>(
    alloc: Global,
    p: Problem,
    learner: &mut Learner,
    budget: u64,
    meter: &mut M,
) -> Result<(Outcome, bool), AllocError>
    requires taken { HasTaken p [] learner.old }
    requires total { M.total meter.old < 2 ^ 120 }
{
    let mut terms = Terms::new(alloc)?;
    let atom = new_atom(alloc, &mut terms)?;
    extend_by(alloc, &terms, p, atom, learner, budget, meter)
}

/// The learner takes over a gate on the goal and the atom, and searches.
fn extend_by<M: Meter>(
    alloc: Global,
    terms: &Terms,
    p: Problem,
    atom: Atom,
    learner: &mut Learner,
    budget: u64,
    meter: &mut M,
) -> Result<(Outcome, bool), AllocError>
    requires meant { IsMeant terms.now atom }
    requires taken { HasTaken p [] learner.old }
    requires total { M.total meter.old < 2 ^ 120 }
{
    let mut log = Log::new(alloc)?;
    let goal = p.goal();
    let gate = gate_of(&p, goal)?;
    let number = p.circuit().len();
    meter.open(p);
    enter(terms, &mut log, meter, Entry::Gate(gate))?;
    enter(terms, &mut log, meter, Entry::Atom(atom))?;
    take_over(terms, &log, meter, learner)?;
    let outcome = searched(alloc, terms, learner, &mut log, goal, budget, meter)?;
    Ok((outcome, learner.value(Lit::positive(number))))
}

pub(crate) fn extended_alone(
    alloc: Global,
    p: Problem,
    budget: u64,
) -> Result<(Outcome, bool), AllocError> {
    let mut meter = CountMeter::new();
    extended(alloc, p, budget, &mut meter)
}
