//! Searches of the learner, with each refutation given to the checker.

ghost use Rattle.std.specs.Prelude.{◌≡◌, ◌<◌, ◌+◌, ◌^◌, [], OnOk};
ghost use Rattle.uc_learner.specs.Recorded.{IsRecorded};
ghost use Rattle.uc_learner.specs.Learners.{HasTaken, HasTakenFor};

use std::alloc::{AllocError, Global};
use uc_circuit::Lit;
use uc_learner::{LearnError, Learner, Search};
use uc_log::{CountMeter, Log, Meter, Problem, Scratch, check};
use uc_terms::Terms;

/// How a search ended.
#[derive(Clone, Copy, Debug, PartialEq, Eq)]
pub(crate) enum Outcome {
    /// With a candidate under which the goal has this value.
    Candidate(bool),
    /// With a log of which the checker says this.
    Refuted(bool),
    OutOfBudget,
    OutOfMemory,
}

impl Outcome {
    pub(crate) fn name(self) -> &'static str {
        match self {
            Outcome::Candidate(true) => "a candidate",
            Outcome::Candidate(false) => "a candidate under which the goal is false",
            Outcome::Refuted(true) => "refuted by an accepted log",
            Outcome::Refuted(false) => "refuted by a log that is not accepted",
            Outcome::OutOfBudget => "out of budget",
            Outcome::OutOfMemory => "out of memory",
        }
    }
}

/// Searches, and tells how it ended.
pub(crate) fn searched<M: Meter>(
    alloc: Global,
    terms: &Terms,
    learner: &mut Learner,
    log: &mut Log,
    goal: Lit,
    budget: u64,
    meter: &mut M,
) -> Result<Outcome, AllocError>
    requires recorded { IsRecorded terms.now (M.opened meter.old) (M.here meter.old) log.old }
    requires taken { HasTakenFor (M.opened meter.old) log.old learner.old }
    requires total { M.total meter.old < 2 ^ 126 }
    ensures recorded { OnOk result (IsRecorded terms.now (M.opened meter.new) (M.here meter.new) log.new) }
    ensures opened { OnOk result (M.opened meter.new ≡ M.opened meter.old) }
    ensures total { OnOk result (M.total meter.new + M.here meter.old ≡ M.total meter.old + M.here meter.new) }
{
    match learner.next(terms, log, budget, meter) {
        Ok(Search::Candidate) => Ok(Outcome::Candidate(learner.value(goal))),
        Ok(Search::Refuted) => Ok(Outcome::Refuted(is_accepted(alloc, terms, log, meter)?)),
        Err(LearnError::Budget) => Ok(Outcome::OutOfBudget),
        Err(LearnError::NoMemory) => Ok(Outcome::OutOfMemory),
    }
}

/// Whether the checker accepts the log for the opened problem.
fn is_accepted<M: Meter>(
    alloc: Global,
    terms: &Terms,
    log: &Log,
    meter: &M,
) -> Result<bool, AllocError> {
    match meter.problem() {
        None => Err(AllocError),
        Some(p) => {
            let mut scratch = Scratch::new(alloc, p, log)?;
            Ok(check(terms, p, log, &mut scratch))
        }
    }
}

/// How a search from the start ends.
fn ended<M: Meter>(
    alloc: Global,
    terms: &Terms,
    p: Problem,
    budget: u64,
    meter: &mut M,
) -> Result<Outcome, AllocError>
    requires { M.total meter.old < 2 ^ 126 }
{
    let mut learner = Learner::new(alloc, &p)?;
    search_by(alloc, terms, p, &mut learner, budget, meter)
}

/// How the first search of a learner ends.
fn search_by<M: Meter>(
    alloc: Global,
    terms: &Terms,
    p: Problem,
    learner: &mut Learner,
    budget: u64,
    meter: &mut M,
) -> Result<Outcome, AllocError>
    requires taken { HasTaken p [] learner.old }
    requires total { M.total meter.old < 2 ^ 126 }
{
    let mut log = Log::new(alloc)?;
    let goal = p.goal();
    meter.open(p);
    searched(alloc, terms, learner, &mut log, goal, budget, meter)
}

pub(crate) fn ended_alone(alloc: Global, p: Problem, budget: u64) -> Result<Outcome, AllocError> {
    let terms = Terms::new(alloc)?;
    let mut meter = CountMeter::new();
    ended(alloc, &terms, p, budget, &mut meter)
}
