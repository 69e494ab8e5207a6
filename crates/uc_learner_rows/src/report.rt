//! The rows: how the learner's searches end, and what the plain search says of the same problems.

use crate::entries::{extended_alone, resumed_alone};
use crate::instances::{Random, commutativity, contradiction, factors, pigeons, random_clauses};
use crate::scanning::has_candidate;
use crate::searching::{Outcome, ended_alone};
use crate::watching::{Count, observed_alone};
use std::alloc::{AllocError, Global};
use uc_log::Problem;

/// The lines of the rows.
#[derive(Drop)]
pub(crate) struct Report {
    pub(crate) text: String,
}

fn scan_name(has_candidate: Option<bool>) -> &'static str {
    match has_candidate {
        Some(true) => "a candidate",
        Some(false) => "refuted",
        None => "out of steps",
    }
}

/// Whether both searches say the same.
fn is_same(outcome: Outcome, has_candidate: Option<bool>) -> bool {
    match outcome {
        Outcome::Candidate(is_true) => is_true && has_candidate == Some(true),
        Outcome::Refuted(is_accepted) => is_accepted && has_candidate == Some(false),
        Outcome::OutOfBudget | Outcome::OutOfMemory => false,
    }
}

impl Report {
    /// Both searches of a problem.
    fn add(&mut self, alloc: Global, p: Problem, budget: u64) -> Result<(), AllocError> {
        let plain = scan_name(has_candidate(alloc, &p)?);
        let outcome = ended_alone(alloc, p, budget)?.name();
        write!(
            self.text,
            "budget {budget}: {outcome}; plain search: {plain}\n"
        )
    }

    fn add_contradictions(&mut self, alloc: Global) -> Result<(), AllocError> {
        for budget in [0u64, 1] {
            self.text.push_str("a contradiction, ")?;
            self.add(alloc, contradiction(alloc)?, budget)?;
        }
        Ok(())
    }

    fn add_pigeons(&mut self, alloc: Global) -> Result<(), AllocError> {
        for (count, holes, budget) in [
            (4u32, 4u32, 1u64 << 16),
            (5, 5, 1 << 25),
            (5, 4, 1 << 20),
            (6, 5, 1 << 30),
            (6, 5, 3),
        ] {
            write!(self.text, "{count} pigeons in {holes} holes, ")?;
            self.add(alloc, pigeons(alloc, count, holes)?, budget)?;
        }
        Ok(())
    }

    /// The budgets are 2 to the number of inputs.
    fn add_products(&mut self, alloc: Global) -> Result<(), AllocError> {
        for (bits, budget) in [(3u32, 1u64 << 6), (4, 1 << 8), (5, 1 << 10)] {
            write!(self.text, "products of {bits} bits that differ, ")?;
            self.add(alloc, commutativity(alloc, bits)?, budget)?;
        }
        Ok(())
    }

    /// The budgets are 2 to the number of inputs.
    fn add_factors(&mut self, alloc: Global) -> Result<(), AllocError> {
        for (bits, number, budget) in [
            (4u32, 15u64, 1u64 << 8),
            (4, 13, 1 << 8),
            (5, 143, 1 << 10),
            (5, 149, 1 << 10),
        ] {
            write!(self.text, "factors of {number}, ")?;
            self.add(alloc, factors(alloc, bits, number)?, budget)?;
        }
        Ok(())
    }

    /// Random clauses over 12 variables, some with a candidate and some not.
    fn add_random(&mut self, alloc: Global) -> Result<(), AllocError> {
        let mut random = Random { state: 1 };
        let (mut candidates, mut refuted, mut others) = (0u32, 0u32, 0u32);
        for _problem in 0..60 {
            let p = random_clauses(alloc, &mut random, 12, 54)?;
            let plain = has_candidate(alloc, &p)?;
            let outcome = ended_alone(alloc, p, 1 << 12)?;
            if !is_same(outcome, plain) {
                others = others.wrapping_add(1);
            } else if plain == Some(true) {
                candidates = candidates.wrapping_add(1);
            } else {
                refuted = refuted.wrapping_add(1);
            }
        }
        write!(
            self.text,
            "random clauses, both searches: {candidates} with a candidate, {refuted} refuted; {others} others\n"
        )
    }

    /// Learners that take over entries.
    fn add_entries(&mut self, alloc: Global) -> Result<(), AllocError> {
        for first_budget in [3u64, 1 << 20] {
            let resumed = resumed_alone(alloc, pigeons(alloc, 5, 4)?, first_budget, 1 << 21)?;
            let (before, after) = (resumed.before.name(), resumed.after.name());
            let entries = resumed.entries;
            write!(
                self.text,
                "5 pigeons in 4 holes: {before}; {entries} entries taken over: {after}\n"
            )?;
        }
        Ok(())
    }

    /// A learner that takes over a gate and an input.
    fn add_extended(&mut self, alloc: Global) -> Result<(), AllocError> {
        let (outcome, value) = extended_alone(alloc, pigeons(alloc, 3, 3)?, 1 << 12)?;
        let outcome = outcome.name();
        write!(
            self.text,
            "a gate and an input more: {outcome}; the gate is {value}\n"
        )
    }

    fn add_count(&mut self, count: Count) -> Result<(), AllocError> {
        let Count { two, none, others } = count;
        write!(
            self.text,
            "{two} clauses watch two literals, {none} none; {others} others\n"
        )
    }

    /// What the clauses of a problem watch, before and after a search.
    fn add_watched(
        &mut self,
        alloc: Global,
        name: &str,
        p: Problem,
        budget: u64,
    ) -> Result<(), AllocError> {
        let watched = observed_alone(alloc, p, budget)?;
        write!(self.text, "{name}: at first ")?;
        self.add_count(watched.first)?;
        if let Some(count) = watched.candidate {
            write!(self.text, "{name}: with a candidate ")?;
            self.add_count(count)?;
        }
        let entries = watched.entries;
        write!(self.text, "{name}: a log of length {entries} taken over, ")?;
        self.add_count(watched.taken)
    }

    fn add_watches(&mut self, alloc: Global) -> Result<(), AllocError> {
        self.add_watched(alloc, "a contradiction", contradiction(alloc)?, 1)?;
        self.add_watched(alloc, "factors of 15", factors(alloc, 4, 15)?, 1 << 8)?;
        self.add_watched(
            alloc,
            "5 pigeons in 4 holes",
            pigeons(alloc, 5, 4)?,
            1 << 20,
        )
    }
}

/// All rows.
pub(crate) fn whole_report(alloc: Global) -> Result<Report, AllocError> {
    let text = String::new(alloc);
    let mut report = Report { text };
    report.add_contradictions(alloc)?;
    report.add_pigeons(alloc)?;
    report.add_products(alloc)?;
    report.add_factors(alloc)?;
    report.add_random(alloc)?;
    report.add_entries(alloc)?;
    report.add_extended(alloc)?;
    report.add_watches(alloc)?;
    Ok(report)
}
