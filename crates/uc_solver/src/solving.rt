//! The solver.

ghost use Rattle.std.specs.Prelude.{◌≡◌, ◌≢◌, ℕ, ◌+◌, ◌≤◌, ◌<◌, ◌^◌, length, Err, IfOk, IfErr};
ghost use Rattle.uc_values.specs.declared.ty.Ty.TheVariants.{Bool};
ghost use Rattle.uc_ops.specs.Typing.{type_at};
ghost use Rattle.uc_terms.specs.Subterms.{EvenlyTyped};
ghost use Rattle.uc_terms.specs.Laws.{KeepsValues};
ghost use Rattle.uc_lower.specs.Lowering.{IsFiniteTerm};
ghost use Rattle.uc_simplify.specs.Simplified.{Grows};
ghost use Rattle.uc_solver.specs.declared.answer.SolveError.TheVariants.{Budget};
ghost use Rattle.uc_solver.specs.Stands.{HasBitsUpTo};
ghost use Rattle.uc_solver.specs.Answers.{IsRight, IsCause};

use crate::answer::{Answer, SolveError};
use crate::reduction::reduced;
use crate::search::{Found, decided};
use crate::through_map;
use std::alloc::Global;
use uc_blast::blast;
use uc_log::Meter;
use uc_terms::{TermId, Terms};

/// A model under which a boolean goal of finitely many values is true, or an accepted log that shows that there is none. The goal's
/// problem is opened at the meter, unless the goal comes out as true.
pub fn solve<M: Meter>(
    alloc: Global,
    terms: &mut Terms,
    goal: TermId,
    budget: u64,
    meter: &mut M,
) -> Result<Answer, SolveError>
    requires there { goal < length terms.old }
    requires boolean { type_at terms.old goal ≡ Bool }
    requires even { EvenlyTyped terms.old goal }
    requires finite { IsFiniteTerm terms.old goal }
    requires some { 1 ≤ budget }
    requires total { M.total meter.old + 2 ^ 32 ≤ 2 ^ 127 }
    ensures answer { IfOk result (IsRight terms.new goal (M.opened meter.new)) }
    ensures cause { IfErr result (IsCause terms.new goal (M.opened meter.new) (M.here meter.new) budget (M.total meter.old) (M.total meter.new)) }
    ensures enough { (n : ℕ) → HasBitsUpTo terms.old goal n → 2 ^ n ≤ budget → result ≢ Err Budget }
    ensures total { M.total meter.old ≤ M.total meter.new }
    ensures few { M.total meter.new ≤ M.total meter.old + 2 ^ 32 }
    ensures within { M.total meter.new ≤ M.total meter.old + budget }
    ensures grown { Grows terms.old terms.new }
    ensures kept { KeepsValues terms.old terms.new }
{
    let _well_typed = terms.nodes();
    let lowered = reduced(alloc, terms, goal)?;
    let _shared = terms.len();
    let problem = blast(alloc, terms, lowered.goal)?;
    let _fine = problem.circuit();
    let found = decided(alloc, terms, lowered.goal, problem, budget, meter)?;
    match found {
        Found::Model(lowered_model) => {
            let pairs = lowered.map.pairs.as_slice();
            let model = through_map(alloc, terms, goal, pairs, &lowered_model)?;
            Ok(Answer::Model(model))
        }
        Found::Refuted(log) => Ok(Answer::Refuted(log)),
    }
}
