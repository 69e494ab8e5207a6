//! Whether some model makes a goal true.

ghost use Rattle.std.specs.Prelude.{◌≡◌, ◌+◌, ◌≤◌, ◌<◌, ◌^◌, [], length, IfOk, IfErr};
ghost use Rattle.uc_values.specs.declared.ty.Ty.TheVariants.{Bool};
ghost use Rattle.uc_ops.specs.Typing.{type_at};
ghost use Rattle.uc_terms.specs.Subterms.{EvenlyTyped};
ghost use Rattle.uc_lower.specs.Lowering.{IsFiniteTerm};
ghost use Rattle.uc_symstep.specs.Growing.{Grows};
ghost use Rattle.uc_flat_lines.specs.Deciding.{IsKnownBySome, IsSolution, IsSpentFor, IsHonestFor, IsOpenedIn, IsOpenedFor, solution_of};

use crate::line::FlatWhy;
use std::alloc::Global;
use uc_compose::slice;
use uc_log::Meter;
use uc_solver::{Answer, SolveError, is_finite_term, solve};
use uc_terms::{Model, TermId, Terms};

/// A model under which the goal is true, or none where there is none. The goal is asked in a table of its own, so that this takes time by what
/// is below it, and leaves nothing behind. Memory also counts as used up where the goal has integers, arrays or functions.
pub(crate) fn solution<M: Meter>(
    alloc: Global,
    terms: &Terms,
    goal: TermId,
    budget: u64,
    meter: &mut M,
) -> Result<Option<Model>, FlatWhy>
    requires there { goal < length terms.now }
    requires boolean { type_at terms.now goal ≡ Bool }
    requires known { IsKnownBySome terms.now goal }
    requires some { 1 ≤ budget }
    requires total { M.total meter.old + 2 ^ 32 ≤ 2 ^ 127 }
    ensures solution { IfOk result (IsSolution terms.now goal) }
    ensures cause { IfErr result (IsSpentFor budget (M.total meter.old) (M.total meter.new)) }
    ensures honest { IfErr result (IsHonestFor budget terms.now goal) }
    ensures opened { IfErr result (IsOpenedFor terms.now goal (M.opened meter.new) (M.here meter.new) budget) }
    ensures later { M.total meter.old ≤ M.total meter.new }
    ensures few { M.total meter.new ≤ M.total meter.old + 2 ^ 32 }
    ensures within { M.total meter.new ≤ M.total meter.old + budget }
{
    let mut own = Terms::new(alloc)?;
    sliced(alloc, terms, goal, &mut own, budget, meter)
}

/// What is decided of the goal, in an empty table.
fn sliced<M: Meter>(
    alloc: Global,
    terms: &Terms,
    goal: TermId,
    own: &mut Terms,
    budget: u64,
    meter: &mut M,
) -> Result<Option<Model>, FlatWhy>
    requires there { goal < length terms.now }
    requires boolean { type_at terms.now goal ≡ Bool }
    requires known { IsKnownBySome terms.now goal }
    requires empty { own.old ≡ [] }
    requires some { 1 ≤ budget }
    requires total { M.total meter.old + 2 ^ 32 ≤ 2 ^ 127 }
    ensures solution { IfOk result (IsSolution terms.now goal) }
    ensures cause { IfErr result (IsSpentFor budget (M.total meter.old) (M.total meter.new)) }
    ensures honest { IfErr result (IsHonestFor budget terms.now goal) }
    ensures opened { IfErr result (IsOpenedFor terms.now goal (M.opened meter.new) (M.here meter.new) budget) }
    ensures later { M.total meter.old ≤ M.total meter.new }
    ensures few { M.total meter.new ≤ M.total meter.old + 2 ^ 32 }
    ensures within { M.total meter.new ≤ M.total meter.old + budget }
{
    let root = slice(alloc, terms, goal, own)?;
    let _well_typed = own.len();
    decided(alloc, own, root, budget, meter)
}

/// What is decided of a goal in its table.
fn decided<M: Meter>(
    alloc: Global,
    terms: &mut Terms,
    goal: TermId,
    budget: u64,
    meter: &mut M,
) -> Result<Option<Model>, FlatWhy>
    requires there { goal < length terms.old }
    requires boolean { type_at terms.old goal ≡ Bool }
    requires known { IsKnownBySome terms.old goal }
    requires some { 1 ≤ budget }
    requires total { M.total meter.old + 2 ^ 32 ≤ 2 ^ 127 }
    ensures solution { IfOk result (IsSolution terms.old goal) }
    ensures cause { IfErr result (IsSpentFor budget (M.total meter.old) (M.total meter.new)) }
    ensures honest { IfErr result (IsHonestFor budget terms.old goal) }
    ensures opened { IfErr result (IsOpenedIn terms.new goal (M.opened meter.new) (M.here meter.new) budget) }
    ensures later { M.total meter.old ≤ M.total meter.new }
    ensures few { M.total meter.new ≤ M.total meter.old + 2 ^ 32 }
    ensures within { M.total meter.new ≤ M.total meter.old + budget }
    ensures grown { Grows terms.old terms.new }
{
    if !is_finite_term(alloc, terms, goal)? {
        return Err(FlatWhy::Memory);
    }
    asked(alloc, terms, goal, budget, meter)
}

/// What the solver answers to a goal of finitely many values.
#[tactic(auto, using(uc_obligations::proofs::Terms::goes_on))]
fn asked<M: Meter>(
    alloc: Global,
    terms: &mut Terms,
    goal: TermId,
    budget: u64,
    meter: &mut M,
) -> Result<Option<Model>, FlatWhy>
    requires there { goal < length terms.old }
    requires boolean { type_at terms.old goal ≡ Bool }
    requires even { EvenlyTyped terms.old goal }
    requires finite { IsFiniteTerm terms.old goal }
    requires some { 1 ≤ budget }
    requires total { M.total meter.old + 2 ^ 32 ≤ 2 ^ 127 }
    ensures solution { IfOk result (IsSolution terms.old goal) }
    ensures cause { IfErr result (IsSpentFor budget (M.total meter.old) (M.total meter.new)) }
    ensures honest { IfErr result (IsHonestFor budget terms.old goal) }
    ensures opened { IfErr result (IsOpenedIn terms.new goal (M.opened meter.new) (M.here meter.new) budget) }
    ensures later { M.total meter.old ≤ M.total meter.new }
    ensures few { M.total meter.new ≤ M.total meter.old + 2 ^ 32 }
    ensures within { M.total meter.new ≤ M.total meter.old + budget }
    ensures grown { Grows terms.old terms.new }
{
    let _shared = terms.len();
    let answer = solve(alloc, terms, goal, budget, meter);
    let _still_shared = terms.len();
    solution_of(answer)
}

/// What an answer of the solver says of the goal.
fn solution_of(answer: Result<Answer, SolveError>) -> Result<Option<Model>, FlatWhy>
    ensures { result ≡ solution_of answer }
{
    match answer {
        Ok(Answer::Model(model)) => Ok(Some(model)),
        Ok(Answer::Refuted(_)) => Ok(None),
        Err(SolveError::Budget) => Err(FlatWhy::Budget),
        Err(SolveError::NoMemory) => Err(FlatWhy::Memory),
    }
}
