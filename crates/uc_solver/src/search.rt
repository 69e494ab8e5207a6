//! The search on the problem of a lowered goal.

ghost use Rattle.std.specs.Prelude.{◌≡◌, ◌≢◌, ◌++◌, ◌+◌, ◌≤◌, ◌<◌, ◌^◌, false, length, Err, IfOk, OnOk, IfErr};
ghost use Rattle.uc_circuit.specs.Circuits.{input_values};
ghost use Rattle.uc_terms.specs.Subterms.{EvenlyTyped};
ghost use Rattle.uc_terms.specs.Laws.{IsModelOf};
ghost use Rattle.uc_lower.specs.Lowering.{IsLoweredTerm};
ghost use Rattle.uc_learner.specs.Learners.{valuation};
ghost use Rattle.uc_solver.specs.declared.answer.SolveError.TheVariants.{Budget};
ghost use Rattle.uc_solver.specs.Searches.{is_free, starts_free, is_true_question, IsProblemOf, FitsBudget, given_if, first_values, IsOpenCandidate, IsFound, IsSearchCause};

use crate::answer::SolveError;
use crate::model_of_inputs;
use std::alloc::{AllocError, Global};
use uc_circuit::{Circuit, Lit};
use uc_learner::{Learner, Search};
use uc_log::{Atom, Log, Meter, Problem};
use uc_terms::{Model, TermId, Terms};

/// What a search finds.
#[derive(Drop)]
pub(crate) enum Found {
    /// A model of the lowered goal.
    Model(Model),
    /// An accepted log.
    Refuted(Log),
}

/// A model of a lowered goal, or a log that is accepted for its problem. Where the goal comes out as true, nothing is searched.
pub(crate) fn decided<M: Meter>(
    alloc: Global,
    terms: &Terms,
    u: TermId,
    problem: Problem,
    budget: u64,
    meter: &mut M,
) -> Result<Found, SolveError>
    requires lowered { IsLoweredTerm terms.now u }
    requires even { EvenlyTyped terms.now u }
    requires problem { IsProblemOf terms.now u problem }
    requires some { 1 ≤ budget }
    requires total { M.total meter.old + 2 ^ 32 ≤ 2 ^ 127 }
    ensures found { IfOk result (IsFound terms.now u problem (M.opened meter.new)) }
    ensures cause { IfErr result (IsSearchCause problem (M.opened meter.new) (M.here meter.new) budget (M.total meter.old) (M.total meter.new)) }
    ensures enough { FitsBudget terms.now u problem budget → result ≢ Err Budget }
    ensures total { M.total meter.old ≤ M.total meter.new }
    ensures few { M.total meter.new ≤ M.total meter.old + 2 ^ 32 }
    ensures within { M.total meter.new ≤ M.total meter.old + budget }
{
    if is_true(&problem) {
        let model = model_of_inputs(alloc, terms, u, &[], &[])?;
        return Ok(Found::Model(model));
    }
    searched(alloc, terms, u, problem, budget, meter)
}

/// Whether the problem is that of a goal that comes out as true. The problem of a constant goal alone has a free input, with a gate that is
/// never true: the goal is that gate, or its negation where the constant is true.
fn is_true(problem: &Problem) -> bool
    ensures { result ≡ is_true_question problem.now }
{
    if !starts_free(problem.atoms()) {
        return false;
    }
    problem.goal().neg
}

/// Whether the first atom is free.
fn starts_free(atoms: &[Atom]) -> bool
    ensures { result ≡ starts_free atoms.now }
{
    match atoms {
        [] => false,
        [first, ..] => is_free(first),
    }
}

fn is_free(atom: &Atom) -> bool
    ensures { result ≡ is_free atom.now }
{
    matches!(atom, Atom::Free)
}

/// The same by a search.
fn searched<M: Meter>(
    alloc: Global,
    terms: &Terms,
    u: TermId,
    problem: Problem,
    budget: u64,
    meter: &mut M,
) -> Result<Found, SolveError>
    requires lowered { IsLoweredTerm terms.now u }
    requires even { EvenlyTyped terms.now u }
    requires problem { IsProblemOf terms.now u problem }
    requires not_true { is_true_question problem ≡ false }
    requires some { 1 ≤ budget }
    requires total { M.total meter.old + 2 ^ 32 ≤ 2 ^ 127 }
    ensures found { IfOk result (IsFound terms.now u problem (M.opened meter.new)) }
    ensures cause { IfErr result (IsSearchCause problem (M.opened meter.new) (M.here meter.new) budget (M.total meter.old) (M.total meter.new)) }
    ensures enough { FitsBudget terms.now u problem budget → result ≢ Err Budget }
    ensures total { M.total meter.old ≤ M.total meter.new }
    ensures few { M.total meter.new ≤ M.total meter.old + 2 ^ 32 }
    ensures within { M.total meter.new ≤ M.total meter.old + budget }
{
    let mut learner = Learner::new(alloc, &problem)?;
    let mut log = Log::new(alloc)?;
    let _fine = problem.circuit();
    meter.open(problem);
    let answer = learner.next(terms, &mut log, budget, meter);
    let _entries = log.len();
    let found = answer?;
    match found {
        Search::Refuted => Ok(Found::Refuted(log)),
        Search::Candidate => {
            let model = candidate(alloc, terms, u, &learner, meter)?;
            Ok(Found::Model(model))
        }
    }
}

/// The model of the lowered goal that a candidate gives.
fn candidate<M: Meter>(
    alloc: Global,
    terms: &Terms,
    u: TermId,
    learner: &Learner,
    meter: &M,
) -> Result<Model, AllocError>
    requires lowered { IsLoweredTerm terms.now u }
    requires even { EvenlyTyped terms.now u }
    requires candidate { IsOpenCandidate terms.now u (M.opened meter.now) (valuation learner.now.values) }
    ensures { IfOk result (λ m. IsModelOf m terms.now u) }
{
    match meter.problem() {
        Some(problem) => {
            let inputs = inputs(alloc, problem.circuit(), learner)?;
            let model = model_of_inputs(alloc, terms, u, problem.atoms(), inputs.as_slice())?;
            Ok(model)
        }
        None => unreachable!(),
    }
}

/// The values of the inputs, in order.
fn inputs(alloc: Global, circuit: &Circuit, learner: &Learner) -> Result<Vec<bool>, AllocError>
    ensures { IfOk result (λ bs. bs.items ≡ input_values circuit.now (first_values (valuation learner.now.values) (length circuit.now))) }
{
    let mut inputs: Vec<bool> = Vec::new(alloc);
    for number in 0..circuit.len() {
        let is_input = circuit.gate(number).is_none();
        add(&mut inputs, is_input, learner.value(Lit::positive(number)))?;
    }
    Ok(inputs)
}

/// Adds the value of a node, where it is an input.
fn add(inputs: &mut Vec<bool>, is_input: bool, value: bool) -> Result<(), AllocError>
    ensures { OnOk result (inputs.new.items ≡ inputs.old.items ++ given_if is_input value) }
{
    if is_input {
        inputs.push(value)?;
    }
    Ok(())
}
