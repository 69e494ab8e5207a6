//! A term through all passes, and its problem compared with it.

ghost use Rattle.std.specs.Prelude.{◌≡◌, ◌<◌, length, IfOk};
ghost use Rattle.uc_values.specs.declared.ty.Ty.TheVariants.{Bool};
ghost use Rattle.uc_ops.specs.Typing.{type_at};

use crate::evaluating::agrees;
use std::alloc::{AllocError, Global};
use std::fmt;
use std::test::Fail;
use uc_blast::blast;
use uc_linear::LinearError;
use uc_log::Problem;
use uc_lower::lower;
use uc_solver::{is_evenly_typed, is_finite_term, lowered_is_blastable};
use uc_terms::{Model, TermId, Terms};

/// What a term gave.
#[derive(Drop)]
pub(crate) enum Outcome {
    /// It has infinitely many values, or a function.
    Infinite,
    /// A number in it has two types.
    Uneven,
    Blasted(Figures),
}

/// The pairs of the map, the inputs of the problem, the values of these that make the goal true, and the models under which the
/// problem has the value of the term.
#[derive(Drop)]
pub(crate) struct Figures {
    pairs: usize,
    inputs: usize,
    truths: u64,
    right: usize,
}

impl fmt::Display for Outcome {
    fn fmt<W: fmt::Write>(&self, f: &mut fmt::Formatter<W>) -> fmt::Result {
        match self {
            Outcome::Infinite => write!(f, "not of finitely many values"),
            Outcome::Uneven => write!(f, "a number of two types"),
            Outcome::Blasted(x) => write!(
                f,
                "pairs {}, inputs {}, true under {} of their values, right under {} models",
                x.pairs, x.inputs, x.truths, x.right
            ),
        }
    }
}

/// A boolean term is tested, lowered and blasted.
pub(crate) fn passed(
    alloc: Global,
    terms: &mut Terms,
    t: TermId,
    models: &[Model],
) -> Result<Outcome, Fail>
    requires there { t < length terms.old }
    requires boolean { type_at terms.old t ≡ Bool }
{
    if !is_finite_term(alloc, terms, t)? {
        return Ok(Outcome::Infinite);
    }
    if !is_evenly_typed(alloc, terms, t)? {
        return Ok(Outcome::Uneven);
    }
    let lowered = lower(alloc, terms, t)?;
    lowered_is_blastable();
    let problem = blast(alloc, terms, lowered.goal)?;
    let pairs = lowered.map.pairs.len();
    blasted(alloc, terms, t, pairs, &problem, models)
}

/// What the problem of a boolean term gives.
fn blasted(
    alloc: Global,
    terms: &Terms,
    t: TermId,
    pairs: usize,
    problem: &Problem,
    models: &[Model],
) -> Result<Outcome, Fail>
    requires { t < length terms.now }
{
    let truths = truths(alloc, problem)?;
    let right = right(alloc, terms, t, problem, models)?;
    Ok(Outcome::Blasted(Figures {
        pairs,
        inputs: problem.atoms().len(),
        truths,
        right,
    }))
}

/// How many values of at most 16 inputs make the goal true.
fn truths(alloc: Global, problem: &Problem) -> Result<u64, AllocError> {
    let goal = problem.goal();
    let count = problem.atoms().len();
    let mut truths = 0u64;
    for number in 0..1u64 << (count % 16) {
        let inputs = digits(alloc, number, count)?;
        if problem.circuit().value(inputs.as_slice(), goal)? {
            truths = truths.saturating_add(1);
        }
    }
    Ok(truths)
}

/// So many binary digits of a number, from the lowest.
fn digits(alloc: Global, number: u64, count: usize) -> Result<Vec<bool>, AllocError>
    ensures { IfOk result (λ bs. length bs.items ≡ count) }
{
    let mut digits = Vec::new(alloc);
    for place in 0..count {
        digits.push(number >> (place % 64) & 1 == 1)?;
    }
    Ok(digits)
}

/// Under how many models the goal of the problem has the value of the term.
fn right(
    alloc: Global,
    terms: &Terms,
    t: TermId,
    problem: &Problem,
    models: &[Model],
) -> Result<usize, LinearError>
    requires { t < length terms.now }
{
    let mut right = 0usize;
    for model in models {
        if agrees(alloc, terms, t, problem, model)? {
            right = right.saturating_add(1);
        }
    }
    Ok(right)
}
