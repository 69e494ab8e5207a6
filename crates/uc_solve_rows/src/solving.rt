//! What the solver answers to a goal.

ghost use Rattle.std.specs.Prelude.{◌≡◌, ◌<◌, ◌≤◌, length};
ghost use Rattle.uc_values.specs.declared.ty.Ty.TheVariants.{Bool};
ghost use Rattle.uc_ops.specs.Typing.{type_at};

use std::alloc::{AllocError, Global};
use std::fmt;
use uc_items::at;
use uc_log::CountMeter;
use uc_solver::{Answer, SolveError, is_evenly_typed, is_finite_term, solve};
use uc_terms::{TermId, Terms};
use uc_values::Value;

/// What a goal gave.
#[derive(Clone, Copy)]
pub(crate) enum Outcome {
    /// It is no goal of finitely many values.
    Unfit,
    /// A model, with the value of the first symbol, which is of bits.
    Model(u64),
    /// A model without such a symbol.
    OtherModel,
    Refuted,
    Budget,
}

impl fmt::Display for Outcome {
    fn fmt<W: fmt::Write>(&self, f: &mut fmt::Formatter<W>) -> fmt::Result {
        match self {
            Outcome::Unfit => write!(f, "not of finitely many values"),
            Outcome::Model(bits) => write!(f, "x is {bits}"),
            Outcome::OtherModel => write!(f, "a model"),
            Outcome::Refuted => write!(f, "refuted"),
            Outcome::Budget => write!(f, "undecided by its budget"),
        }
    }
}

/// Solves a boolean goal, where it is of finitely many values.
pub(crate) fn solved(
    alloc: Global,
    terms: &mut Terms,
    goal: TermId,
    budget: u64,
) -> Result<Outcome, AllocError>
    requires there { goal < length terms.old }
    requires boolean { type_at terms.old goal ≡ Bool }
    requires some { 1 ≤ budget }
{
    if !is_evenly_typed(alloc, terms, goal)? {
        return Ok(Outcome::Unfit);
    }
    if !is_finite_term(alloc, terms, goal)? {
        return Ok(Outcome::Unfit);
    }
    let mut meter = CountMeter::new();
    match solve(alloc, terms, goal, budget, &mut meter) {
        Ok(Answer::Model(model)) => match at(model.symbols.as_slice(), 0) {
            Some(Value::Bv(_, bits)) => Ok(Outcome::Model(*bits)),
            _ => Ok(Outcome::OtherModel),
        },
        Ok(Answer::Refuted(_)) => Ok(Outcome::Refuted),
        Err(SolveError::Budget) => Ok(Outcome::Budget),
        Err(SolveError::NoMemory) => Err(AllocError),
    }
}
