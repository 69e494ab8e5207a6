//! The value of a circuit beside that of its term.

ghost use Rattle.std.specs.Prelude.{◌≡◌, ◌<◌, length, IfOk};

use std::alloc::Global;
use uc_linear::LinearError;
use uc_log::{Atom, Problem};
use uc_terms::{Model, TermId, Terms, eval};
use uc_values::Value;

/// Whether the circuit gives a boolean term its value under the model.
pub(crate) fn agrees(
    alloc: Global,
    terms: &Terms,
    t: TermId,
    problem: &Problem,
    model: &Model,
) -> Result<bool, LinearError>
    requires { t < length terms.now }
{
    let truth = truth_under(alloc, terms, problem, model)?;
    Ok(is_truth(eval(alloc, terms, t, model)?, truth))
}

fn is_truth(value: Value, truth: bool) -> bool {
    value == Value::Bool(truth)
}

/// What the circuit gives under the model.
fn truth_under(
    alloc: Global,
    terms: &Terms,
    problem: &Problem,
    model: &Model,
) -> Result<bool, LinearError> {
    let goal = problem.goal();
    let inputs = inputs_under(alloc, terms, problem.atoms(), model)?;
    let truth = problem.circuit().value(inputs.as_slice(), goal)?;
    Ok(truth)
}

/// The values of the inputs under a model.
fn inputs_under(
    alloc: Global,
    terms: &Terms,
    atoms: &[Atom],
    model: &Model,
) -> Result<Vec<bool>, LinearError>
    ensures { IfOk result (λ bs. length bs.items ≡ length atoms.now) }
{
    let mut inputs = Vec::new(alloc);
    for atom in atoms {
        inputs.push(input_under(alloc, terms, atom, model)?)?;
    }
    Ok(inputs)
}

/// The bit of a term that the input stands for.
fn input_under(
    alloc: Global,
    terms: &Terms,
    atom: &Atom,
    model: &Model,
) -> Result<bool, LinearError> {
    match atom {
        Atom::Bit(term, bit) if term.number() < terms.len() => {
            Ok(bit_of(eval(alloc, terms, *term, model)?, *bit))
        }
        _ => Ok(false),
    }
}

/// A bit of a bit-vector, or the truth that a boolean is.
fn bit_of(value: Value, bit: u8) -> bool {
    match &value {
        Value::Bool(truth) => *truth,
        Value::Bv(_, bits) => *bits >> (bit % 64) & 1 == 1,
        _ => false,
    }
}
