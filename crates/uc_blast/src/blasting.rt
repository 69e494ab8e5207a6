//! Bit-blasting of a term.

ghost use Rattle.std.specs.Prelude.{◌≡◌, IfOk};
ghost use Rattle.std.specs.Result.{IfErr};
ghost use Rattle.uc_blast.specs.declared.blasting.BlastError.TheVariants.{NoMemory};
ghost use Rattle.uc_blast.specs.Blasting.{IsBlastable, HasInputs, StandsFor, constant_question};
ghost use Rattle.uc_blast.specs.Walk.{IsBlasted};

use crate::inputs::make_inputs;
use crate::walk::build;
use crate::words::{truth, word_at};
use std::alloc::{AllocError, AllocFailed, Global};
use uc_circuit::{Circuit, Gate, Signal};
use uc_items::Items;
use uc_linear::Wide;
use uc_log::{Atom, Problem};
use uc_terms::{TermId, Terms, subterms};

/// Why a term has no problem.
#[derive(Debug, Drop)]
pub enum BlastError {
    NoMemory,
    /// A coefficient or the constant of the linear form of a comparison leaves 128 bits. No term of integers is blasted yet.
    Wide(Wide, TermId),
}

impl From<AllocError> for BlastError {
    ghost use Rattle.std.specs.Prelude.{◌≡◌};
    ghost use Rattle.uc_blast.specs.declared.blasting.BlastError.TheVariants.{NoMemory};

    ghost from_gives = { λ _ error. error ≡ NoMemory };

    fn from(_: AllocError) -> BlastError {
        BlastError::NoMemory
    }
}

/// A circuit, the signal of it that stands for a boolean term, and what its inputs stand for.
#[derive(Drop)]
struct Blasted {
    circuit: Circuit,
    goal: Signal,
    atoms: Vec<Atom>,
}

/// The problem that stands for a boolean term. It has an input for each bit of each symbol and of each application among the
/// subterms, and where the term comes out as a constant it has one free input.
pub fn blast(alloc: Global, terms: &Terms, t: TermId) -> Result<Problem, BlastError>
    requires { IsBlastable terms.now t }
    ensures stands { IfOk result (StandsFor terms.now t) }
    ensures inputs { IfOk result (HasInputs terms.now t) }
    ensures memory { IfErr result (λ e. e ≡ NoMemory) }
{
    let problem = problem_of(alloc, terms, t)?;
    Ok(problem)
}

fn problem_of(alloc: Global, terms: &Terms, t: TermId) -> Result<Problem, AllocError>
    requires { IsBlastable terms.now t }
    ensures stands { IfOk result (StandsFor terms.now t) }
    ensures inputs { IfOk result (HasInputs terms.now t) }
{
    let blasted = circuit_of(alloc, terms, t)?;
    match blasted.goal {
        Signal::Constant(constant) => constant_problem(alloc, constant),
        Signal::Of(literal) => Ok(Problem::of(
            blasted.circuit,
            literal,
            Items::from_vec(blasted.atoms),
        )),
    }
}

/// The circuit over the inputs for all opaque subterms.
fn circuit_of(alloc: Global, terms: &Terms, t: TermId) -> Result<Blasted, AllocError>
    requires { IsBlastable terms.now t }
    ensures { IfOk result (λ x. IsBlasted terms.now t x.atoms.items x.circuit x.goal) }
{
    let marks = subterms(alloc, terms, &[t])?;
    let marked = marks.as_slice();
    let inputs = make_inputs(alloc, terms, t, marked)?;
    let built = build(alloc, terms, t, marked, inputs)?;
    let words = built.words.as_slice();
    let root = word_at(words, t.index());
    let goal = truth(root);
    let circuit = built.gates.into_circuit(alloc)?;
    let _ordered = circuit.len();
    Ok(Blasted {
        circuit,
        goal,
        atoms: built.atoms,
    })
}

/// The problem of a goal that is a constant: a free input, and a gate that is never true.
fn constant_problem(alloc: Global, constant: bool) -> Result<Problem, AllocError>
    ensures { IfOk result (λ p. p ≡ constant_question constant) }
{
    let mut circuit = Circuit::new(alloc)?;
    let input = circuit.add_input()?;
    let never = circuit.add_gate(Gate::And(input, input.negate()))?;
    let goal = if constant { never.negate() } else { never };
    let mut atoms = Items::new(alloc);
    atoms.push(Atom::Free)?;
    Ok(Problem::of(circuit, goal, atoms))
}
