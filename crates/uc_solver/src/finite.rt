//! Whether a term has finitely many values.

ghost use Rattle.std.specs.Prelude.{◌≡◌, ◌<◌, ◌≤◌, true, length, IfOk};
ghost use Rattle.std.specs.Bool.{Decides};
ghost use Rattle.uc_lower.specs.Made.{HasBits};
ghost use Rattle.uc_lower.specs.Lowering.{IsFiniteTerm};
ghost use Rattle.uc_solver.specs.Nodes.{IsFiniteNode, AreFinite, is_application};

use std::alloc::{AllocError, Global};
use uc_terms::{Op, TermId, Terms, subterms};
use uc_values::{Ty, bits};

/// Whether each subterm has a type with a number of bits, and none applies a function. Takes a step for each number up to the
/// term's.
pub fn is_finite_term(alloc: Global, terms: &Terms, t: TermId) -> Result<bool, AllocError>
    requires { t < length terms.now }
    ensures { IfOk result (λ b. Decides b (IsFiniteTerm terms.now t)) }
{
    let marks = subterms(alloc, terms, &[t])?;
    Ok(are_finite(terms, marks.as_slice()))
}

/// Whether all terms that are marked are of finitely many values.
fn are_finite(terms: &Terms, marks: &[bool]) -> bool
    requires { length marks.now ≤ length terms.now }
    ensures { Decides result (AreFinite terms.now marks.now (length marks.now)) }
{
    for place in 0..marks.len() {
        if !is_fine(terms, marks[place], place) {
            return false;
        }
    }
    true
}

/// Whether a term is of finitely many values, where it is marked.
fn is_fine(terms: &Terms, marked: bool, place: usize) -> bool
    requires { place < length terms.now }
    ensures { Decides result (marked ≡ true → IsFiniteNode terms.now place) }
{
    if !marked {
        return true;
    }
    is_finite_node(terms, place)
}

/// Whether the type of a term has a number of bits, and the term applies no function.
fn is_finite_node(terms: &Terms, place: usize) -> bool
    requires { place < length terms.now }
    ensures { Decides result (IsFiniteNode terms.now place) }
{
    let node = terms.node(place);
    if is_application(&node.op) {
        return false;
    }
    has_bits(&node.ty)
}

fn is_application(op: &Op) -> bool
    ensures { result ≡ is_application op.now }
{
    matches!(op, Op::App(..))
}

/// Whether a type has a number of bits.
fn has_bits(ty: &Ty) -> bool
    ensures { Decides result (HasBits ty.now) }
{
    bits(ty).is_some()
}
