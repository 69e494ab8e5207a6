//! Rules for conjunctions and disjunctions.

ghost use Rattle.std.specs.Prelude.{◌<◌, [], ◌∷◌, length, IfSome, All};
ghost use Rattle.uc_ops.specs.declared.op.Op.TheVariants.{And, Or};
ghost use Rattle.uc_ops.specs.Typing.{Suits, type_at};
ghost use Rattle.uc_simplify_steps.specs.Steps.{IsRight};

use crate::step::{Step, boolean};
use crate::truths::truth;
use std::alloc::Global;
use uc_terms::{TermId, Terms};

/// A conjunction of one term.
pub(crate) fn conjunct_alone(terms: &Terms, a: TermId) -> Step
    requires there { a < length terms.now }
    requires suits { Suits And (type_at terms.now a ∷ []) }
    ensures { IsRight terms.now And (a ∷ []) result }
{
    let _count = terms.len();
    Step::Known(a)
}

/// A disjunction of one term.
pub(crate) fn disjunct_alone(terms: &Terms, a: TermId) -> Step
    requires there { a < length terms.now }
    requires suits { Suits Or (type_at terms.now a ∷ []) }
    ensures { IsRight terms.now Or (a ∷ []) result }
{
    let _count = terms.len();
    Step::Known(a)
}

/// A conjunction with a false part.
pub(crate) fn refuted(alloc: Global, terms: &Terms, parts: &[TermId]) -> Option<Step>
    requires { All (λ p. p < length terms.now) parts.now }
    ensures { IfSome result (IsRight terms.now And parts.now) }
{
    for part in parts {
        if let Some(false) = truth(terms, *part) {
            return Some(boolean(alloc, false));
        }
    }
    None
}

/// A disjunction with a true part.
pub(crate) fn granted(alloc: Global, terms: &Terms, parts: &[TermId]) -> Option<Step>
    requires { All (λ p. p < length terms.now) parts.now }
    ensures { IfSome result (IsRight terms.now Or parts.now) }
{
    for part in parts {
        if let Some(true) = truth(terms, *part) {
            return Some(boolean(alloc, true));
        }
    }
    None
}
