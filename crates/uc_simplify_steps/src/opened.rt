//! Terms that are opened: the operation, and its parts.

ghost use Rattle.std.specs.Prelude.{◌<◌, [], ◌∷◌, length, IfSome};
ghost use Rattle.uc_ops.specs.declared.op.Op.TheVariants.{Scale, Store, MkRec, Concat};
ghost use Rattle.uc_simplify_steps.specs.Steps.{IsApplied};

use uc_terms::{Op, TermId, Terms};
use uc_values::Ty;

/// A multiple: the factor and the part.
pub(crate) fn multiple(terms: &Terms, t: TermId) -> Option<(i128, TermId)>
    requires { t < length terms.now }
    ensures { IfSome result (λ r. IsApplied terms.now t (Scale r.0) (r.1 ∷ [])) }
{
    match (terms.op(t), terms.parts(t)) {
        (Op::Scale(factor), [part]) => Some((*factor, *part)),
        _ => None,
    }
}

/// An array that stores an element: the array before, the index and the element.
pub(crate) fn stored(terms: &Terms, t: TermId) -> Option<(TermId, TermId, TermId)>
    requires { t < length terms.now }
    ensures applied { IfSome result (λ r. IsApplied terms.now t Store (r.0 ∷ r.1 ∷ r.2 ∷ [])) }
    ensures there { IfSome result (λ r. r.1 < length terms.now) }
{
    match (terms.op(t), terms.parts(t)) {
        (Op::Store, [array, index, element]) => Some((*array, *index, *element)),
        _ => None,
    }
}

/// The parts of a record.
pub(crate) fn record_parts(terms: &Terms, t: TermId) -> Option<(&Ty, &[TermId])>
    requires { t < length terms.now }
    ensures { IfSome result (λ r. IsApplied terms.now t (MkRec r.0.now) r.1.now) }
{
    match terms.op(t) {
        Op::MkRec(ty) => Some((ty, terms.parts(t))),
        _ => None,
    }
}

/// An operation on one part.
pub(crate) fn single(terms: &Terms, t: TermId) -> Option<(&Op, TermId)>
    requires { t < length terms.now }
    ensures applied { IfSome result (λ r. IsApplied terms.now t r.0.now (r.1 ∷ [])) }
    ensures there { IfSome result (λ r. r.1 < length terms.now) }
{
    match terms.parts(t) {
        [part] => Some((terms.op(t), *part)),
        _ => None,
    }
}

/// A concatenation: the high part and the low one.
pub(crate) fn concatenation(terms: &Terms, t: TermId) -> Option<(TermId, TermId)>
    requires { t < length terms.now }
    ensures applied { IfSome result (λ r. IsApplied terms.now t Concat (r.0 ∷ r.1 ∷ [])) }
    ensures there { IfSome result (λ r. r.1 < length terms.now) }
{
    match (terms.op(t), terms.parts(t)) {
        (Op::Concat, [high, low]) => Some((*high, *low)),
        _ => None,
    }
}
