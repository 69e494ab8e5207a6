//! Terms of integers that are opened.

ghost use Rattle.std.specs.Prelude.{◌≡◌, ◌<◌, length, IfSome};
ghost use Rattle.uc_values.specs.declared.ty.Ty.TheVariants.{Int as Integer};
ghost use Rattle.uc_ops.specs.Typing.{type_at};
ghost use Rattle.uc_simplify.specs.Forms.{IsValue, IsNumber, IsTimes, IsTotal};

use uc_terms::{Op, TermId, Terms};
use uc_values::Value;

/// A sum gives its own parts where it has at most so many, so that a chain of sums takes no more than this many times its length.
const FEW: usize = 32;

/// The value of a constant.
fn constant(terms: &Terms, t: TermId) -> Option<&Value>
    requires { t < length terms.now }
    ensures { IfSome result (λ v. IsValue terms.now t v.now) }
{
    match terms.op(t) {
        Op::Const(_, value) => Some(value),
        _ => None,
    }
}

/// The number of a constant.
pub(crate) fn constant_of(terms: &Terms, t: TermId) -> Option<i128>
    requires { t < length terms.now }
    ensures { IfSome result (IsNumber terms.now t) }
{
    match constant(terms, t) {
        Some(Value::Int(number)) => Some(*number),
        _ => None,
    }
}

/// A term as a multiple: the factor and the part, or 1 and the term itself.
pub(crate) fn multiple(terms: &Terms, t: TermId) -> (i128, TermId)
    requires there { t < length terms.now }
    requires integer { type_at terms.now t ≡ Integer }
    ensures { IsTimes terms.now t result.0 result.1 }
{
    match (terms.op(t), terms.parts(t)) {
        (Op::Scale(factor), [part]) => (*factor, *part),
        _ => (1, t),
    }
}

/// The parts of a sum, where they are few.
pub(crate) fn addends(terms: &Terms, t: TermId) -> Option<&[TermId]>
    requires { t < length terms.now }
    ensures { IfSome result (λ own. IsTotal terms.now t own.now) }
{
    let parts = terms.parts(t);
    if parts.len() > FEW {
        return None;
    }
    match terms.op(t) {
        Op::Add => Some(parts),
        _ => None,
    }
}
