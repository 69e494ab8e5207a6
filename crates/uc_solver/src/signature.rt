//! The types that belong to a number of a symbol or of a function.

ghost use Rattle.std.specs.Prelude.{◌≡◌, ◌<◌, length, All, IsTrue, Some};
ghost use Rattle.std.specs.Bool.{Decides};
ghost use Rattle.uc_values.specs.Types.{is_scalar};
ghost use Rattle.uc_ops.specs.Typing.{type_at, types_at};
ghost use Rattle.uc_solver.specs.Signatures.{number_in, number_at, IsApplied, HaveOneSignature};

use uc_terms::{Op, TermId, Terms};
use uc_values::Ty;

/// What has a number.
#[derive(Clone, Copy)]
pub(crate) enum Kind {
    Symbols,
    Functions,
}

/// The number of a symbol, or that of a function, as the kind says.
pub(crate) fn number_in(kind: Kind, op: &Op) -> Option<u32>
    ensures { result ≡ number_in kind op.now }
{
    match (kind, op) {
        (Kind::Symbols, Op::Symbol(number, _)) | (Kind::Functions, Op::App(number, _)) => Some(
            *number,
        ),
        _ => None,
    }
}

/// Whether two types are one, where the first is scalar.
fn one_scalar(a: &Ty, b: &Ty) -> bool
    requires { IsTrue (is_scalar a.now) }
    ensures { Decides result (a.now ≡ b.now) }
{
    match a {
        Ty::Bool => matches!(b, Ty::Bool),
        Ty::Int => matches!(b, Ty::Int),
        Ty::Bv(width) => {
            let Ty::Bv(own) = b else {
                return false;
            };
            width == own
        }
        Ty::Enum(number, labels) => {
            let Ty::Enum(other, own) = b else {
                return false;
            };
            number == other && labels == own
        }
        Ty::Un(number) => {
            let Ty::Un(own) = b else {
                return false;
            };
            number == own
        }
        Ty::Rec(_) | Ty::Arr(_, _) => false,
    }
}

/// Whether two lists of terms have the same types, which are scalar.
fn same_scalars(terms: &Terms, left: &[TermId], right: &[TermId]) -> bool
    requires left { All (λ p. p < length terms.now) left.now }
    requires right { All (λ p. p < length terms.now) right.now }
    requires scalars { All (λ p. IsTrue (is_scalar (type_at terms.now p))) left.now }
    ensures { Decides result (types_at terms.now left.now ≡ types_at terms.now right.now) }
{
    if left.len() != right.len() {
        return false;
    }
    for place in 0..left.len() {
        if !one_scalar(terms.ty(left[place]), terms.ty(right[place])) {
            return false;
        }
    }
    true
}

/// Whether two applications have one type of result, and arguments of the same types.
fn same_application(terms: &Terms, a: TermId, b: TermId) -> bool
    requires first { a < length terms.now }
    requires second { b < length terms.now }
    requires function { IsApplied terms.now a }
    ensures { Decides result (HaveOneSignature terms.now a b) }
{
    let _well_typed = terms.nodes();
    if !one_scalar(terms.ty(a), terms.ty(b)) {
        return false;
    }
    same_scalars(terms, terms.parts(a), terms.parts(b))
}

/// Whether two terms of one number have one signature. Two symbols of one number have different types, since equal nodes are shared.
pub(crate) fn have_one_signature(
    kind: Kind,
    terms: &Terms,
    a: TermId,
    b: TermId,
    number: u32,
) -> bool
    requires first { a < b }
    requires second { b < length terms.now }
    requires named { number_at kind terms.now a ≡ Some number }
    requires same { number_at kind terms.now b ≡ Some number }
    ensures { Decides result (HaveOneSignature terms.now a b) }
{
    let _shared = terms.nodes();
    match kind {
        Kind::Symbols => false,
        Kind::Functions => same_application(terms, a, b),
    }
}
