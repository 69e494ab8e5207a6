//! Tests of types.

ghost use Rattle.std.specs.Prelude.{◌≡◌};
ghost use Rattle.uc_flat_expressions.specs.Types.{is_boolean, is_bits, are_same_bits};

use uc_values::Ty;

/// Whether a type is that of truth values.
pub fn is_boolean(ty: &Ty) -> bool
    ensures { result ≡ is_boolean ty.now }
{
    matches!(ty, Ty::Bool)
}

pub(crate) fn is_bits(ty: &Ty) -> bool
    ensures { result ≡ is_bits ty.now }
{
    matches!(ty, Ty::Bv(_))
}

/// Whether both are bit-vectors of one width.
pub(crate) fn are_same_bits(a: &Ty, b: &Ty) -> bool
    ensures { result ≡ are_same_bits a.now b.now }
{
    match (a, b) {
        (Ty::Bv(width), Ty::Bv(own)) => width == own,
        _ => false,
    }
}
