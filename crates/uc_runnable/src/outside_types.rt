//! Types as they are written.

ghost use Rattle.std.specs.Prelude.{◌≡◌};
ghost use Rattle.uc_meaning.specs.Lookup.{first_some};
ghost use Rattle.uc_runnable.specs.Outside.{outside_type};

use uc_syntax::{Parameter, Place, TypeExpr};

/// The place of the first `integer` or array in a written type.
#[cycle(outside_type)]
pub(crate) fn outside_type(ty: &TypeExpr) -> Option<Place>
    ensures { result ≡ outside_type ty.now }
{
    match ty {
        TypeExpr::Boolean(_) => None,
        TypeExpr::Integer(place) => Some(*place),
        TypeExpr::Bits(_, _) => None,
        TypeExpr::Enumeration(_, _) => None,
        TypeExpr::Record(_, fields) => outside_fields(fields.as_slice()),
        TypeExpr::Array(place, _, _) => Some(*place),
        TypeExpr::Named(_, _) => None,
        TypeExpr::OfModule(_, _, _) => None,
    }
}

#[cycle(outside_type)]
#[tactic(auto, unfolding(uc_meaning::specs::Lookup::first_some))]
fn outside_fields(fields: &[Parameter<TypeExpr>]) -> Option<Place>
    ensures { result ≡ first_some (λ p. outside_type p.ty) fields.now }
{
    for field in fields {
        let found = outside_type(&field.ty);
        if found.is_some() {
            return found;
        }
    }
    None
}
