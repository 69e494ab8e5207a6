//! Written types that hold no array.

ghost use Rattle.std.specs.Prelude.{◌≡◌};
ghost use Rattle.std.specs.List.{list_all};
ghost use Rattle.uc_runnable.specs.Plain.{spares_arrays};

use uc_syntax::{Parameter, TypeExpr};

/// Whether no array stands in a written type.
#[cycle(spares_arrays)]
#[tactic(auto, using(crate::proofs::FragmentTypeForms::spares_boolean, crate::proofs::FragmentTypeForms::spares_integer, crate::proofs::FragmentTypeForms::spares_bits, crate::proofs::FragmentTypeForms::spares_enum, crate::proofs::FragmentTypeForms::spares_record, crate::proofs::FragmentTypeForms::spares_array, crate::proofs::FragmentTypeForms::spares_named, crate::proofs::FragmentTypeForms::spares_of_module))]
pub(crate) fn spares_arrays(ty: &TypeExpr) -> bool
    ensures { result ≡ spares_arrays ty.now }
{
    match ty {
        TypeExpr::Boolean(_) => true,
        TypeExpr::Integer(_) => true,
        TypeExpr::Bits(_, _) => true,
        TypeExpr::Enumeration(_, _) => true,
        TypeExpr::Record(_, fields) => fields_spare_arrays(fields.as_slice()),
        TypeExpr::Array(_, _, _) => false,
        TypeExpr::Named(_, _) => true,
        TypeExpr::OfModule(_, _, _) => true,
    }
}

#[cycle(spares_arrays)]
fn fields_spare_arrays(fields: &[Parameter<TypeExpr>]) -> bool
    ensures { result ≡ list_all (λ p. spares_arrays p.ty) fields.now }
{
    for field in fields {
        if !spares_arrays(&field.ty) {
            return false;
        }
    }
    true
}
