//! The enums that a module writes.

ghost use Rattle.std.specs.Prelude.{◌≡◌, ◌∷◌, ◌++◌, [], IfOk, OnOk};
ghost use Rattle.std.specs.List.{flat_map};
ghost use Rattle.uc_syntax.specs.WrittenTypes.{enums_in, enums_of_module};
ghost use Rattle.uc_type_names.specs.Lent.{enums_in_types, meant, enum_meant};

use crate::written::types_in;
use std::alloc::{AllocError, Global};
use uc_items::Items;
use uc_syntax::{Identifier, Module, Parameter, Place, TypeExpr};

/// An enum as it is written: the place of its word `enum`, and its labels.
#[derive(Clone, Copy)]
pub struct WrittenEnum<'a> {
    pub place: Place,
    pub labels: &'a [Identifier],
}

fn push<'a>(written: WrittenEnum<'a>, enums: &mut Items<WrittenEnum<'a>>) -> Result<(), AllocError>
    ensures { OnOk result (meant enums.new ≡ meant enums.old ++ enum_meant written.entry ∷ []) }
{
    enums.push(written)?;
    Ok(())
}

#[cycle(add_types)]
fn add_type<'a>(ty: &'a TypeExpr, enums: &mut Items<WrittenEnum<'a>>) -> Result<(), AllocError>
    ensures { OnOk result (meant enums.new ≡ meant enums.old ++ enums_in ty.now) }
{
    match ty {
        TypeExpr::Boolean(_) => Ok(()),
        TypeExpr::Integer(_) => Ok(()),
        TypeExpr::Bits(_, _) => Ok(()),
        TypeExpr::Enumeration(place, labels) => {
            let labels = labels.as_slice();
            push(
                WrittenEnum {
                    place: *place,
                    labels,
                },
                enums,
            )?;
            Ok(())
        }
        TypeExpr::Record(_, fields) => {
            add_fields(fields.as_slice(), enums)?;
            Ok(())
        }
        TypeExpr::Array(_, index, element) => {
            add_type(index.get(), enums)?;
            add_type(element.get(), enums)?;
            Ok(())
        }
        TypeExpr::Named(_, _) => Ok(()),
        TypeExpr::OfModule(_, _, _) => Ok(()),
    }
}

#[cycle(add_types)]
#[tactic(auto, using(uc_syntax::proofs::Added::added_begin, uc_syntax::proofs::Added::added_more, uc_syntax::proofs::Added::added_end))]
fn add_fields<'a>(
    fields: &'a [Parameter<TypeExpr>],
    enums: &mut Items<WrittenEnum<'a>>,
) -> Result<(), AllocError>
    ensures { OnOk result (meant enums.new ≡ meant enums.old ++ flat_map (λ p. enums_in p.ty) fields.now) }
{
    for field in fields {
        add_type(&field.ty, enums)?;
    }
    Ok(())
}

/// The enums of types.
#[tactic(auto, using(uc_syntax::proofs::Added::added_begin, uc_syntax::proofs::Added::added_more, uc_syntax::proofs::Added::added_end))]
fn add_types<'a>(
    types: &[&'a TypeExpr],
    enums: &mut Items<WrittenEnum<'a>>,
) -> Result<(), AllocError>
    ensures { OnOk result (meant enums.new ≡ meant enums.old ++ enums_in_types types.now) }
{
    for ty in types {
        add_type(ty, enums)?;
    }
    Ok(())
}

/// The enums that a module writes.
#[tactic(auto, using(uc_syntax::proofs::Added::added_begin, uc_syntax::proofs::Added::added_more, crate::proofs::EnumForms::enums_end))]
pub fn enums_of<'a>(alloc: Global, whole: &'a Module) -> Result<Items<WrittenEnum<'a>>, AllocError>
    ensures { IfOk result (λ es. meant es ≡ enums_of_module whole.now) }
{
    let mut enums = Items::new(alloc);
    for declaration in whole.decls.as_slice() {
        let types = types_in(alloc, declaration)?;
        add_types(types.as_slice(), &mut enums)?;
    }
    Ok(enums)
}
