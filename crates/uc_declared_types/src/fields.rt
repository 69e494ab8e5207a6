//! The fields of a record.

ghost use Rattle.std.specs.Prelude.{◌≡◌, IfOk};
ghost use Rattle.uc_rules.specs.Outcomes.{type_in};
ghost use Rattle.uc_rules.specs.Types.{record_outcome};
ghost use Rattle.uc_declared_types.specs.Aliases.{with_field_at_end};

use std::alloc::AllocError;
use uc_items::Items;
use uc_values::{Field, Ty};

/// Some fields with one more, where all of them are known.
pub(crate) fn with_field(
    fields: Option<Items<Field<Ty>>>,
    name: u32,
    ty: Option<Ty>,
) -> Result<Option<Items<Field<Ty>>>, AllocError>
    ensures { IfOk result (λ fs. fs ≡ with_field_at_end fields name ty) }
{
    match fields {
        None => Ok(None),
        Some(fields) => match ty {
            None => Ok(None),
            Some(ty) => {
                let fields = pushed(fields, name, ty)?;
                Ok(Some(fields))
            }
        },
    }
}

fn pushed(fields: Items<Field<Ty>>, name: u32, ty: Ty) -> Result<Items<Field<Ty>>, AllocError>
    ensures { IfOk result (λ fs. Some fs ≡ with_field_at_end (Some fields) name (Some ty)) }
{
    let mut fields = fields;
    fields.push(Field { name, ty })?;
    Ok(fields)
}

/// The record of some fields, where they are known.
pub(crate) fn record_of(fields: Option<Items<Field<Ty>>>) -> Option<Ty>
    ensures { result ≡ type_in (record_outcome fields) }
{
    match fields {
        None => None,
        Some(fields) => Some(Ty::Rec(fields)),
    }
}
