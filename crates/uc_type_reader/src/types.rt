//! The type that a written type stands for.

ghost use Rattle.std.specs.Prelude.{◌≡◌, map, IfOk};
ghost use Rattle.std.specs.Option.{option_copied};
ghost use Rattle.uc_meaning.specs.Types.{type_of_written, type_through, type_in_home};
ghost use Rattle.uc_type_reader.specs.Reading.{type_above, field_above};

use crate::homes::{TypeEntry, home_of_type, type_entry};
use crate::tables::Tables;
use std::alloc::{AllocError, Global};
use uc_items::{Boxed, Items};
use uc_syntax::{Module, Parameter, TypeExpr};
use uc_values::{Field, Ty};

/// The type that a written type of a module stands for, through aliases.
#[tactic(auto, using(crate::proofs::Equations::written_type))]
pub fn type_of_written(
    alloc: Global,
    tables: &Tables,
    code: &Module,
    ty: &TypeExpr,
) -> Result<Ty, AllocError>
    ensures { IfOk result (λ t. t ≡ type_of_written tables.now code.now ty.now) }
{
    type_above(alloc, tables, tables.declarations(), code, ty)
}

/// The same, where aliases are read through at most so many further ones.
#[cycle(type_above)]
#[tactic(auto, using(crate::proofs::Equations::type_boolean, crate::proofs::Equations::type_integer, crate::proofs::Equations::type_bits, crate::proofs::Equations::type_enumeration, crate::proofs::Equations::type_record, crate::proofs::Equations::type_array, crate::proofs::Equations::type_named, crate::proofs::Equations::type_of_module))]
fn type_above(
    alloc: Global,
    tables: &Tables,
    below: usize,
    code: &Module,
    ty: &TypeExpr,
) -> Result<Ty, AllocError>
    ensures { IfOk result (λ t. t ≡ type_above below tables.now code.now ty.now) }
{
    match ty {
        TypeExpr::Boolean(_) => Ok(Ty::Bool),
        TypeExpr::Integer(_) => Ok(Ty::Int),
        TypeExpr::Bits(_, width) => {
            let width = byte(*width)?;
            Ok(Ty::Bv(width))
        }
        TypeExpr::Enumeration(place, labels) => {
            let number = word(tables.enum_number(*place))?;
            let count = word(labels.len())?;
            Ok(Ty::Enum(number, count))
        }
        TypeExpr::Record(_, fields) => {
            let fields = fields_above(alloc, tables, below, code, fields.as_slice())?;
            Ok(Ty::Rec(fields))
        }
        TypeExpr::Array(_, index, element) => {
            let index = type_above(alloc, tables, below, code, index.get())?;
            let index = Boxed::new(alloc, index)?;
            let element = type_above(alloc, tables, below, code, element.get())?;
            let element = Boxed::new(alloc, element)?;
            Ok(Ty::Arr(index, element))
        }
        TypeExpr::Named(_, name) => {
            let home = home_of_type(&tables.system(), code, *name);
            type_in_home(alloc, tables, below, home, *name)
        }
        TypeExpr::OfModule(_, owner, identifier) => {
            let home = tables.system().module_named(*owner);
            type_in_home(alloc, tables, below, home, identifier.name)
        }
    }
}

#[cycle(type_above)]
fn fields_above(
    alloc: Global,
    tables: &Tables,
    below: usize,
    code: &Module,
    parameters: &[Parameter<TypeExpr>],
) -> Result<Items<Field<Ty>>, AllocError>
    ensures { IfOk result (λ fs. fs ≡ map (field_above below tables.now code.now) parameters.now) }
{
    let mut fields = Items::new(alloc);
    for parameter in parameters {
        let ty = type_above(alloc, tables, below, code, &parameter.ty)?;
        fields.push(Field {
            name: parameter.identifier.name,
            ty,
        })?;
    }
    Ok(fields)
}

/// The type of a name in the module that declares it.
#[cycle(type_above)]
fn type_in_home(
    alloc: Global,
    tables: &Tables,
    below: usize,
    home: Option<&Module>,
    name: u32,
) -> Result<Ty, AllocError>
    ensures { IfOk result (λ t. t ≡ type_in_home tables.now (type_through below tables.now) (option_copied home.entry) name) }
{
    match home {
        None => Ok(Ty::Bool),
        Some(code) => match type_entry(code.decls.as_slice(), name) {
            None => Ok(Ty::Bool),
            Some(TypeEntry::Opaque) => {
                let number = word(tables.opaque_number(code.name, name))?;
                Ok(Ty::Un(number))
            }
            Some(TypeEntry::Alias(ty)) => {
                if below == 0 {
                    return Ok(Ty::Bool);
                }
                type_above(alloc, tables, below - 1, code, ty)
            }
        },
    }
}

/// A number that fits a `u32`.
pub(crate) fn word(number: usize) -> Result<u32, AllocError>
    ensures { IfOk result (λ n. n ≡ number) }
{
    match u32::try_from(number) {
        Ok(number) => Ok(number),
        Err(_) => Err(AllocError),
    }
}

fn byte(number: u32) -> Result<u8, AllocError>
    ensures { IfOk result (λ n. n ≡ number) }
{
    match u8::try_from(number) {
        Ok(number) => Ok(number),
        Err(_) => Err(AllocError),
    }
}
