//! The types that written types stand for, by what is known of aliases, and the rules that they break.

ghost use Rattle.std.specs.Prelude.{◌≡◌, IfOk, OnOk};
ghost use Rattle.std.specs.List.{flat_map};
ghost use Rattle.uc_names.specs.Senses.{module_in};
ghost use Rattle.uc_rules.specs.Faults.{first_of};
ghost use Rattle.uc_rules.specs.Names.{repeated_in_list};
ghost use Rattle.uc_rules.specs.Declarations.{identifiers_of};
ghost use Rattle.uc_rules.specs.Types.{Aliases, found_by, of_module};
ghost use Rattle.uc_meaning.specs.Lookup.{module_named};
ghost use Rattle.uc_declared_types.specs.Aliases.{Agrees, Related, Same, Side, fields_found};

use crate::aliases::AliasTypes;
use crate::fields::{record_of, with_field};
use crate::named::{note_named, word};
use crate::shapes::array_outcome;
use std::alloc::{AllocError, Global};
use uc_items::Items;
use uc_names::TypeHomes;
use uc_rules::{Fault, Rule, note, settle, width_outcome};
use uc_syntax::{Identifier, Parameter, Place, TypeExpr};
use uc_type_names::{NameSet, note_repeated_parameters};
use uc_values::{Field, Ty};

/// The type that a written type of the module at a place stands for, by what is known of aliases. Its faults are noted.
#[cycle(note_type)]
pub(crate) fn note_type(
    alloc: Global,
    homes: &TypeHomes<'_>,
    aliases: &AliasTypes,
    home: usize,
    ty: &TypeExpr,
    first: &mut Option<Fault>,
) -> Result<Option<Ty>, AllocError>
    ensures ty { IfOk result (λ t. (side : Side) (alias : Aliases) → Agrees side homes.now aliases.now alias → Related side t (found_by homes.now alias (module_in homes.now.modules home) ty.now).type) }
    ensures faults { OnOk result ((alias : Aliases) → Agrees Same homes.now aliases.now alias → first.new ≡ first_of first.old (found_by homes.now alias (module_in homes.now.modules home) ty.now).faults) }
{
    match ty {
        TypeExpr::Boolean(_) => Ok(Some(Ty::Bool)),
        TypeExpr::Integer(_) => Ok(Some(Ty::Int)),
        TypeExpr::Bits(place, width) => Ok(settle(first, *place, width_outcome(*width))),
        TypeExpr::Enumeration(place, labels) => {
            let number = word(homes.design().enum_number(*place))?;
            let count = word(labels.len())?;
            Ok(Some(Ty::Enum(number, count)))
        }
        TypeExpr::Record(_, fields) => {
            let fields = fields.as_slice();
            note_repeated_fields(alloc, fields, first)?;
            let fields = note_fields(alloc, homes, aliases, home, fields, first)?;
            Ok(record_of(fields))
        }
        TypeExpr::Array(place, index, element) => {
            let index = note_type(alloc, homes, aliases, home, index.get(), first)?;
            let element = note_type(alloc, homes, aliases, home, element.get(), first)?;
            let outcome = array_outcome(alloc, index, element)?;
            Ok(settle(first, *place, outcome))
        }
        TypeExpr::Named(place, name) => {
            let declared = homes.declared(home, *name);
            let found = note_named(alloc, homes, aliases, *place, *name, declared, first)?;
            Ok(found)
        }
        TypeExpr::OfModule(place, owner, identifier) => {
            let found = note_of_module(alloc, homes, aliases, *place, *owner, *identifier, first)?;
            Ok(found)
        }
    }
}

/// What is known of the fields of a record.
#[cycle(note_type)]
fn note_fields(
    alloc: Global,
    homes: &TypeHomes<'_>,
    aliases: &AliasTypes,
    home: usize,
    parameters: &[Parameter<TypeExpr>],
    first: &mut Option<Fault>,
) -> Result<Option<Items<Field<Ty>>>, AllocError>
    ensures fields { IfOk result (λ fs. (side : Side) (alias : Aliases) → Agrees side homes.now aliases.now alias → Related side fs (fields_found homes.now alias (module_in homes.now.modules home) parameters.now)) }
    ensures faults { OnOk result ((alias : Aliases) → Agrees Same homes.now aliases.now alias → first.new ≡ first_of first.old (flat_map (λ p. (found_by homes.now alias (module_in homes.now.modules home) p.ty).faults) parameters.now)) }
{
    let mut fields = Some(Items::new(alloc));
    for parameter in parameters {
        let ty = note_type(alloc, homes, aliases, home, &parameter.ty, first)?;
        fields = with_field(fields, parameter.identifier.name, ty)?;
    }
    Ok(fields)
}

/// Notes each field whose name an earlier one has.
#[tactic(auto, using(crate::proofs::Entries::in_list))]
fn note_repeated_fields(
    alloc: Global,
    parameters: &[Parameter<TypeExpr>],
    first: &mut Option<Fault>,
) -> Result<(), AllocError>
    ensures { OnOk result (first.new ≡ first_of first.old (repeated_in_list (identifiers_of parameters.now))) }
{
    let taken = NameSet::new(alloc);
    let mut seen = NameSet::new(alloc);
    note_repeated_parameters(alloc, &taken, &mut seen, parameters, first)
}

/// What is known of a type of another module. A module that isn't there is noted at its name, and a type at the type's name.
fn note_of_module(
    alloc: Global,
    homes: &TypeHomes<'_>,
    aliases: &AliasTypes,
    place: Place,
    owner: u32,
    identifier: Identifier,
    first: &mut Option<Fault>,
) -> Result<Option<Ty>, AllocError>
    ensures ty { IfOk result (λ t. (side : Side) (alias : Aliases) → Agrees side homes.now aliases.now alias → Related side t (of_module homes.now alias place identifier (module_named homes.now owner)).type) }
    ensures faults { OnOk result ((alias : Aliases) → first.new ≡ first_of first.old (of_module homes.now alias place identifier (module_named homes.now owner)).faults) }
{
    match homes.design().module_named(owner) {
        None => {
            note(first, Rule::UnknownName, place);
            Ok(None)
        }
        Some(number) => {
            let declared = homes.declared_in(number, identifier.name);
            let found = note_named(
                alloc,
                homes,
                aliases,
                identifier.place,
                identifier.name,
                declared,
                first,
            )?;
            Ok(found)
        }
    }
}
