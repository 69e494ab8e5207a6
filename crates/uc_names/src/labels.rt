//! The labels that written types declare, and those that they bring in.

ghost use Rattle.std.specs.Prelude.{◌≡◌, ◌++◌, ◌∷◌, [], List, Some, map, OnOk};
ghost use Rattle.std.specs.List.{flat_map};
ghost use Rattle.std.specs.Option.{option_map};
ghost use Rattle.uc_syntax.specs.declared.declaration.Module.{Module};
ghost use Rattle.uc_rules.specs.Names.{labels_brought, labels_from, labels_in, name_at};
ghost use Rattle.uc_names.specs.Senses.{entries_meant, entry_meant, module_in};
ghost use Rattle.uc_names.specs.Entries.{labels_by_types, labels_of_enum};

use crate::design::DesignNames;
use crate::{Entry, Label, Sense};
use std::alloc::{AllocError, Global};
use uc_items::Items;
use uc_syntax::{Identifier, Parameter, Place, TypeExpr};
use uc_type_names::{WrittenEnum, enums_of};

/// Adds an entry.
pub(crate) fn push<'a>(entry: Entry<'a>, entries: &mut Items<Entry<'a>>) -> Result<(), AllocError>
    ensures { OnOk result ((ms : List Module) → entries_meant ms entries.new ≡ entries_meant ms entries.old ++ entry_meant ms entry.entry ∷ []) }
{
    entries.push(entry)?;
    Ok(())
}

/// Adds the labels of an enum.
fn add_labels<'a>(
    enum_number: usize,
    labels: &[Identifier],
    entries: &mut Items<Entry<'a>>,
) -> Result<(), AllocError>
    ensures { OnOk result ((ms : List Module) → entries_meant ms entries.new ≡ entries_meant ms entries.old ++ labels_from enum_number 0 labels.now) }
{
    for (place, label) in labels.iter().enumerate() {
        let sense = Sense::Label(Label { enum_number, place });
        push(
            Entry {
                identifier: *label,
                sense,
            },
            entries,
        )?;
    }
    Ok(())
}

/// Adds the labels of an enum as they are brought in at a place.
fn add_labels_at<'a>(
    enum_number: usize,
    at: Place,
    labels: &[Identifier],
    entries: &mut Items<Entry<'a>>,
) -> Result<(), AllocError>
    ensures { OnOk result ((ms : List Module) → entries_meant ms entries.new ≡ entries_meant ms entries.old ++ labels_from enum_number 0 (map (λ l. name_at at l.name) labels.now)) }
{
    for (place, label) in labels.iter().enumerate() {
        let sense = Sense::Label(Label { enum_number, place });
        let identifier = Identifier {
            place: at,
            name: label.name,
        };
        push(Entry { identifier, sense }, entries)?;
    }
    Ok(())
}

/// Adds the labels of a written enum as they are brought in at a place.
fn add_enum_at<'a>(
    design: &DesignNames<'a>,
    at: Place,
    written: &WrittenEnum<'_>,
    entries: &mut Items<Entry<'a>>,
) -> Result<(), AllocError>
    ensures { OnOk result (entries_meant design.now.modules entries.new ≡ entries_meant design.now.modules entries.old ++ labels_of_enum design.now at written.now) }
{
    let number = design.enum_number(written.place);
    add_labels_at(number, at, written.labels, entries)?;
    Ok(())
}

/// Adds the labels of some enums as they are brought in at a place.
#[tactic(auto, using(uc_syntax::proofs::Added::added_begin, uc_syntax::proofs::Added::added_more, uc_syntax::proofs::Added::added_end))]
fn add_enums_at<'a>(
    design: &DesignNames<'a>,
    at: Place,
    enums: &[WrittenEnum<'_>],
    entries: &mut Items<Entry<'a>>,
) -> Result<(), AllocError>
    ensures { OnOk result (entries_meant design.now.modules entries.new ≡ entries_meant design.now.modules entries.old ++ flat_map (labels_of_enum design.now at) enums.now) }
{
    for written in enums {
        add_enum_at(design, at, written, entries)?;
    }
    Ok(())
}

/// Adds the labels of all enums of a module, if there is one, as they are brought in at a place.
#[tactic(auto, using(uc_syntax::proofs::Added::append_nil))]
pub(crate) fn add_brought<'a>(
    alloc: Global,
    design: &DesignNames<'a>,
    at: Place,
    other: Option<usize>,
    entries: &mut Items<Entry<'a>>,
) -> Result<(), AllocError>
    ensures { OnOk result (entries_meant design.now.modules entries.new ≡ entries_meant design.now.modules entries.old ++ labels_brought design.now at (option_map (module_in design.now.modules) other)) }
{
    match other {
        None => Ok(()),
        Some(number) => {
            add_module_labels(alloc, design, at, number, entries)?;
            Ok(())
        }
    }
}

/// Adds the labels of all enums of the module at a place, if there is one.
fn add_module_labels<'a>(
    alloc: Global,
    design: &DesignNames<'a>,
    at: Place,
    number: usize,
    entries: &mut Items<Entry<'a>>,
) -> Result<(), AllocError>
    ensures { OnOk result (entries_meant design.now.modules entries.new ≡ entries_meant design.now.modules entries.old ++ labels_brought design.now at (Some (module_in design.now.modules number))) }
{
    match design.module_at(number) {
        None => Ok(()),
        Some(whole) => {
            let enums = enums_of(alloc, whole)?;
            add_enums_at(design, at, enums.as_slice(), entries)?;
            Ok(())
        }
    }
}

/// Adds the labels that a written type declares or brings in.
#[cycle(add_type_labels)]
pub(crate) fn add_type_labels<'a>(
    alloc: Global,
    design: &DesignNames<'a>,
    ty: &'a TypeExpr,
    entries: &mut Items<Entry<'a>>,
) -> Result<(), AllocError>
    ensures { OnOk result (entries_meant design.now.modules entries.new ≡ entries_meant design.now.modules entries.old ++ labels_in design.now ty.now) }
{
    match ty {
        TypeExpr::Boolean(_) => Ok(()),
        TypeExpr::Integer(_) => Ok(()),
        TypeExpr::Bits(_, _) => Ok(()),
        TypeExpr::Enumeration(place, labels) => {
            let number = design.enum_number(*place);
            let labels = labels.as_slice();
            add_labels(number, labels, entries)?;
            Ok(())
        }
        TypeExpr::Record(_, fields) => {
            add_field_labels(alloc, design, fields.as_slice(), entries)?;
            Ok(())
        }
        TypeExpr::Array(_, index, element) => {
            add_type_labels(alloc, design, index.get(), entries)?;
            add_type_labels(alloc, design, element.get(), entries)?;
            Ok(())
        }
        TypeExpr::Named(_, _) => Ok(()),
        TypeExpr::OfModule(place, owner, _) => {
            let number = design.module_named(*owner);
            add_brought(alloc, design, *place, number, entries)?;
            Ok(())
        }
    }
}

#[cycle(add_type_labels)]
#[tactic(auto, using(uc_syntax::proofs::Added::added_begin, uc_syntax::proofs::Added::added_more, uc_syntax::proofs::Added::added_end))]
fn add_field_labels<'a>(
    alloc: Global,
    design: &DesignNames<'a>,
    fields: &'a [Parameter<TypeExpr>],
    entries: &mut Items<Entry<'a>>,
) -> Result<(), AllocError>
    ensures { OnOk result (entries_meant design.now.modules entries.new ≡ entries_meant design.now.modules entries.old ++ flat_map (λ p. labels_in design.now p.ty) fields.now) }
{
    for field in fields {
        add_type_labels(alloc, design, &field.ty, entries)?;
    }
    Ok(())
}

/// Adds the labels that some written types declare or bring in.
#[tactic(auto, using(uc_syntax::proofs::Added::added_begin, uc_syntax::proofs::Added::added_more, uc_syntax::proofs::Added::added_end))]
pub(crate) fn add_types_labels<'a>(
    alloc: Global,
    design: &DesignNames<'a>,
    types: &[&'a TypeExpr],
    entries: &mut Items<Entry<'a>>,
) -> Result<(), AllocError>
    ensures { OnOk result (entries_meant design.now.modules entries.new ≡ entries_meant design.now.modules entries.old ++ labels_by_types design.now types.now) }
{
    for ty in types {
        add_type_labels(alloc, design, ty, entries)?;
    }
    Ok(())
}
