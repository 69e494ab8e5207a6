//! The label that a name means in a module.

ghost use Rattle.std.specs.Prelude.{◌≡◌, nat_eq, IfOk};
ghost use Rattle.std.specs.Option.{option_map};
ghost use Rattle.std.specs.List.{position_from};
ghost use Rattle.uc_meaning.specs.Lookup.{first_some};
ghost use Rattle.uc_meaning.specs.Types.{label_of, label_in};
ghost use Rattle.uc_syntax.specs.WrittenTypes.{enums_of_module};
ghost use Rattle.uc_type_reader.specs.Mentioned.{IsMentioned};
ghost use Rattle.uc_type_reader.specs.Reading.{label_meant, label_at, label_in_named, label_imported};

use crate::mentioned::{Mentioned, WrittenEnum, mentioned_in};
use crate::tables::Tables;
use crate::types::word;
use std::alloc::{AllocError, Global};
use uc_syntax::{Decl, Module};

/// A label: the number of its enum, and its place among the labels from 0.
#[derive(Clone, Copy, Debug, PartialEq, Eq)]
pub struct Label {
    pub enum_number: u32,
    pub place: u32,
}

/// The label of a name in a module: of an enum of its own, else of a module that it brings in.
pub fn label_of(
    alloc: Global,
    tables: &Tables,
    code: &Module,
    name: u32,
) -> Result<Option<Label>, AllocError>
    ensures { IfOk result (λ l. option_map label_meant l ≡ label_of tables.now code.now name) }
{
    let found = mentioned_in(alloc, code)?;
    label_among(alloc, tables, code, &found, name)
}

/// The label of a name in a module, by what the module mentions.
fn label_among(
    alloc: Global,
    tables: &Tables,
    code: &Module,
    found: &Mentioned,
    name: u32,
) -> Result<Option<Label>, AllocError>
    requires { IsMentioned code.now found.now }
    ensures { IfOk result (λ l. option_map label_meant l ≡ label_of tables.now code.now name) }
{
    let own = first_label(tables, found.enums.as_slice(), name)?;
    if own.is_some() {
        return Ok(own);
    }
    let imported = first_imported(alloc, tables, code.decls.as_slice(), name)?;
    if imported.is_some() {
        return Ok(imported);
    }
    first_named(alloc, tables, found.modules.as_slice(), name)
}

/// The first label of the name in some enums.
fn first_label(
    tables: &Tables,
    enums: &[WrittenEnum],
    name: u32,
) -> Result<Option<Label>, AllocError>
    ensures { IfOk result (λ l. option_map label_meant l ≡ first_some (label_at tables.now name) enums.now) }
{
    for written in enums {
        let label = label_at(tables, written, name)?;
        if label.is_some() {
            return Ok(label);
        }
    }
    Ok(None)
}

fn label_at(tables: &Tables, written: &WrittenEnum, name: u32) -> Result<Option<Label>, AllocError>
    ensures { IfOk result (λ l. option_map label_meant l ≡ label_at tables.now name written.now) }
{
    match position(written.labels.as_slice(), name) {
        None => Ok(None),
        Some(place) => {
            let enum_number = word(tables.enum_number(written.place))?;
            let place = word(place)?;
            Ok(Some(Label { enum_number, place }))
        }
    }
}

/// The first place of a name.
fn position(names: &[u32], name: u32) -> Option<usize>
    ensures { result ≡ position_from (nat_eq name) 0 names.now }
{
    for (place, other) in names.iter().enumerate() {
        if name == *other {
            return Some(place);
        }
    }
    None
}

/// The first label of the name in the modules that declarations import.
fn first_imported(
    alloc: Global,
    tables: &Tables,
    decls: &[Decl],
    name: u32,
) -> Result<Option<Label>, AllocError>
    ensures { IfOk result (λ l. option_map label_meant l ≡ first_some (label_imported tables.now name) decls.now) }
{
    for decl in decls {
        let label = label_imported(alloc, tables, decl, name)?;
        if label.is_some() {
            return Ok(label);
        }
    }
    Ok(None)
}

fn label_imported(
    alloc: Global,
    tables: &Tables,
    decl: &Decl,
    name: u32,
) -> Result<Option<Label>, AllocError>
    ensures { IfOk result (λ l. option_map label_meant l ≡ label_imported tables.now name decl.now) }
{
    match decl {
        Decl::TypeImport(_, module) => label_in_named(alloc, tables, module.name, name),
        _ => Ok(None),
    }
}

/// The first label of the name in the modules of some names.
fn first_named(
    alloc: Global,
    tables: &Tables,
    modules: &[u32],
    name: u32,
) -> Result<Option<Label>, AllocError>
    ensures { IfOk result (λ l. option_map label_meant l ≡ first_some (label_in_named tables.now name) modules.now) }
{
    for owner in modules {
        let label = label_in_named(alloc, tables, *owner, name)?;
        if label.is_some() {
            return Ok(label);
        }
    }
    Ok(None)
}

/// The label of the name among the enums of the module of another name.
fn label_in_named(
    alloc: Global,
    tables: &Tables,
    owner: u32,
    name: u32,
) -> Result<Option<Label>, AllocError>
    ensures { IfOk result (λ l. option_map label_meant l ≡ label_in_named tables.now name owner) }
{
    match tables.system().module_named(owner) {
        None => Ok(None),
        Some(code) => label_in(alloc, tables, code, name),
    }
}

/// The label of the name among the enums of a module.
fn label_in(
    alloc: Global,
    tables: &Tables,
    code: &Module,
    name: u32,
) -> Result<Option<Label>, AllocError>
    ensures { IfOk result (λ l. option_map label_meant l ≡ first_some (label_in tables.now name) (enums_of_module code.now)) }
{
    let found = mentioned_in(alloc, code)?;
    first_label(tables, found.enums.as_slice(), name)
}
