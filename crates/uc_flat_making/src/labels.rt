//! The labels that the names of a module mean, for all names at once.

ghost use Rattle.std.specs.Prelude.{nat_eq, IfOk, OnOk};
ghost use Rattle.indexmap.specs.IndexMap.{get};
ghost use Rattle.uc_meaning.specs.Lookup.{first_some};
ghost use Rattle.uc_meaning.specs.Types.{label_in, label_of};
ghost use Rattle.uc_syntax.specs.WrittenTypes.{enums_of_module};
ghost use Rattle.uc_type_reader.specs.Reading.{label_meant, label_at, label_imported, label_in_named};
ghost use Rattle.uc_flat_making.specs.Firsts.{Enters, Gives};
ghost use Rattle.uc_flat_making.specs.Table.{label_among};

use crate::table::word;
use std::alloc::{AllocError, Global};
use uc_names::Firsts;
use uc_syntax::{Decl, Module};
use uc_type_reader::{Label, Tables, WrittenEnum, mentioned_in};

/// The label of each name: of an enum of the module itself, else of a module that it brings in.
pub(crate) fn labels_of(
    alloc: Global,
    tables: &Tables,
    code: &Module,
) -> Result<Firsts<Label>, AllocError>
    ensures { IfOk result (λ t. Gives label_meant (label_of tables.now code.now) (get nat_eq t.things)) }
{
    let mut labels = Firsts::new(alloc);
    let found = mentioned_in(alloc, code)?;
    enter_enums(tables, found.enums.as_slice(), &mut labels)?;
    enter_imported(alloc, tables, code.decls.as_slice(), &mut labels)?;
    enter_named(alloc, tables, found.modules.as_slice(), &mut labels)?;
    Ok(labels)
}

/// Enters the labels of some enums.
#[tactic(auto, using(crate::proofs::Entered::entered_begin, crate::proofs::Entered::entered_more, crate::proofs::Entered::entered_end))]
fn enter_enums(
    tables: &Tables,
    enums: &[WrittenEnum],
    labels: &mut Firsts<Label>,
) -> Result<(), AllocError>
    ensures { OnOk result (Enters label_meant (λ x. first_some (label_at tables.now x) enums.now) (get nat_eq labels.old.things) (get nat_eq labels.new.things)) }
{
    for written in enums {
        enter_enum(tables, written, labels)?;
    }
    Ok(())
}

fn enter_enum(
    tables: &Tables,
    written: &WrittenEnum,
    labels: &mut Firsts<Label>,
) -> Result<(), AllocError>
    ensures { OnOk result (Enters label_meant (λ x. label_at tables.now x written.now) (get nat_eq labels.old.things) (get nat_eq labels.new.things)) }
{
    let enum_number = word(tables.enum_number(written.place))?;
    enter_labels(enum_number, written.labels.as_slice(), labels)
}

/// Enters the labels of the enum of a number.
#[tactic(auto, using(crate::proofs::Entered::labelled_begin, crate::proofs::Entered::labelled_more, crate::proofs::Entered::labelled_end))]
fn enter_labels(
    enum_number: u32,
    names: &[u32],
    labels: &mut Firsts<Label>,
) -> Result<(), AllocError>
    ensures { OnOk result (Enters label_meant (λ x. label_among enum_number names.now x) (get nat_eq labels.old.things) (get nat_eq labels.new.things)) }
{
    for (place, name) in names.iter().enumerate() {
        let place = word(place)?;
        labels.enter(*name, Some(Label { enum_number, place }))?;
    }
    Ok(())
}

/// Enters the labels of the modules that declarations import.
#[tactic(auto, using(crate::proofs::Entered::entered_begin, crate::proofs::Entered::entered_more, crate::proofs::Entered::entered_end))]
fn enter_imported(
    alloc: Global,
    tables: &Tables,
    decls: &[Decl],
    labels: &mut Firsts<Label>,
) -> Result<(), AllocError>
    ensures { OnOk result (Enters label_meant (λ x. first_some (label_imported tables.now x) decls.now) (get nat_eq labels.old.things) (get nat_eq labels.new.things)) }
{
    for decl in decls {
        enter_import(alloc, tables, decl, labels)?;
    }
    Ok(())
}

fn enter_import(
    alloc: Global,
    tables: &Tables,
    decl: &Decl,
    labels: &mut Firsts<Label>,
) -> Result<(), AllocError>
    ensures { OnOk result (Enters label_meant (λ x. label_imported tables.now x decl.now) (get nat_eq labels.old.things) (get nat_eq labels.new.things)) }
{
    match decl {
        Decl::TypeImport(_, module) => enter_module(alloc, tables, module.name, labels),
        _ => Ok(()),
    }
}

/// Enters the labels of the modules of some names.
#[tactic(auto, using(crate::proofs::Entered::entered_begin, crate::proofs::Entered::entered_more, crate::proofs::Entered::entered_end))]
fn enter_named(
    alloc: Global,
    tables: &Tables,
    modules: &[u32],
    labels: &mut Firsts<Label>,
) -> Result<(), AllocError>
    ensures { OnOk result (Enters label_meant (λ x. first_some (label_in_named tables.now x) modules.now) (get nat_eq labels.old.things) (get nat_eq labels.new.things)) }
{
    for owner in modules {
        enter_module(alloc, tables, *owner, labels)?;
    }
    Ok(())
}

/// Enters the labels of the enums of the module of a name.
fn enter_module(
    alloc: Global,
    tables: &Tables,
    owner: u32,
    labels: &mut Firsts<Label>,
) -> Result<(), AllocError>
    ensures { OnOk result (Enters label_meant (λ x. label_in_named tables.now x owner) (get nat_eq labels.old.things) (get nat_eq labels.new.things)) }
{
    match tables.system().module_named(owner) {
        None => Ok(()),
        Some(code) => {
            enter_own(alloc, tables, code, labels)?;
            Ok(())
        }
    }
}

/// Enters the labels of the enums of a module.
fn enter_own(
    alloc: Global,
    tables: &Tables,
    code: &Module,
    labels: &mut Firsts<Label>,
) -> Result<(), AllocError>
    ensures { OnOk result (Enters label_meant (λ x. first_some (label_in tables.now x) (enums_of_module code.now)) (get nat_eq labels.old.things) (get nat_eq labels.new.things)) }
{
    let found = mentioned_in(alloc, code)?;
    enter_enums(tables, found.enums.as_slice(), labels)?;
    Ok(())
}
