//! What the calls and the steps of a module write.

ghost use Rattle.std.specs.Prelude.{◌≡◌, ◌++◌, ◌∷◌, [], ℕ, List, Option, Some, IfOk, OnOk};
ghost use Rattle.std.specs.Option.{option_copied, option_map};
ghost use Rattle.uc_syntax.specs.declared.declaration.Decl.{Decl};
ghost use Rattle.uc_meaning.specs.Lookup.{instance_in, or_else, procedure_in, InstanceParts as InstanceMeant};
ghost use Rattle.uc_lookup.specs.Parts.{if_named, instance_parts};
ghost use Rattle.uc_written_once.specs.Effects.{procedure_by, stepped_by};
ghost use Rattle.uc_module_writes.specs.Found.{entered_by};
ghost use Rattle.uc_module_writes.specs.Stepped.{declared_procedure, summary_by, AreTables, EntersStep, IsStepAs};

use crate::places::ModulePlaces;
use crate::stepping::{step_of, stepped_from};
use crate::summaries::Summaries;
use crate::{StepTable, WrittenPairs};
use std::alloc::{AllocError, Global};
use uc_lookup::InstanceParts;
use uc_syntax::{Decl, Procedure};
use uc_type_names::NameSet;
use uc_written_once::Effects;

/// Enters the procedures and the instances among some declarations.
pub(crate) fn enter_all<'a>(
    alloc: Global,
    names: &NameSet,
    places: &ModulePlaces,
    summaries: &Summaries,
    declarations: &'a [Decl],
    effects: &mut Effects<'a>,
    table: &mut StepTable<'_>,
) -> Result<(), AllocError>
    ensures { OnOk result ((ds : List Decl) → AreTables names.now (summary_by places.now summaries.now) ds effects.old table.old → AreTables names.now (summary_by places.now summaries.now) (ds ++ declarations.now) effects.new table.new) }
{
    for declaration in declarations {
        enter_declaration(alloc, names, places, summaries, declaration, effects, table)?;
    }
    Ok(())
}

fn enter_declaration<'a>(
    alloc: Global,
    names: &NameSet,
    places: &ModulePlaces,
    summaries: &Summaries,
    declaration: &'a Decl,
    effects: &mut Effects<'a>,
    table: &mut StepTable<'_>,
) -> Result<(), AllocError>
    ensures { OnOk result ((ds : List Decl) → AreTables names.now (summary_by places.now summaries.now) ds effects.old table.old → AreTables names.now (summary_by places.now summaries.now) (ds ++ declaration.now ∷ []) effects.new table.new) }
{
    enter_procedure(declaration, effects)?;
    enter_instance(alloc, names, places, summaries, declaration, effects, table)?;
    Ok(())
}

/// The procedure that a declaration is.
fn procedure_in(declaration: &Decl) -> Option<&Procedure>
    ensures { option_copied result ≡ declared_procedure declaration.now }
{
    match declaration {
        Decl::Procedure(_, procedure) => Some(procedure),
        _ => None,
    }
}

/// The instance that a declaration is.
fn instance_in(declaration: &Decl) -> Option<InstanceParts<'_>>
    ensures { option_map instance_parts result ≡ instance_in declaration.now }
{
    match declaration {
        Decl::Instance(_, identifier, module, bindings) => Some(InstanceParts {
            name: identifier.name,
            module_name: module.name,
            bindings: bindings.as_slice(),
        }),
        _ => None,
    }
}

fn enter_procedure<'a>(declaration: &'a Decl, effects: &mut Effects<'a>) -> Result<(), AllocError>
    ensures procedures { OnOk result ((f : ℕ) → procedure_by effects.new f ≡ or_else (procedure_by effects.old f) (procedure_in f declaration.now)) }
    ensures steps { OnOk result ((i : ℕ) → stepped_by effects.new i ≡ stepped_by effects.old i) }
{
    match procedure_in(declaration) {
        None => Ok(()),
        Some(procedure) => {
            effects.enter_procedure(procedure)?;
            Ok(())
        }
    }
}

fn enter_instance(
    alloc: Global,
    names: &NameSet,
    places: &ModulePlaces,
    summaries: &Summaries,
    declaration: &Decl,
    effects: &mut Effects<'_>,
    table: &mut StepTable<'_>,
) -> Result<(), AllocError>
    ensures named { OnOk result (table.new.names.now ≡ table.old.names.now) }
    ensures procedures { OnOk result ((f : ℕ) → procedure_by effects.new f ≡ procedure_by effects.old f) }
    ensures instances { OnOk result ((before : Option InstanceMeant) (x : ℕ) → EntersStep names.now (summary_by places.now summaries.now) before (stepped_by effects.old x) (entered_by table.old x) → EntersStep names.now (summary_by places.now summaries.now) (or_else before (if_named x (instance_in declaration.now))) (stepped_by effects.new x) (entered_by table.new x)) }
{
    match instance_in(declaration) {
        None => Ok(()),
        Some(instance) => {
            let step = step_for(alloc, names, places, summaries, instance)?;
            enter_step(alloc, instance.name, step, effects, table)?;
            Ok(())
        }
    }
}

/// What stepping an instance writes.
fn step_for(
    alloc: Global,
    names: &NameSet,
    places: &ModulePlaces,
    summaries: &Summaries,
    instance: InstanceParts<'_>,
) -> Result<WrittenPairs, AllocError>
    ensures { IfOk result (λ w. IsStepAs names.now (summary_by places.now summaries.now instance.entry.module_name) (instance_parts instance.entry) w) }
{
    match summaries.of(places, instance.module_name) {
        None => {
            let idle = WrittenPairs::new(alloc);
            Ok(idle)
        }
        Some(inner) => {
            let step = step_of(alloc, names, instance.name, instance.bindings, inner)?;
            Ok(step)
        }
    }
}

/// Enters a step in both tables.
fn enter_step(
    alloc: Global,
    name: u32,
    step: WrittenPairs,
    effects: &mut Effects<'_>,
    table: &mut StepTable<'_>,
) -> Result<(), AllocError>
    ensures named { OnOk result (table.new.names.now ≡ table.old.names.now) }
    ensures procedures { OnOk result ((f : ℕ) → procedure_by effects.new f ≡ procedure_by effects.old f) }
    ensures instances { OnOk result ((names : List ℕ) (known : ℕ → Option WrittenPairs) (i : InstanceMeant) (before : Option InstanceMeant) (x : ℕ) → i.name ≡ name → IsStepAs names (known i.module_name) i step → EntersStep names known before (stepped_by effects.old x) (entered_by table.old x) → EntersStep names known (or_else before (if_named x (Some i))) (stepped_by effects.new x) (entered_by table.new x)) }
{
    let stepped = stepped_from(alloc, &step)?;
    effects.enter_instance(name, stepped)?;
    table.enter(name, step)?;
    Ok(())
}
