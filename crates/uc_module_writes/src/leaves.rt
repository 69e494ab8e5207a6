//! What single statements write.

ghost use Rattle.std.specs.Prelude.{◌≡◌, ◌++◌, ◌∷◌, [], map, OnOk};
ghost use Rattle.std.specs.List.{flat_map};
ghost use Rattle.uc_lexer.specs.declared.place.Place.{Place};
ghost use Rattle.uc_meaning.specs.Code.{modifies_in};
ghost use Rattle.uc_order_rules.specs.Writes.{part_of_name, part_of_target, stepped_at};
ghost use Rattle.uc_written_once.specs.Effects.{modified_by};
ghost use Rattle.uc_module_writes.specs.Found.{single, FindsSteps, GoesOn, Steps};

use crate::steps::StepTable;
use crate::written::WrittenPairs;
use std::alloc::{AllocError, Global};
use uc_syntax::{Clause, Identifier, Target};
use uc_type_names::NameSet;
use uc_written_once::{Effects, modified_in, name_part, target_part};

/// Adds the part that is a whole variable.
pub(crate) fn write_name(
    alloc: Global,
    names: &NameSet,
    name: u32,
    all: &mut WrittenPairs,
) -> Result<(), AllocError>
    ensures { OnOk result ((place : Place) → GoesOn names.now (λ meets. single place (part_of_name name) meets ∷ []) all.old all.new) }
{
    let part = name_part(alloc, name)?;
    all.write(alloc, names, part)?;
    Ok(())
}

fn write_target(
    alloc: Global,
    names: &NameSet,
    target: &Target,
    all: &mut WrittenPairs,
) -> Result<(), AllocError>
    ensures { OnOk result ((place : Place) → GoesOn names.now (λ meets. single place (part_of_target target.now) meets ∷ []) all.old all.new) }
{
    let part = target_part(alloc, target)?;
    all.write(alloc, names, part)?;
    Ok(())
}

/// Adds the parts of targets.
pub(crate) fn write_targets(
    alloc: Global,
    names: &NameSet,
    targets: &[Target],
    all: &mut WrittenPairs,
) -> Result<(), AllocError>
    ensures { OnOk result ((place : Place) → GoesOn names.now (λ meets. map (λ t. single place (part_of_target t) meets) targets.now) all.old all.new) }
{
    for target in targets {
        write_target(alloc, names, target, all)?;
    }
    Ok(())
}

fn write_names(
    alloc: Global,
    names: &NameSet,
    written: &[Identifier],
    all: &mut WrittenPairs,
) -> Result<(), AllocError>
    ensures { OnOk result ((place : Place) → GoesOn names.now (λ meets. map (λ i. single place (part_of_name i.name) meets) written.now) all.old all.new) }
{
    for identifier in written {
        write_name(alloc, names, identifier.name, all)?;
    }
    Ok(())
}

fn write_clause(
    alloc: Global,
    names: &NameSet,
    clause: &Clause,
    all: &mut WrittenPairs,
) -> Result<(), AllocError>
    ensures { OnOk result ((place : Place) → GoesOn names.now (λ meets. map (λ x. single place (part_of_name x) meets) (modifies_in clause.now)) all.old all.new) }
{
    write_names(alloc, names, modified_in(clause), all)?;
    Ok(())
}

fn write_clauses(
    alloc: Global,
    names: &NameSet,
    clauses: &[Clause],
    all: &mut WrittenPairs,
) -> Result<(), AllocError>
    ensures { OnOk result ((place : Place) → GoesOn names.now (λ meets. map (λ x. single place (part_of_name x) meets) (flat_map modifies_in clauses.now)) all.old all.new) }
{
    for clause in clauses {
        write_clause(alloc, names, clause, all)?;
    }
    Ok(())
}

/// Adds the names that the procedure of a name modifies.
pub(crate) fn write_modified(
    alloc: Global,
    effects: &Effects<'_>,
    names: &NameSet,
    procedure: u32,
    all: &mut WrittenPairs,
) -> Result<(), AllocError>
    ensures { OnOk result ((place : Place) → GoesOn names.now (λ meets. map (λ x. single place (part_of_name x) meets) (modified_by effects.now procedure)) all.old all.new) }
{
    match effects.procedure(procedure) {
        None => Ok(()),
        Some(called) => {
            write_clauses(alloc, names, called.clauses.as_slice(), all)?;
            Ok(())
        }
    }
}

/// Adds what the step of the instance of a name writes.
pub(crate) fn write_step(
    alloc: Global,
    table: &StepTable<'_>,
    instance: u32,
    all: &mut WrittenPairs,
) -> Result<(), AllocError>
    ensures { OnOk result ((place : Place) (steps : Steps) → FindsSteps table.now steps → GoesOn table.now.names.now (λ meets. stepped_at meets place (steps meets instance) ∷ []) all.old all.new) }
{
    match table.step(instance) {
        None => Ok(()),
        Some(step) => {
            all.then(alloc, step)?;
            Ok(())
        }
    }
}
