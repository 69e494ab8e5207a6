//! What single statements write.

ghost use Rattle.std.specs.Prelude.{◌≡◌, ◌&&◌, ◌||◌, ◌++◌, not, map, OnOk, IfOk};
ghost use Rattle.std.specs.List.{flat_map, list_any};
ghost use Rattle.uc_meaning.specs.Code.{modifies_in};
ghost use Rattle.uc_meaning.specs.Steps.{fields_before};
ghost use Rattle.uc_rules.specs.Statements.{modifies_in as written_in};
ghost use Rattle.uc_order_rules.specs.Writes.{is_empty, met, modified_names, overlap, part_of_name, part_of_target};
ghost use Rattle.uc_order_rules.specs.Walks.{walk_each};
ghost use Rattle.uc_written_once.specs.Effects.{modified_by, step_by};
ghost use Rattle.uc_written_once.specs.Walks.{is_stepped_twice, one_clause, one_name, one_part, one_target, walk_step, walk_targets, Went};

use crate::PartTable;
use crate::effects::{Effects, Stepped};
use std::alloc::{AllocError, Global};
use uc_items::Items;
use uc_rules::{Fault, Rule, note_where};
use uc_syntax::{Clause, Identifier, Place, Target, TargetPart};

/// Notes that a part is written at a place, and adds it.
#[tactic(auto, using(crate::proofs::WrittenOnceTurns::went_is))]
pub(crate) fn note_part(
    alloc: Global,
    place: Place,
    part: Items<u32>,
    again: bool,
    seen: &mut PartTable,
    first: &mut Option<Fault>,
) -> Result<(), AllocError>
    ensures { OnOk result (Went (one_part place part again seen.old) first.old seen.new first.new) }
{
    let is_twice = again || seen.overlaps(part.as_slice());
    note_where(first, is_twice, Rule::TwiceAssigned, place);
    seen.push(alloc, part)?;
    Ok(())
}

/// The part of a target: its name, and its fields up to its first index.
pub fn target_part(alloc: Global, target: &Target) -> Result<Items<u32>, AllocError>
    ensures { IfOk result (λ part. part ≡ part_of_target target.now) }
{
    let mut part = Items::new(alloc);
    part.push(target.name)?;
    add_fields(target.parts.as_slice(), &mut part)?;
    Ok(part)
}

fn add_fields(parts: &[TargetPart], part: &mut Items<u32>) -> Result<(), AllocError>
    ensures { OnOk result (part.new ≡ part.old ++ fields_before parts.now) }
{
    for selected in parts {
        match selected {
            TargetPart::Field(_, field) => part.push(field.name)?,
            TargetPart::Element(..) => return Ok(()),
        }
    }
    Ok(())
}

/// The part of a whole variable.
pub fn name_part(alloc: Global, name: u32) -> Result<Items<u32>, AllocError>
    ensures { IfOk result (λ part. part ≡ part_of_name name) }
{
    let mut part = Items::new(alloc);
    part.push(name)?;
    Ok(part)
}

pub(crate) fn note_name(
    alloc: Global,
    place: Place,
    name: u32,
    again: bool,
    seen: &mut PartTable,
    first: &mut Option<Fault>,
) -> Result<(), AllocError>
    ensures { OnOk result (Went (one_name place name again seen.old) first.old seen.new first.new) }
{
    let part = name_part(alloc, name)?;
    note_part(alloc, place, part, again, seen, first)?;
    Ok(())
}

fn note_target(
    alloc: Global,
    place: Place,
    target: &Target,
    again: bool,
    seen: &mut PartTable,
    first: &mut Option<Fault>,
) -> Result<(), AllocError>
    ensures { OnOk result (Went (one_target place target.now again seen.old) first.old seen.new first.new) }
{
    let part = target_part(alloc, target)?;
    note_part(alloc, place, part, again, seen, first)?;
    Ok(())
}

/// Notes the targets of a statement, from left to right.
pub(crate) fn note_targets(
    alloc: Global,
    place: Place,
    targets: &[Target],
    again: bool,
    seen: &mut PartTable,
    first: &mut Option<Fault>,
) -> Result<(), AllocError>
    ensures { OnOk result (Went (walk_targets place targets.now again seen.old) first.old seen.new first.new) }
{
    for target in targets {
        note_target(alloc, place, target, again, seen, first)?;
    }
    Ok(())
}

/// Notes the names that clauses modify, in order.
fn note_names(
    alloc: Global,
    place: Place,
    names: &[Identifier],
    again: bool,
    seen: &mut PartTable,
    first: &mut Option<Fault>,
) -> Result<(), AllocError>
    ensures { OnOk result (Went (walk_each (map (λ i. one_name place i.name) names.now) again seen.old) first.old seen.new first.new) }
{
    for identifier in names {
        note_name(alloc, place, identifier.name, again, seen, first)?;
    }
    Ok(())
}

/// The names that a clause modifies.
pub fn modified_in(clause: &Clause) -> &[Identifier]
    ensures written { result.now ≡ written_in clause.now }
    ensures names { map (λ i. i.name) result.now ≡ modifies_in clause.now }
{
    match clause {
        Clause::Modifies(_, names) => names.as_slice(),
        _ => &[],
    }
}

fn note_clauses(
    alloc: Global,
    place: Place,
    clauses: &[Clause],
    again: bool,
    seen: &mut PartTable,
    first: &mut Option<Fault>,
) -> Result<(), AllocError>
    ensures { OnOk result (Went (walk_each (map (one_name place) (flat_map modifies_in clauses.now)) again seen.old) first.old seen.new first.new) }
{
    for clause in clauses {
        note_names(alloc, place, modified_in(clause), again, seen, first)?;
    }
    Ok(())
}

/// Notes the targets of a call, and then the names that its procedure modifies.
pub(crate) fn note_call(
    alloc: Global,
    effects: &Effects<'_>,
    place: Place,
    targets: &[Target],
    procedure: u32,
    again: bool,
    seen: &mut PartTable,
    first: &mut Option<Fault>,
) -> Result<(), AllocError>
    ensures { OnOk result (Went (walk_each (map (one_target place) targets.now ++ map (one_name place) (modified_by effects.now procedure)) again seen.old) first.old seen.new first.new) }
{
    note_targets(alloc, place, targets, again, seen, first)?;
    match effects.procedure(procedure) {
        None => Ok(()),
        Some(called) => {
            note_clauses(alloc, place, called.clauses.as_slice(), again, seen, first)?;
            Ok(())
        }
    }
}

/// Whether a part of some overlaps one that was written.
fn any_overlaps(seen: &PartTable, parts: &[Items<u32>]) -> bool
    ensures { result ≡ list_any (met overlap seen.now) parts.now }
{
    parts.iter().any(|part| seen.overlaps(part.as_slice()))
}

#[tactic(auto, using(crate::proofs::Single::has_parts))]
fn has_parts(parts: &[Items<u32>]) -> bool
    ensures { result ≡ not (is_empty parts.now) }
{
    parts.len() > 0
}

fn is_twice(again: bool, seen: &PartTable, stepped: &Stepped) -> bool
    ensures { result ≡ is_stepped_twice again seen.now (record { parts = stepped.now.parts; meet = stepped.now.meet }) }
{
    let parts = stepped.parts.as_slice();
    let is_again = again && has_parts(parts);
    let overlaps = any_overlaps(seen, parts);
    stepped.meet || (is_again || overlaps)
}

/// Adds copies of parts.
fn add_copies(alloc: Global, parts: &[Items<u32>], seen: &mut PartTable) -> Result<(), AllocError>
    ensures { OnOk result (seen.new ≡ seen.old ++ parts.now) }
{
    for part in parts {
        let part = Items::from_slice(alloc, part.as_slice())?;
        seen.push(alloc, part)?;
    }
    Ok(())
}

/// Notes that an instance is stepped at a place, and adds what that writes.
pub(crate) fn note_step(
    alloc: Global,
    effects: &Effects<'_>,
    place: Place,
    instance: u32,
    again: bool,
    seen: &mut PartTable,
    first: &mut Option<Fault>,
) -> Result<(), AllocError>
    ensures { OnOk result (Went (walk_step place (step_by effects.now instance) again seen.old) first.old seen.new first.new) }
{
    match effects.step(instance) {
        None => Ok(()),
        Some(stepped) => {
            let is_fault = is_twice(again, seen, stepped);
            note_where(first, is_fault, Rule::TwiceAssigned, place);
            add_copies(alloc, stepped.parts.as_slice(), seen)?;
            Ok(())
        }
    }
}
