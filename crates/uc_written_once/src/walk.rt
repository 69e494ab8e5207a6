//! The walk over a block.

ghost use Rattle.std.specs.Prelude.{◌≡◌, ◌||◌, ◌++◌, ℕ, List, [], drop, false, map, nat_lt, take, OnOk};
ghost use Rattle.std.specs.List.{flat_map};
ghost use Rattle.uc_meaning.specs.Lookup.{next_in};
ghost use Rattle.uc_rules.specs.Faults.{first_of};
ghost use Rattle.uc_order_rules.specs.Writes.{overlap, written_by, Stepping};
ghost use Rattle.uc_order_rules.specs.Walks.{walk_arms};
ghost use Rattle.uc_written_once.specs.Effects.{modified_by, step_by, AreEffects};
ghost use Rattle.uc_written_once.specs.Walks.{walk_arm, walk_block, walk_of, Went, WentAside};

use crate::effects::Effects;
use crate::noting::{note_call, note_name, note_step, note_targets};
use crate::{PartTable, turn_count};
use std::alloc::{AllocError, Global};
use uc_items::Items;
use uc_rules::Fault;
use uc_syntax::{Arm, Decl, Stmt};

/// Notes each statement of the next block among some declarations that writes a part which overlaps one that was written before on some
/// path, by a statement before it, by an earlier turn of a loop or by itself.
pub fn note_written_twice(
    alloc: Global,
    effects: &Effects<'_>,
    declarations: &[Decl],
    first: &mut Option<Fault>,
) -> Result<(), AllocError>
    ensures { OnOk result ((modified : ℕ → List ℕ) (steps : ℕ → Stepping) → AreEffects effects.now modified steps → first.new ≡ first_of first.old (written_by modified steps overlap (flat_map next_in declarations.now) []).faults) }
{
    let mut seen = PartTable::new(alloc);
    note_in_declarations(alloc, effects, declarations, &mut seen, first)?;
    Ok(())
}

fn note_in_declarations(
    alloc: Global,
    effects: &Effects<'_>,
    declarations: &[Decl],
    seen: &mut PartTable,
    first: &mut Option<Fault>,
) -> Result<(), AllocError>
    ensures { OnOk result (Went (walk_block (modified_by effects.now) (step_by effects.now) (flat_map next_in declarations.now) false seen.old) first.old seen.new first.new) }
{
    for declaration in declarations {
        let block = next_block(declaration);
        note_in_block(alloc, effects, block, false, seen, first)?;
    }
    Ok(())
}

/// The next block that a declaration is, and the empty one of another declaration.
pub fn next_block(declaration: &Decl) -> &[Stmt]
    ensures { result.now ≡ next_in declaration.now }
{
    match declaration {
        Decl::Next(_, block) => block.as_slice(),
        _ => &[],
    }
}

/// Whether all that a loop of some turns writes is written again.
fn is_turned_again(again: bool, count: u128) -> bool
    ensures { result ≡ (again || nat_lt 1 count) }
{
    again || count > 1
}

/// Takes the parts from a place on out, and adds all that is aside and these again.
fn join(
    alloc: Global,
    seen: &mut PartTable,
    start: usize,
    aside: Items<Items<u32>>,
) -> Result<(), AllocError>
    ensures { OnOk result (seen.new ≡ take start seen.old ++ (aside ++ drop start seen.old)) }
{
    let mut all = aside;
    put_aside(alloc, seen, start, &mut all)?;
    seen.push_all(alloc, all)?;
    Ok(())
}

/// Takes the parts from a place on out, and adds them to those that are aside.
fn put_aside(
    alloc: Global,
    seen: &mut PartTable,
    start: usize,
    aside: &mut Items<Items<u32>>,
) -> Result<(), AllocError>
    ensures kept { OnOk result (seen.new ≡ take start seen.old) }
    ensures aside { OnOk result (aside.new ≡ aside.old ++ drop start seen.old) }
{
    let tail = seen.split_off(alloc, start)?;
    aside.append(tail)?;
    Ok(())
}

#[cycle(note_writes)]
fn note_in_statement(
    alloc: Global,
    effects: &Effects<'_>,
    statement: &Stmt,
    again: bool,
    seen: &mut PartTable,
    first: &mut Option<Fault>,
) -> Result<(), AllocError>
    ensures { OnOk result (Went (walk_of (modified_by effects.now) (step_by effects.now) statement.now again seen.old) first.old seen.new first.new) }
{
    match statement {
        Stmt::Block(_, block) => {
            note_in_block(alloc, effects, block.as_slice(), again, seen, first)?;
            Ok(())
        }
        Stmt::If(_, arms, otherwise) => {
            let mut aside = Items::new(alloc);
            note_in_arms(
                alloc,
                effects,
                arms.as_slice(),
                again,
                seen,
                &mut aside,
                first,
            )?;
            match otherwise {
                None => {
                    seen.push_all(alloc, aside)?;
                    Ok(())
                }
                Some(block) => {
                    let start = seen.len();
                    note_in_block(alloc, effects, block.as_slice(), again, seen, first)?;
                    join(alloc, seen, start, aside)?;
                    Ok(())
                }
            }
        }
        Stmt::Case(_, arms, otherwise) => {
            let mut aside = Items::new(alloc);
            note_in_arms(
                alloc,
                effects,
                arms.as_slice(),
                again,
                seen,
                &mut aside,
                first,
            )?;
            match otherwise {
                None => {
                    seen.push_all(alloc, aside)?;
                    Ok(())
                }
                Some(block) => {
                    let start = seen.len();
                    note_in_block(alloc, effects, block.as_slice(), again, seen, first)?;
                    join(alloc, seen, start, aside)?;
                    Ok(())
                }
            }
        }
        Stmt::For(_, _, _, from, to, body) => {
            let count = turn_count(*from, *to);
            if count > 0 {
                let is_later = is_turned_again(again, count);
                note_in_block(alloc, effects, body.as_slice(), is_later, seen, first)?;
            }
            Ok(())
        }
        Stmt::Havoc(place, identifier, _) => {
            note_name(alloc, *place, identifier.name, again, seen, first)?;
            Ok(())
        }
        Stmt::Assign(place, targets, _) => {
            note_targets(alloc, *place, targets.as_slice(), again, seen, first)?;
            Ok(())
        }
        Stmt::Call(place, targets, procedure, _) => {
            let targets = targets.as_slice();
            note_call(
                alloc,
                effects,
                *place,
                targets,
                procedure.name,
                again,
                seen,
                first,
            )?;
            Ok(())
        }
        Stmt::Next(place, instance) => {
            note_step(alloc, effects, *place, instance.name, again, seen, first)?;
            Ok(())
        }
        Stmt::Local(..) => Ok(()),
        Stmt::Skip(_) => Ok(()),
        Stmt::Assert(..) => Ok(()),
        Stmt::Assume(..) => Ok(()),
    }
}

#[cycle(note_writes)]
fn note_in_block(
    alloc: Global,
    effects: &Effects<'_>,
    block: &[Stmt],
    again: bool,
    seen: &mut PartTable,
    first: &mut Option<Fault>,
) -> Result<(), AllocError>
    ensures { OnOk result (Went (walk_block (modified_by effects.now) (step_by effects.now) block.now again seen.old) first.old seen.new first.new) }
{
    for statement in block {
        note_in_statement(alloc, effects, statement, again, seen, first)?;
    }
    Ok(())
}

#[cycle(note_writes)]
fn note_in_arms(
    alloc: Global,
    effects: &Effects<'_>,
    arms: &[Arm<Stmt>],
    again: bool,
    seen: &mut PartTable,
    aside: &mut Items<Items<u32>>,
    first: &mut Option<Fault>,
) -> Result<(), AllocError>
    ensures { OnOk result (WentAside (walk_arms (map (walk_arm (modified_by effects.now) (step_by effects.now)) arms.now) again seen.old aside.old) first.old seen.new aside.new first.new) }
{
    for arm in arms {
        let start = seen.len();
        let block = arm.body.as_slice();
        for statement in block {
            note_in_statement(alloc, effects, statement, again, seen, first)?;
        }
        put_aside(alloc, seen, start, aside)?;
    }
    Ok(())
}
