//! The walk over a block.

ghost use Rattle.std.specs.Prelude.{◌≡◌, ◌∷◌, [], ℕ, List, IfOk, OnOk};
ghost use Rattle.std.specs.List.{flat_map};
ghost use Rattle.uc_meaning.specs.Lookup.{next_in};
ghost use Rattle.uc_order_rules.specs.Writes.{written_by};
ghost use Rattle.uc_written_once.specs.Effects.{modified_by};
ghost use Rattle.uc_module_writes.specs.Found.{FindsArms, FindsBlock, FindsCode, FindsSteps, GoesOnWith, GoesOrLast, Steps};

use crate::leaves::{write_modified, write_name, write_step, write_targets};
use crate::steps::StepTable;
use crate::written::WrittenPairs;
use std::alloc::{AllocError, Global};
use uc_items::{Items, beside};
use uc_syntax::{Arm, Decl, Stmt};
use uc_written_once::{Effects, next_block, turn_count};

/// What the next block among some declarations writes, and the pairs of parts of some names that it writes on one path.
pub fn written_pairs(
    alloc: Global,
    effects: &Effects<'_>,
    table: &StepTable<'_>,
    declarations: &[Decl],
) -> Result<WrittenPairs, AllocError>
    ensures { IfOk result (λ w. (modified : ℕ → List ℕ) (steps : Steps) → ((f : ℕ) → modified_by effects.now f ≡ modified f) → FindsSteps table.now steps → FindsBlock table.now.names.now (λ meets. written_by modified (steps meets) meets (flat_map next_in declarations.now) []) w) }
{
    let mut all = WrittenPairs::new(alloc);
    let found = find_in_declarations(alloc, effects, table, declarations, &mut all);
    let (all, _) = beside(all, found)?;
    Ok(all)
}

fn find_in_declarations(
    alloc: Global,
    effects: &Effects<'_>,
    table: &StepTable<'_>,
    declarations: &[Decl],
    all: &mut WrittenPairs,
) -> Result<(), AllocError>
    ensures { OnOk result (GoesOnWith effects.now table.now (flat_map next_in declarations.now) all.old all.new) }
{
    for declaration in declarations {
        let block = next_block(declaration);
        find_in_block(alloc, effects, table, block, all)?;
    }
    Ok(())
}

#[cycle(find_pairs)]
fn find_in_statement(
    alloc: Global,
    effects: &Effects<'_>,
    table: &StepTable<'_>,
    statement: &Stmt,
    all: &mut WrittenPairs,
) -> Result<(), AllocError>
    ensures { OnOk result (GoesOnWith effects.now table.now (statement.now ∷ []) all.old all.new) }
{
    match statement {
        Stmt::Block(_, block) => {
            find_in_block(alloc, effects, table, block.as_slice(), all)?;
            Ok(())
        }
        Stmt::If(_, arms, otherwise) => {
            let others = found_in_arms(alloc, effects, table, arms.as_slice())?;
            let either = found_in_otherwise(alloc, effects, table, otherwise, others)?;
            all.then_all(alloc, either)?;
            Ok(())
        }
        Stmt::Case(_, arms, otherwise) => {
            let others = found_in_arms(alloc, effects, table, arms.as_slice())?;
            let either = found_in_otherwise(alloc, effects, table, otherwise, others)?;
            all.then_all(alloc, either)?;
            Ok(())
        }
        Stmt::For(_, _, _, from, to, body) => {
            let count = turn_count(*from, *to);
            if count > 0 {
                let turn = found_in_block(alloc, effects, table, body.as_slice())?;
                all.then_turns(alloc, turn, count > 1)?;
            }
            Ok(())
        }
        Stmt::Havoc(_, identifier, _) => {
            write_name(alloc, table.names(), identifier.name, all)?;
            Ok(())
        }
        Stmt::Assign(_, targets, _) => {
            write_targets(alloc, table.names(), targets.as_slice(), all)?;
            Ok(())
        }
        Stmt::Call(_, targets, procedure, _) => {
            write_targets(alloc, table.names(), targets.as_slice(), all)?;
            write_modified(alloc, effects, table.names(), procedure.name, all)?;
            Ok(())
        }
        Stmt::Next(_, instance) => {
            write_step(alloc, table, instance.name, all)?;
            Ok(())
        }
        Stmt::Local(..) => Ok(()),
        Stmt::Skip(_) => Ok(()),
        Stmt::Assert(..) => Ok(()),
        Stmt::Assume(..) => Ok(()),
    }
}

#[cycle(find_pairs)]
fn find_in_block(
    alloc: Global,
    effects: &Effects<'_>,
    table: &StepTable<'_>,
    block: &[Stmt],
    all: &mut WrittenPairs,
) -> Result<(), AllocError>
    ensures { OnOk result (GoesOnWith effects.now table.now block.now all.old all.new) }
{
    for statement in block {
        find_in_statement(alloc, effects, table, statement, all)?;
    }
    Ok(())
}

/// What a block writes by itself.
#[cycle(find_pairs)]
fn found_in_block(
    alloc: Global,
    effects: &Effects<'_>,
    table: &StepTable<'_>,
    block: &[Stmt],
) -> Result<WrittenPairs, AllocError>
    ensures { IfOk result (FindsCode effects.now table.now block.now) }
{
    let mut own = WrittenPairs::new(alloc);
    let found = find_in_block(alloc, effects, table, block, &mut own);
    let (own, _) = beside(own, found)?;
    Ok(own)
}

/// What arms write by themselves.
#[cycle(find_pairs)]
fn found_in_arms(
    alloc: Global,
    effects: &Effects<'_>,
    table: &StepTable<'_>,
    arms: &[Arm<Stmt>],
) -> Result<WrittenPairs, AllocError>
    ensures { IfOk result (FindsArms effects.now table.now arms.now) }
{
    let mut either = WrittenPairs::new(alloc);
    for arm in arms {
        let own = found_in_block(alloc, effects, table, arm.body.as_slice());
        let (others, own) = beside(either, own)?;
        either = others.or_all(alloc, own)?;
    }
    Ok(either)
}

/// What is written on other paths, and on the path of the block of an `else` or a `default`.
#[cycle(find_pairs)]
fn found_in_otherwise(
    alloc: Global,
    effects: &Effects<'_>,
    table: &StepTable<'_>,
    otherwise: &Option<Items<Stmt>>,
    others: WrittenPairs,
) -> Result<WrittenPairs, AllocError>
    ensures { IfOk result (GoesOrLast effects.now table.now otherwise.now others) }
{
    match otherwise {
        None => Ok(others),
        Some(block) => {
            let own = found_in_block(alloc, effects, table, block.as_slice());
            let (others, own) = beside(others, own)?;
            let either = others.or_all(alloc, own)?;
            Ok(either)
        }
    }
}
