//! The walk over statements.

ghost use Rattle.std.specs.Prelude.{◌≡◌, OnOk};
ghost use Rattle.uc_rules.specs.Faults.{first_of};
ghost use Rattle.uc_rules.specs.Expressions.{standing_faults};
ghost use Rattle.uc_rules.specs.Statements.{havoc_standing};
ghost use Rattle.uc_statement_rules.specs.Judging.{JudgesArms, JudgesBlock, JudgesElse, JudgesStatement, step_faults};

use crate::calls::judge_call;
use crate::declared::judge_local;
use crate::ranges::enter_loop;
use crate::targets::judge_assignment;
use crate::written::havoc_outcome;
use std::alloc::{AllocError, Global};
use uc_expression_rules::note_condition;
use uc_items::Items;
use uc_read_names::Scope;
use uc_rules::{Fault, Rule, note_where, settle};
use uc_syntax::{Arm, Identifier, Place, Stmt};

/// Notes the faults of a statement. The scope is then the one in which the next statement of its block stands.
#[cycle(judge_statement)]
pub fn judge_statement(
    alloc: Global,
    scope: &mut Scope<'_, '_>,
    statement: &Stmt,
    first: &mut Option<Fault>,
) -> Result<(), AllocError>
    ensures { OnOk result (JudgesStatement scope.old statement.now first.old first.new scope.new) }
{
    match statement {
        Stmt::Local(place, names, ty) => {
            judge_local(alloc, scope, *place, names.as_slice(), ty, first)
        }
        Stmt::Skip(_) => Ok(()),
        Stmt::Block(_, block) => judge_block(alloc, scope, block.as_slice(), first),
        Stmt::Assert(_, _, condition) => note_condition(alloc, scope, condition, first),
        Stmt::Assume(_, condition) => note_condition(alloc, scope, condition, first),
        Stmt::Havoc(_, name, is_primed) => judge_havoc(alloc, scope, *name, *is_primed, first),
        Stmt::Assign(place, targets, sources) => {
            let targets = targets.as_slice();
            judge_assignment(alloc, scope, *place, targets, sources.as_slice(), first)
        }
        Stmt::If(_, arms, otherwise) => {
            judge_arms(alloc, scope, arms.as_slice(), first)?;
            judge_otherwise(alloc, scope, otherwise, first)
        }
        Stmt::Case(_, arms, otherwise) => {
            judge_arms(alloc, scope, arms.as_slice(), first)?;
            judge_otherwise(alloc, scope, otherwise, first)
        }
        Stmt::For(place, variable, written, from, to, body) => {
            let depth = scope.depth();
            enter_loop(alloc, scope, *place, *variable, written, *from, *to, first)?;
            judge_block(alloc, scope, body.as_slice(), first)?;
            scope.leave(depth);
            Ok(())
        }
        Stmt::Call(place, targets, procedure, arguments) => {
            let targets = targets.as_slice();
            let arguments = arguments.as_slice();
            judge_call(alloc, scope, *place, targets, *procedure, arguments, first)
        }
        Stmt::Next(place, instance) => {
            judge_step(scope, *place, *instance, first);
            Ok(())
        }
    }
}

/// Notes the faults of a block of statements, each of whose locals is known in what follows it there. The scope is then the same again.
#[cycle(judge_statement)]
pub fn judge_block(
    alloc: Global,
    scope: &mut Scope<'_, '_>,
    block: &[Stmt],
    first: &mut Option<Fault>,
) -> Result<(), AllocError>
    ensures { OnOk result (JudgesBlock scope.old block.now first.old first.new scope.new) }
{
    let depth = scope.depth();
    for statement in block {
        judge_statement(alloc, scope, statement, first)?;
    }
    scope.leave(depth);
    Ok(())
}

/// Notes the faults of the conditions of arms and of the blocks that they guard.
#[cycle(judge_statement)]
fn judge_arms(
    alloc: Global,
    scope: &mut Scope<'_, '_>,
    arms: &[Arm<Stmt>],
    first: &mut Option<Fault>,
) -> Result<(), AllocError>
    ensures { OnOk result (JudgesArms scope.old arms.now first.old first.new scope.new) }
{
    for arm in arms {
        note_condition(alloc, scope, &arm.condition, first)?;
        judge_block(alloc, scope, arm.body.as_slice(), first)?;
    }
    Ok(())
}

/// Notes the faults of the block that stands for all that arms leave out, where there is one.
#[cycle(judge_statement)]
fn judge_otherwise(
    alloc: Global,
    scope: &mut Scope<'_, '_>,
    otherwise: &Option<Items<Stmt>>,
    first: &mut Option<Fault>,
) -> Result<(), AllocError>
    ensures { OnOk result (JudgesElse scope.old otherwise.now first.old first.new scope.new) }
{
    match otherwise {
        None => Ok(()),
        Some(block) => judge_block(alloc, scope, block.as_slice(), first),
    }
}

/// Notes the fault of `havoc`, at its name.
fn judge_havoc(
    alloc: Global,
    scope: &Scope<'_, '_>,
    identifier: Identifier,
    is_primed: bool,
    first: &mut Option<Fault>,
) -> Result<(), AllocError>
    ensures { OnOk result (first.new ≡ first_of first.old (standing_faults (havoc_standing scope.now identifier.place identifier.name is_primed))) }
{
    let outcome = havoc_outcome(alloc, scope, identifier.name, is_primed)?;
    settle(first, identifier.place, outcome);
    Ok(())
}

/// Notes the faults of `next` of an instance: outside a next block, at its first token, and an instance that isn't there, at its name.
fn judge_step(scope: &Scope<'_, '_>, place: Place, instance: Identifier, first: &mut Option<Fault>)
    ensures { first.new ≡ first_of first.old (step_faults scope.now place instance) }
{
    note_where(first, !scope.is_in_next(), Rule::BadPrime, place);
    let is_there = scope.instance(instance.name).is_some();
    note_where(first, !is_there, Rule::UnknownName, instance.place);
}
