//! The walk over code.

ghost use Rattle.std.specs.Prelude.{◌≡◌, Some, map, IfOk};
ghost use Rattle.uc_flat_expressions.specs.Answers.{IsAnswer};
ghost use Rattle.uc_flat_expressions.specs.Expressions.{all_of};
ghost use Rattle.uc_flat_code.specs.Code.{statement_of, code_of, each_arm, arm_of, joined_arms};

use crate::holding::built_where;
use crate::simple::{assign, assume, havoc, one};
use crate::writing::{FlatArm, Writing};
use std::alloc::{AllocError, Global};
use uc_flat::Statement;
use uc_flat_expressions::{FlatError, Meant, flat_expression, is_boolean};
use uc_items::{Items, beside};
use uc_syntax::{Arm, Stmt};

/// The code over cells that does what code does, where names stand for what is listed by their numbers. Not built are locals, assertions,
/// loops, calls and steps of instances, assignments of several targets or of parts, what breaks a rule of types, and expressions that are not built.
#[cycle(flat_code)]
pub fn flat_code(
    alloc: Global,
    names: &[Meant],
    writing: Writing,
    code: &[Stmt],
) -> Result<Items<Statement>, FlatError>
    ensures { IsAnswer (code_of names.now writing code.now) result }
{
    let mut all = Items::new(alloc);
    for statement in code {
        let more = flat_statement(alloc, names, writing, statement)?;
        all.append(more)?;
    }
    Ok(all)
}

#[cycle(flat_code)]
#[tactic(auto, using(crate::proofs::Forms::skip_empty, crate::proofs::Forms::block_answer, crate::proofs::Forms::assume_answer, crate::proofs::Forms::havoc_answer, crate::proofs::Forms::assign_answer, crate::proofs::Forms::if_arms_err, crate::proofs::Forms::if_alone, crate::proofs::Forms::if_else_err, crate::proofs::Forms::if_else, crate::proofs::Forms::case_arms_err, crate::proofs::Forms::case_alone, crate::proofs::Forms::case_else_err, crate::proofs::Forms::case_else, crate::proofs::Forms::local_none, crate::proofs::Forms::assert_none, crate::proofs::Forms::for_none, crate::proofs::Forms::call_none, crate::proofs::Forms::next_none))]
fn flat_statement(
    alloc: Global,
    names: &[Meant],
    writing: Writing,
    statement: &Stmt,
) -> Result<Items<Statement>, FlatError>
    ensures { IsAnswer (statement_of names.now writing statement.now) result }
{
    match statement {
        Stmt::Skip(_) => Ok(Items::new(alloc)),
        Stmt::Block(_, block) => flat_code(alloc, names, writing, block.as_slice()),
        Stmt::Assume(_, condition) => assume(alloc, names, condition),
        Stmt::Havoc(_, name, primed) => havoc(alloc, names, writing, name.name, *primed),
        Stmt::Assign(_, targets, sources) => {
            assign(
                alloc,
                names,
                writing,
                targets.as_slice(),
                sources.as_slice(),
            )
        }
        Stmt::If(_, arms, otherwise) => {
            let arms = flat_arms(alloc, names, writing, arms.as_slice())?;
            match otherwise {
                None => choice(alloc, arms, Items::new(alloc)),
                Some(block) => {
                    let rest = flat_code(alloc, names, writing, block.as_slice())?;
                    choice(alloc, arms, rest)
                }
            }
        }
        Stmt::Case(_, arms, otherwise) => {
            let arms = flat_arms(alloc, names, writing, arms.as_slice())?;
            match otherwise {
                None => choice(alloc, arms, Items::new(alloc)),
                Some(block) => {
                    let rest = flat_code(alloc, names, writing, block.as_slice())?;
                    choice(alloc, arms, rest)
                }
            }
        }
        Stmt::Local(..) => Err(FlatError::NotBuilt),
        Stmt::Assert(..) => Err(FlatError::NotBuilt),
        Stmt::For(..) => Err(FlatError::NotBuilt),
        Stmt::Call(..) => Err(FlatError::NotBuilt),
        Stmt::Next(..) => Err(FlatError::NotBuilt),
    }
}

#[cycle(flat_code)]
fn flat_arms(
    alloc: Global,
    names: &[Meant],
    writing: Writing,
    arms: &[Arm<Stmt>],
) -> Result<Items<FlatArm>, FlatError>
    ensures { IsAnswer (all_of (map (arm_of names.now) (map (each_arm (statement_of names.now writing)) arms.now))) result }
{
    let mut all = Items::new(alloc);
    for arm in arms {
        let test = flat_expression(alloc, names, &arm.condition)?;
        let test = built_where(is_boolean(&test.ty), test)?;
        let body = flat_code(alloc, names, writing, arm.body.as_slice());
        let (test, body) = beside(test, body)?;
        all.push(FlatArm {
            condition: test.expression,
            body,
        })?;
    }
    Ok(all)
}

/// The first arm whose condition is true, and other code where none is.
fn choice(
    alloc: Global,
    arms: Items<FlatArm>,
    rest: Items<Statement>,
) -> Result<Items<Statement>, FlatError>
    ensures { IsAnswer (Some (joined_arms arms rest)) result }
{
    let code = joined_arms(alloc, arms, rest)?;
    Ok(code)
}

/// Arms and the code where no condition is true, joined from the last one on.
#[tactic(auto, unfolding(crate::specs::Code::joined_arms), using(crate::proofs::Forms::joined_last))]
pub fn joined_arms(
    alloc: Global,
    arms: Items<FlatArm>,
    rest: Items<Statement>,
) -> Result<Items<Statement>, AllocError>
    ensures { IfOk result (λ code. code ≡ joined_arms arms rest) }
{
    let mut left = arms;
    let mut whole = rest;
    while let Some(arm) = left.pop() {
        whole = one(alloc, Statement::If(arm.condition, arm.body, whole))?;
    }
    Ok(whole)
}
