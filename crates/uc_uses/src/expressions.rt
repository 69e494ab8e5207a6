//! The walk over code that gives its expressions.

ghost use Rattle.std.specs.Prelude.{◌≡◌, ◌++◌, IfOk, OnOk};
ghost use Rattle.std.specs.List.{flat_map};
ghost use Rattle.uc_order_rules.specs.Mentions.{expressions_in};
ghost use Rattle.uc_uses.specs.Lent.{lent, expressions_in_arm};

use crate::targets::{add_all, add_indices, push};
use std::alloc::{AllocError, Global};
use uc_items::Items;
use uc_syntax::{Arm, Expr, Stmt};

/// The expressions in code, also in the statements inside its statements, by reference.
pub fn expressions_in(alloc: Global, code: &[Stmt]) -> Result<Items<&Expr>, AllocError>
    ensures { IfOk result (λ es. lent es ≡ flat_map expressions_in code.now) }
{
    let mut found = Items::new(alloc);
    add_block(code, &mut found)?;
    Ok(found)
}

#[cycle(add_statements)]
fn add_statement<'a>(statement: &'a Stmt, found: &mut Items<&'a Expr>) -> Result<(), AllocError>
    ensures { OnOk result (lent found.new ≡ lent found.old ++ expressions_in statement.now) }
{
    match statement {
        Stmt::Local(_, _, _) => Ok(()),
        Stmt::Skip(_) => Ok(()),
        Stmt::Block(_, block) => {
            add_block(block.as_slice(), found)?;
            Ok(())
        }
        Stmt::Assert(_, _, condition) => {
            push(condition, found)?;
            Ok(())
        }
        Stmt::Assume(_, condition) => {
            push(condition, found)?;
            Ok(())
        }
        Stmt::Havoc(_, _, _) => Ok(()),
        Stmt::Assign(_, targets, sources) => {
            add_indices(targets.as_slice(), found)?;
            add_all(sources.as_slice(), found)?;
            Ok(())
        }
        Stmt::If(_, arms, otherwise) => {
            add_arms(arms.as_slice(), found)?;
            match otherwise {
                None => Ok(()),
                Some(block) => {
                    add_block(block.as_slice(), found)?;
                    Ok(())
                }
            }
        }
        Stmt::Case(_, arms, otherwise) => {
            add_arms(arms.as_slice(), found)?;
            match otherwise {
                None => Ok(()),
                Some(block) => {
                    add_block(block.as_slice(), found)?;
                    Ok(())
                }
            }
        }
        Stmt::For(_, _, _, _, _, body) => {
            add_block(body.as_slice(), found)?;
            Ok(())
        }
        Stmt::Call(_, targets, _, arguments) => {
            add_indices(targets.as_slice(), found)?;
            add_all(arguments.as_slice(), found)?;
            Ok(())
        }
        Stmt::Next(_, _) => Ok(()),
    }
}

#[cycle(add_statements)]
fn add_block<'a>(block: &'a [Stmt], found: &mut Items<&'a Expr>) -> Result<(), AllocError>
    ensures { OnOk result (lent found.new ≡ lent found.old ++ flat_map expressions_in block.now) }
{
    for statement in block {
        add_statement(statement, found)?;
    }
    Ok(())
}

#[cycle(add_statements)]
fn add_arms<'a>(arms: &'a [Arm<Stmt>], found: &mut Items<&'a Expr>) -> Result<(), AllocError>
    ensures { OnOk result (lent found.new ≡ lent found.old ++ flat_map expressions_in_arm arms.now) }
{
    for arm in arms {
        push(&arm.condition, found)?;
        let block = arm.body.as_slice();
        for statement in block {
            add_statement(statement, found)?;
        }
    }
    Ok(())
}
