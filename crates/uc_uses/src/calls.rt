//! The walk over code that gives the procedures that it calls.

ghost use Rattle.std.specs.Prelude.{◌≡◌, ◌++◌, IfOk, OnOk};
ghost use Rattle.std.specs.List.{flat_map};
ghost use Rattle.uc_order_rules.specs.Mentions.{calls_in};
ghost use Rattle.uc_uses.specs.Lent.{calls_in_arm};

use std::alloc::{AllocError, Global};
use uc_items::Items;
use uc_syntax::{Arm, Stmt};

/// The names of the procedures that code calls, also in the statements inside its statements.
pub fn calls_in(alloc: Global, code: &[Stmt]) -> Result<Items<u32>, AllocError>
    ensures { IfOk result (λ names. names ≡ flat_map calls_in code.now) }
{
    let mut found = Items::new(alloc);
    add_block(code, &mut found)?;
    Ok(found)
}

#[cycle(add_calls)]
fn add_statement(statement: &Stmt, found: &mut Items<u32>) -> Result<(), AllocError>
    ensures { OnOk result (found.new ≡ found.old ++ calls_in statement.now) }
{
    match statement {
        Stmt::Local(_, _, _) => Ok(()),
        Stmt::Skip(_) => Ok(()),
        Stmt::Block(_, block) => {
            add_block(block.as_slice(), found)?;
            Ok(())
        }
        Stmt::Assert(_, _, _) => Ok(()),
        Stmt::Assume(_, _) => Ok(()),
        Stmt::Havoc(_, _, _) => Ok(()),
        Stmt::Assign(_, _, _) => Ok(()),
        Stmt::If(_, arms, otherwise) => {
            add_arms(arms.as_slice(), found)?;
            match otherwise {
                None => Ok(()),
                Some(block) => {
                    add_block(block.as_slice(), found)?;
                    Ok(())
                }
            }
        }
        Stmt::Case(_, arms, otherwise) => {
            add_arms(arms.as_slice(), found)?;
            match otherwise {
                None => Ok(()),
                Some(block) => {
                    add_block(block.as_slice(), found)?;
                    Ok(())
                }
            }
        }
        Stmt::For(_, _, _, _, _, body) => {
            add_block(body.as_slice(), found)?;
            Ok(())
        }
        Stmt::Call(_, _, procedure, _) => {
            found.push(procedure.name)?;
            Ok(())
        }
        Stmt::Next(_, _) => Ok(()),
    }
}

#[cycle(add_calls)]
fn add_block(block: &[Stmt], found: &mut Items<u32>) -> Result<(), AllocError>
    ensures { OnOk result (found.new ≡ found.old ++ flat_map calls_in block.now) }
{
    for statement in block {
        add_statement(statement, found)?;
    }
    Ok(())
}

#[cycle(add_calls)]
fn add_arms(arms: &[Arm<Stmt>], found: &mut Items<u32>) -> Result<(), AllocError>
    ensures { OnOk result (found.new ≡ found.old ++ flat_map calls_in_arm arms.now) }
{
    for arm in arms {
        let block = arm.body.as_slice();
        for statement in block {
            add_statement(statement, found)?;
        }
    }
    Ok(())
}
