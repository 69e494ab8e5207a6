//! The walk over code.

ghost use Rattle.std.specs.Prelude.{◌≡◌, IfOk, OnOk};
ghost use Rattle.std.specs.List.{flat_map};
ghost use Rattle.uc_order_rules.specs.Mentions.{part_index, target_indices};
ghost use Rattle.uc_sizes.specs.Pieces.{Adds, AreOf, arms_amount, code_amount, expressions_amount, statement_amount};

use crate::pieces::{Piece, Repeated, push, times_of};
use std::alloc::{AllocError, Global};
use uc_items::Items;
use uc_syntax::{Arm, Expr, Stmt, Target, TargetPart};
use uc_written_once::turn_count;

/// The pieces of code that is run through once.
pub fn pieces_of<'a>(alloc: Global, code: &'a [Stmt]) -> Result<Items<Repeated<'a>>, AllocError>
    ensures { IfOk result (λ ps. AreOf ps code.now) }
{
    let mut pieces = Items::new(alloc);
    add_code(code, 1, &mut pieces)?;
    Ok(pieces)
}

#[cycle(add_code)]
fn add_code<'a>(
    code: &'a [Stmt],
    times: u64,
    pieces: &mut Items<Repeated<'a>>,
) -> Result<(), AllocError>
    ensures { OnOk result (Adds pieces.old pieces.new times (λ c. code_amount c code.now)) }
{
    for statement in code {
        add_statement(statement, times, pieces)?;
    }
    Ok(())
}

#[cycle(add_code)]
fn add_statement<'a>(
    statement: &'a Stmt,
    times: u64,
    pieces: &mut Items<Repeated<'a>>,
) -> Result<(), AllocError>
    ensures { OnOk result (Adds pieces.old pieces.new times (λ c. statement_amount c statement.now)) }
{
    push(times, Piece::Statement, pieces)?;
    match statement {
        Stmt::Local(..) => Ok(()),
        Stmt::Skip(_) => Ok(()),
        Stmt::Havoc(..) => Ok(()),
        Stmt::Block(_, block) => add_code(block.as_slice(), times, pieces),
        Stmt::Assert(_, _, formula) => push(times, Piece::Expression(formula), pieces),
        Stmt::Assume(_, formula) => push(times, Piece::Expression(formula), pieces),
        Stmt::Assign(_, targets, sources) => {
            add_indices(targets.as_slice(), times, pieces)?;
            add_expressions(sources.as_slice(), times, pieces)
        }
        Stmt::If(_, arms, otherwise) => {
            add_arms(arms.as_slice(), times, pieces)?;
            match otherwise {
                None => Ok(()),
                Some(block) => add_code(block.as_slice(), times, pieces),
            }
        }
        Stmt::Case(_, arms, otherwise) => {
            add_arms(arms.as_slice(), times, pieces)?;
            match otherwise {
                None => Ok(()),
                Some(block) => add_code(block.as_slice(), times, pieces),
            }
        }
        Stmt::For(_, _, _, from, to, body) => {
            let turns = turn_count(*from, *to);
            add_code(body.as_slice(), times_of(times, turns), pieces)
        }
        Stmt::Call(_, targets, identifier, arguments) => {
            add_indices(targets.as_slice(), times, pieces)?;
            add_expressions(arguments.as_slice(), times, pieces)?;
            push(times, Piece::Call(identifier.name), pieces)
        }
        Stmt::Next(_, identifier) => push(times, Piece::Step(identifier.name), pieces),
    }
}

#[cycle(add_code)]
fn add_arms<'a>(
    arms: &'a [Arm<Stmt>],
    times: u64,
    pieces: &mut Items<Repeated<'a>>,
) -> Result<(), AllocError>
    ensures { OnOk result (Adds pieces.old pieces.new times (arms_amount arms.now)) }
{
    for arm in arms {
        push(times, Piece::Expression(&arm.condition), pieces)?;
        let block = arm.body.as_slice();
        for statement in block {
            add_statement(statement, times, pieces)?;
        }
    }
    Ok(())
}

fn add_expressions<'a>(
    expressions: &'a [Expr],
    times: u64,
    pieces: &mut Items<Repeated<'a>>,
) -> Result<(), AllocError>
    ensures { OnOk result (Adds pieces.old pieces.new times (expressions_amount expressions.now)) }
{
    for expression in expressions {
        push(times, Piece::Expression(expression), pieces)?;
    }
    Ok(())
}

/// Adds the indices in targets.
fn add_indices<'a>(
    targets: &'a [Target],
    times: u64,
    pieces: &mut Items<Repeated<'a>>,
) -> Result<(), AllocError>
    ensures { OnOk result (Adds pieces.old pieces.new times (expressions_amount (target_indices targets.now))) }
{
    for target in targets {
        add_part_indices(target.parts.as_slice(), times, pieces)?;
    }
    Ok(())
}

fn add_part_indices<'a>(
    parts: &'a [TargetPart],
    times: u64,
    pieces: &mut Items<Repeated<'a>>,
) -> Result<(), AllocError>
    ensures { OnOk result (Adds pieces.old pieces.new times (expressions_amount (flat_map part_index parts.now))) }
{
    for part in parts {
        match part {
            TargetPart::Field(..) => {}
            TargetPart::Element(_, index) => push(times, Piece::Expression(index), pieces)?,
        }
    }
    Ok(())
}
