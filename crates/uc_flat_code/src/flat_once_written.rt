//! The parts that statements write, whatever they read.

ghost use Rattle.std.specs.Prelude.{◌≡◌, ◌++◌, map, slice_get, IfOk};
ghost use Rattle.std.specs.List.{flat_map};
ghost use Rattle.uc_meaning.specs.Code.{else_block};
ghost use Rattle.uc_flat_code.specs.Written.{parts_of, target_parts, arm_parts, written_parts};

use crate::once::{Part, fields_before};
use std::alloc::{AllocError, Global};
use uc_flat_expressions::Meant;
use uc_items::{Items, at};
use uc_syntax::{Arm, Stmt, Target};

/// The parts that a statement writes on any way.
#[tactic(auto, using(crate::proofs::Adding::parts_alone))]
pub fn written_parts(
    alloc: Global,
    names: &[Meant],
    statement: &Stmt,
) -> Result<Items<Part>, AllocError>
    ensures { IfOk result (λ parts. parts ≡ written_parts names.now statement.now) }
{
    with_statement(alloc, names, statement, Items::new(alloc))
}

/// The parts, and behind them those that a statement writes.
#[cycle(with_statement)]
#[tactic(auto, using(crate::proofs::Adding::block_adds, crate::proofs::Adding::havoc_adds, crate::proofs::Adding::assign_adds, crate::proofs::Adding::if_adds, crate::proofs::Adding::case_adds, crate::proofs::Adding::local_adds, crate::proofs::Adding::skip_adds, crate::proofs::Adding::assert_adds, crate::proofs::Adding::assume_adds, crate::proofs::Adding::for_adds, crate::proofs::Adding::call_adds, crate::proofs::Adding::next_adds))]
fn with_statement(
    alloc: Global,
    names: &[Meant],
    statement: &Stmt,
    before: Items<Part>,
) -> Result<Items<Part>, AllocError>
    ensures { IfOk result (λ all. all ≡ before ++ written_parts names.now statement.now) }
{
    match statement {
        Stmt::Block(_, block) => with_code(alloc, names, block.as_slice(), before),
        Stmt::Havoc(_, name, _) => with_name(names, name.name, Items::new(alloc), before),
        Stmt::Assign(_, targets, _) => with_targets(alloc, names, targets.as_slice(), before),
        Stmt::If(_, arms, otherwise) => {
            let found = with_arms(alloc, names, arms.as_slice(), before)?;
            with_else(alloc, names, otherwise, found)
        }
        Stmt::Case(_, arms, otherwise) => {
            let found = with_arms(alloc, names, arms.as_slice(), before)?;
            with_else(alloc, names, otherwise, found)
        }
        Stmt::Local(..) => Ok(before),
        Stmt::Skip(_) => Ok(before),
        Stmt::Assert(..) => Ok(before),
        Stmt::Assume(..) => Ok(before),
        Stmt::For(..) => Ok(before),
        Stmt::Call(..) => Ok(before),
        Stmt::Next(..) => Ok(before),
    }
}

#[cycle(with_statement)]
#[tactic(auto, using(uc_syntax::proofs::Added::added_begin, uc_syntax::proofs::Added::added_more, uc_syntax::proofs::Added::added_end))]
fn with_code(
    alloc: Global,
    names: &[Meant],
    code: &[Stmt],
    before: Items<Part>,
) -> Result<Items<Part>, AllocError>
    ensures { IfOk result (λ all. all ≡ before ++ flat_map (written_parts names.now) code.now) }
{
    let mut all = before;
    for statement in code {
        all = with_statement(alloc, names, statement, all)?;
    }
    Ok(all)
}

/// The parts, and behind them those that any arm writes.
#[cycle(with_statement)]
#[tactic(auto, using(uc_syntax::proofs::Added::added_begin, uc_syntax::proofs::Added::added_more, uc_syntax::proofs::Added::added_end))]
fn with_arms(
    alloc: Global,
    names: &[Meant],
    arms: &[Arm<Stmt>],
    before: Items<Part>,
) -> Result<Items<Part>, AllocError>
    ensures { IfOk result (λ all. all ≡ before ++ flat_map (arm_parts (written_parts names.now)) arms.now) }
{
    let mut all = before;
    for arm in arms {
        all = with_code(alloc, names, arm.body.as_slice(), all)?;
    }
    Ok(all)
}

/// The parts, and behind them those of what is run where no condition is true.
#[cycle(with_statement)]
#[tactic(auto, using(crate::proofs::Adding::no_else))]
fn with_else(
    alloc: Global,
    names: &[Meant],
    otherwise: &Option<Items<Stmt>>,
    before: Items<Part>,
) -> Result<Items<Part>, AllocError>
    ensures { IfOk result (λ all. all ≡ before ++ flat_map (written_parts names.now) (else_block otherwise.now)) }
{
    match otherwise {
        None => Ok(before),
        Some(block) => with_code(alloc, names, block.as_slice(), before),
    }
}

#[tactic(auto, using(uc_syntax::proofs::Added::added_begin, uc_syntax::proofs::Added::added_more, uc_syntax::proofs::Added::added_end))]
fn with_targets(
    alloc: Global,
    names: &[Meant],
    targets: &[Target],
    before: Items<Part>,
) -> Result<Items<Part>, AllocError>
    ensures { IfOk result (λ all. all ≡ before ++ flat_map (target_parts names.now) targets.now) }
{
    let mut all = before;
    for target in targets {
        let fields = fields_before(alloc, target.parts.as_slice())?;
        all = with_name(names, target.name, fields, all)?;
    }
    Ok(all)
}

/// The parts, and behind them the part of the cell that a name stands for.
fn with_name(
    names: &[Meant],
    name: u32,
    fields: Items<u32>,
    before: Items<Part>,
) -> Result<Items<Part>, AllocError>
    ensures { IfOk result (λ all. all ≡ before ++ parts_of (slice_get names.now name) fields) }
{
    match at(names, name as usize) {
        Some(Meant::Cell(cell, _, _)) => {
            let cell = *cell;
            let mut all = before;
            all.push(Part { cell, fields })?;
            Ok(all)
        }
        _ => Ok(before),
    }
}
