//! The walk over code.

ghost use Rattle.std.specs.Prelude.{◌≡◌, ◌++◌, [], take, drop, map, slice_get, Some, IfOk};
ghost use Rattle.uc_flat_code.specs.Code.{each_arm};
ghost use Rattle.uc_meaning.specs.Steps.{fields_before, is_prefix};
ghost use Rattle.uc_flat_code.specs.Once.{overlaps, touched, writes_part, writer_of, target_writer, writer};
ghost use Rattle.uc_flat_code.specs.FlatOnceWalk.{after_one, each_after, arms_only, beside};

use crate::reads::{with_conditions, with_reads, with_sources};
use std::alloc::{AllocError, Global};
use uc_flat_expressions::Meant;
use uc_items::{Items, at};
use uc_syntax::{Arm, Stmt, Target, TargetPart};

/// A part of a cell: the cell's number, and the names of the fields down to the part.
#[derive(Drop)]
pub struct Part {
    pub cell: u32,
    pub fields: Items<u32>,
}

/// The parts that a statement writes, and the cells of the new state that it reads, where these are the cells with numbers from `first` on;
/// or nothing, where a way through it writes a part that overlaps one that it wrote or read before.
#[tactic(auto, using(crate::proofs::After::alone_told))]
pub fn statement_parts(
    alloc: Global,
    names: &[Meant],
    first: u32,
    statement: &Stmt,
) -> Result<Option<Items<Part>>, AllocError>
    ensures { IfOk result (λ o. o ≡ writer names.now first statement.now []) }
{
    after_statement(alloc, names, first, statement, Items::new(alloc))
}

/// The parts that were written or read before, and those that code writes or reads, unless one is written again.
#[cycle(after_code)]
#[tactic(auto, unfolding(crate::specs::FlatOnceWalk::each_after))]
fn after_code(
    alloc: Global,
    names: &[Meant],
    first: u32,
    code: &[Stmt],
    before: Items<Part>,
) -> Result<Option<Items<Part>>, AllocError>
    ensures { IfOk result (λ o. o ≡ each_after (map (writer names.now first) code.now) before) }
{
    let mut now = before;
    for statement in code {
        match after_statement(alloc, names, first, statement, now)? {
            Some(more) => now = more,
            None => return Ok(None),
        }
    }
    Ok(Some(now))
}

#[cycle(after_code)]
#[tactic(auto, using(crate::proofs::After::block_told, crate::proofs::After::havoc_told, crate::proofs::After::assign_told, crate::proofs::After::if_none, crate::proofs::After::if_alone, crate::proofs::After::if_else_none, crate::proofs::After::if_else, crate::proofs::After::case_none, crate::proofs::After::case_alone, crate::proofs::After::case_else_none, crate::proofs::After::case_else, crate::proofs::After::local_told, crate::proofs::After::skip_told, crate::proofs::After::assert_told, crate::proofs::After::assume_told, crate::proofs::After::for_told, crate::proofs::After::call_told, crate::proofs::After::next_told))]
fn after_statement(
    alloc: Global,
    names: &[Meant],
    first: u32,
    statement: &Stmt,
    before: Items<Part>,
) -> Result<Option<Items<Part>>, AllocError>
    ensures { IfOk result (λ o. o ≡ after_one (writer names.now first statement.now) before) }
{
    match statement {
        Stmt::Block(_, block) => after_code(alloc, names, first, block.as_slice(), before),
        Stmt::Assume(_, e) => {
            let read = with_reads(alloc, names, first, e, before)?;
            Ok(Some(read))
        }
        Stmt::Havoc(_, name, _) => after_name(names, name.name, Items::new(alloc), before),
        Stmt::Assign(_, targets, sources) => {
            let read = with_sources(alloc, names, first, sources.as_slice(), before)?;
            after_targets(alloc, names, targets.as_slice(), read)
        }
        Stmt::If(_, arms, otherwise) => {
            let read = with_conditions(alloc, names, first, arms.as_slice(), before)?;
            let start = read.len();
            let Some((now, found)) = after_arms(alloc, names, first, arms.as_slice(), read)? else {
                return Ok(None);
            };
            match otherwise {
                None => joined(alloc, now, start, found),
                Some(block) => {
                    let Some(after) = after_code(alloc, names, first, block.as_slice(), now)? else {
                        return Ok(None);
                    };
                    joined(alloc, after, start, found)
                }
            }
        }
        Stmt::Case(_, arms, otherwise) => {
            let read = with_conditions(alloc, names, first, arms.as_slice(), before)?;
            let start = read.len();
            let Some((now, found)) = after_arms(alloc, names, first, arms.as_slice(), read)? else {
                return Ok(None);
            };
            match otherwise {
                None => joined(alloc, now, start, found),
                Some(block) => {
                    let Some(after) = after_code(alloc, names, first, block.as_slice(), now)? else {
                        return Ok(None);
                    };
                    joined(alloc, after, start, found)
                }
            }
        }
        Stmt::Local(..) => Ok(Some(before)),
        Stmt::Skip(_) => Ok(Some(before)),
        Stmt::Assert(..) => Ok(Some(before)),
        Stmt::For(..) => Ok(Some(before)),
        Stmt::Call(..) => Ok(Some(before)),
        Stmt::Next(..) => Ok(Some(before)),
    }
}

/// The parts from before again, and those that any of the arms writes.
#[cycle(after_code)]
#[tactic(auto, unfolding(crate::specs::FlatOnceWalk::each_after))]
fn after_arms(
    alloc: Global,
    names: &[Meant],
    first: u32,
    arms: &[Arm<Stmt>],
    before: Items<Part>,
) -> Result<Option<(Items<Part>, Items<Part>)>, AllocError>
    ensures { IfOk result (λ o. o ≡ beside before (arms_only (map (each_arm (writer names.now first)) arms.now) before)) }
{
    let start = before.len();
    let mut now = before;
    let mut found = Items::new(alloc);
    for arm in arms {
        let block = arm.body.as_slice();
        for statement in block {
            match after_statement(alloc, names, first, statement, now)? {
                Some(more) => now = more,
                None => return Ok(None),
            }
        }
        let (front, more) = split(alloc, now, start)?;
        now = front;
        found.append(more)?;
    }
    Ok(Some((now, found)))
}

/// The parts with those of the arms before the ones behind the first, so many.
fn joined(
    alloc: Global,
    after: Items<Part>,
    start: usize,
    found: Items<Part>,
) -> Result<Option<Items<Part>>, AllocError>
    ensures { IfOk result (λ o. o ≡ Some ((take start after ++ found) ++ drop start after)) }
{
    let (mut all, more) = split(alloc, after, start)?;
    all.append(found)?;
    all.append(more)?;
    Ok(Some(all))
}

/// The first parts, so many, and those behind them.
#[tactic(auto, using(crate::proofs::After::take_all, crate::proofs::After::drop_none))]
fn split(
    alloc: Global,
    parts: Items<Part>,
    count: usize,
) -> Result<(Items<Part>, Items<Part>), AllocError>
    ensures { IfOk result (λ both. (both.0 ≡ take count parts) × (both.1 ≡ drop count parts)) }
{
    let mut front = parts.into_vec();
    if front.len() < count {
        return Ok((Items::from_vec(front), Items::new(alloc)));
    }
    let behind = front.split_off(count)?;
    Ok((Items::from_vec(front), Items::from_vec(behind)))
}

/// The parts after each target is written.
#[tactic(auto, unfolding(crate::specs::FlatOnceWalk::each_after))]
fn after_targets(
    alloc: Global,
    names: &[Meant],
    targets: &[Target],
    before: Items<Part>,
) -> Result<Option<Items<Part>>, AllocError>
    ensures { IfOk result (λ o. o ≡ each_after (map (target_writer names.now) targets.now) before) }
{
    let mut now = before;
    for target in targets {
        let fields = fields_before(alloc, target.parts.as_slice())?;
        match after_name(names, target.name, fields, now)? {
            Some(more) => now = more,
            None => return Ok(None),
        }
    }
    Ok(Some(now))
}

/// The names of the fields up to the first index.
#[tactic(auto, unfolding(uc_meaning::specs::Steps::fields_before))]
pub(crate) fn fields_before(alloc: Global, parts: &[TargetPart]) -> Result<Items<u32>, AllocError>
    ensures { IfOk result (λ fields. fields ≡ fields_before parts.now) }
{
    let mut fields = Items::new(alloc);
    for part in parts {
        let TargetPart::Field(_, name) = part else {
            return Ok(fields);
        };
        fields.push(name.name)?;
    }
    Ok(fields)
}

/// The parts after a part of the cell that a name stands for is written.
fn after_name(
    names: &[Meant],
    name: u32,
    fields: Items<u32>,
    before: Items<Part>,
) -> Result<Option<Items<Part>>, AllocError>
    ensures { IfOk result (λ o. o ≡ after_one (writer_of (slice_get names.now name) fields) before) }
{
    match at(names, name as usize) {
        Some(Meant::Cell(cell, _, _)) => {
            let cell = *cell;
            after_part(Part { cell, fields }, before)
        }
        _ => Ok(Some(before)),
    }
}

fn after_part(part: Part, before: Items<Part>) -> Result<Option<Items<Part>>, AllocError>
    ensures { IfOk result (λ o. o ≡ after_one (writes_part part) before) }
{
    if touched(before.as_slice(), &part) {
        return Ok(None);
    }
    let mut all = before;
    all.push(part)?;
    Ok(Some(all))
}

/// Whether a part overlaps one of these.
#[tactic(auto, unfolding(crate::specs::Once::touched))]
pub fn touched(parts: &[Part], part: &Part) -> bool
    ensures { result ≡ touched parts.now part.now }
{
    for one in parts {
        if overlaps(one, part) {
            return true;
        }
    }
    false
}

fn overlaps(one: &Part, other: &Part) -> bool
    ensures { result ≡ overlaps one.now other.now }
{
    let (fields, others) = (one.fields.as_slice(), other.fields.as_slice());
    one.cell == other.cell && (is_prefix(fields, others) || is_prefix(others, fields))
}

/// Whether a list begins with another.
#[tactic(auto, unfolding(uc_meaning::specs::Steps::is_prefix))]
fn is_prefix(front: &[u32], whole: &[u32]) -> bool
    ensures { result ≡ is_prefix front.now whole.now }
{
    let Some((first, front)) = front.split_first() else {
        return true;
    };
    let Some((own, whole)) = whole.split_first() else {
        return false;
    };
    *first == *own && is_prefix(front, whole)
}
