//! The walk over init code.

ghost use Rattle.std.specs.Prelude.{◌≡◌, ◌+◌, ◌++◌, [], map, length, IfOk, OnOk};
ghost use Rattle.std.specs.Option.{option_map};
ghost use Rattle.uc_flat_expressions.specs.Answers.{IsAnswer};
ghost use Rattle.uc_flat_code.specs.Code.{each_arm, joined_arms};
ghost use Rattle.uc_flat_code.specs.CellTypes.{cell_type_of};
ghost use Rattle.uc_flat_code.specs.Init.{making_of, in_order, in_block, arm_by, arm_made, arms_made, else_of, joined, init_code};
ghost use Rattle.uc_flat_code.specs.FlatInitWalk.{with_names, IsWalked, undone};

use crate::assigning::assign;
use crate::flat_init_holding::{built_where, one};
use crate::flat_init_simple::{assumed, chosen_again};
use crate::locals::{Shadowed, copy_names, declare, undo};
use crate::made::{MadeArms, MadeCode, behind};
use crate::types::cell_type_of;
use crate::{FlatArm, joined_arms};
use std::alloc::{AllocError, Global};
use uc_flat::Expression;
use uc_flat_expressions::{FlatError, Meant, flat_expression, is_boolean};
use uc_items::{Items, beside};
use uc_syntax::{Arm, Module, Stmt};
use uc_type_reader::Tables;

/// The code over cells that does what init code of a module does, where names stand for what is listed by their numbers, with what its
/// further cells begin with, whose numbers are from `first` on: one for each local, and one for each source of an assignment of several
/// targets. Not built are assertions, loops, calls and steps of instances, assignments of elements, what breaks a rule of types, locals of
/// types that cells may not have, and expressions that are not built.
pub fn init_code(
    alloc: Global,
    tables: &Tables,
    code: &Module,
    names: &[Meant],
    first: u32,
    block: &[Stmt],
) -> Result<MadeCode, FlatError>
    ensures { IsAnswer (init_code (cell_type_of tables.now code.now) names.now first block.now) result }
{
    let mut names = copy_names(alloc, names)?;
    let mut shadowed = Items::new(alloc);
    walk(alloc, tables, code, &mut names, &mut shadowed, first, block)
}

/// The code over cells that does what one statement of init code does, with what its further cells begin with, whose numbers are from `first`
/// on. It may change what names stand for.
pub fn statement_code(
    alloc: Global,
    tables: &Tables,
    code: &Module,
    names: &mut Items<Meant>,
    first: u32,
    statement: &Stmt,
) -> Result<MadeCode, FlatError>
    ensures { IsWalked (making_of (cell_type_of tables.now code.now) statement.now names.old first) names.new result }
{
    let mut shadowed = Items::new(alloc);
    walk_statement(alloc, tables, code, names, &mut shadowed, first, statement)
}

/// Statements one after another.
#[cycle(walk)]
fn walk(
    alloc: Global,
    tables: &Tables,
    code: &Module,
    names: &mut Items<Meant>,
    shadowed: &mut Items<Shadowed>,
    first: u32,
    block: &[Stmt],
) -> Result<MadeCode, FlatError>
    ensures made { IsWalked (in_order (map (making_of (cell_type_of tables.now code.now)) block.now) names.old first) names.new result }
    ensures undone { OnOk result (undone shadowed.new names.new ≡ undone shadowed.old names.old) }
{
    let mut all = MadeCode::alone(alloc, Items::new(alloc));
    for statement in block {
        let next = behind(first, all.further.len());
        let (held, next) = beside(all, next)?;
        let more = walk_statement(alloc, tables, code, names, shadowed, next, statement);
        let (held, more) = beside(held, more)?;
        all = held.append(more)?;
    }
    Ok(all)
}

#[cycle(walk)]
#[tactic(auto, using(crate::proofs::FlatInitForms::local_made, crate::proofs::FlatInitForms::skip_made, crate::proofs::FlatInitForms::block_answer, crate::proofs::FlatInitForms::assume_answer, crate::proofs::FlatInitForms::assert_none, crate::proofs::FlatInitForms::for_none, crate::proofs::FlatInitForms::call_none, crate::proofs::FlatInitForms::next_none))]
fn walk_statement(
    alloc: Global,
    tables: &Tables,
    code: &Module,
    names: &mut Items<Meant>,
    shadowed: &mut Items<Shadowed>,
    first: u32,
    statement: &Stmt,
) -> Result<MadeCode, FlatError>
    ensures made { IsWalked (making_of (cell_type_of tables.now code.now) statement.now names.old first) names.new result }
    ensures undone { OnOk result (undone shadowed.new names.new ≡ undone shadowed.old names.old) }
{
    match statement {
        Stmt::Local(_, identifiers, ty) => {
            let ty = cell_type_of(alloc, tables, code, ty)?;
            let made = declare(alloc, names, shadowed, first, &ty, identifiers.as_slice())?;
            Ok(made)
        }
        Stmt::Skip(_) => Ok(MadeCode::alone(alloc, Items::new(alloc))),
        Stmt::Block(_, block) => walk_block(alloc, tables, code, names, first, block.as_slice()),
        Stmt::Assume(_, condition) => assumed(alloc, names.as_slice(), condition),
        Stmt::Havoc(_, name, primed) => chosen_again(alloc, names.as_slice(), name.name, *primed),
        Stmt::Assign(_, targets, sources) => {
            let targets = targets.as_slice();
            assign(alloc, names.as_slice(), first, targets, sources.as_slice())
        }
        Stmt::If(_, arms, otherwise) => {
            let arms = walk_arms(alloc, tables, code, names, first, arms.as_slice())?;
            walk_behind(alloc, tables, code, names, first, arms, otherwise)
        }
        Stmt::Case(_, arms, otherwise) => {
            let arms = walk_arms(alloc, tables, code, names, first, arms.as_slice())?;
            walk_behind(alloc, tables, code, names, first, arms, otherwise)
        }
        Stmt::Assert(..) => Err(FlatError::NotBuilt),
        Stmt::For(..) => Err(FlatError::NotBuilt),
        Stmt::Call(..) => Err(FlatError::NotBuilt),
        Stmt::Next(..) => Err(FlatError::NotBuilt),
    }
}

/// Statements whose locals end with them.
#[cycle(walk)]
fn walk_block(
    alloc: Global,
    tables: &Tables,
    code: &Module,
    names: &mut Items<Meant>,
    first: u32,
    block: &[Stmt],
) -> Result<MadeCode, FlatError>
    ensures made { IsWalked (in_block (map (making_of (cell_type_of tables.now code.now)) block.now) names.old first) names.new result }
    ensures kept { OnOk result (names.new ≡ names.old) }
{
    let mut shadowed = Items::new(alloc);
    let made = walk(alloc, tables, code, names, &mut shadowed, first, block);
    let (shadowed, made) = beside(shadowed, made)?;
    undo(names, shadowed);
    Ok(made)
}

/// The arms of a conditional, and what stands behind them.
#[cycle(walk)]
fn walk_behind(
    alloc: Global,
    tables: &Tables,
    code: &Module,
    names: &mut Items<Meant>,
    first: u32,
    arms: MadeArms,
    otherwise: &Option<Items<Stmt>>,
) -> Result<MadeCode, FlatError>
    ensures made { IsWalked (option_map (joined arms) (else_of (option_map (map (making_of (cell_type_of tables.now code.now))) otherwise.now) names.old (first + length arms.further))) names.new result }
    ensures kept { OnOk result (names.new ≡ names.old) }
{
    let next = behind(first, arms.further.len());
    let (arms, next) = beside(arms, next)?;
    let rest = walk_else(alloc, tables, code, names, next, otherwise);
    let (arms, rest) = beside(arms, rest)?;
    let code = joined(alloc, arms, rest)?;
    Ok(code)
}

#[cycle(walk)]
fn walk_else(
    alloc: Global,
    tables: &Tables,
    code: &Module,
    names: &mut Items<Meant>,
    first: u32,
    otherwise: &Option<Items<Stmt>>,
) -> Result<MadeCode, FlatError>
    ensures made { IsWalked (else_of (option_map (map (making_of (cell_type_of tables.now code.now))) otherwise.now) names.old first) names.new result }
    ensures kept { OnOk result (names.new ≡ names.old) }
{
    match otherwise {
        None => Ok(MadeCode::alone(alloc, Items::new(alloc))),
        Some(block) => walk_block(alloc, tables, code, names, first, block.as_slice()),
    }
}

#[cycle(walk)]
fn walk_arms(
    alloc: Global,
    tables: &Tables,
    code: &Module,
    names: &mut Items<Meant>,
    first: u32,
    arms: &[Arm<Stmt>],
) -> Result<MadeArms, FlatError>
    ensures made { IsAnswer (arms_made names.old first (map (each_arm (making_of (cell_type_of tables.now code.now))) arms.now)) result }
    ensures kept { OnOk result (names.new ≡ names.old) }
{
    let mut all = MadeArms::new(alloc);
    for arm in arms {
        let next = behind(first, all.further.len());
        let (held, next) = beside(all, next)?;
        let more = walk_arm(alloc, tables, code, names, next, arm);
        let (held, more) = beside(held, more)?;
        all = held.append(more)?;
    }
    Ok(all)
}

/// One arm.
#[cycle(walk)]
fn walk_arm(
    alloc: Global,
    tables: &Tables,
    code: &Module,
    names: &mut Items<Meant>,
    first: u32,
    arm: &Arm<Stmt>,
) -> Result<MadeArms, FlatError>
    ensures made { IsAnswer (arm_made names.old first (each_arm (making_of (cell_type_of tables.now code.now)) arm.now)) result }
    ensures kept { OnOk result (names.new ≡ names.old) }
{
    let test = flat_expression(alloc, names.as_slice(), &arm.condition)?;
    let test = built_where(is_boolean(&test.ty), test)?;
    let body = walk_block(alloc, tables, code, names, first, arm.body.as_slice());
    let (test, body) = beside(test, body)?;
    let arm = arm_by(alloc, test.expression, body)?;
    Ok(arm)
}

/// An arm by its condition and its code.
fn arm_by(alloc: Global, condition: Expression, body: MadeCode) -> Result<MadeArms, AllocError>
    ensures { IfOk result (λ a. a ≡ arm_by condition (with_names body [])) }
{
    let MadeCode { code, further } = body;
    let arm = FlatArm {
        condition,
        body: code,
    };
    let (further, arms) = beside(further, one(alloc, arm))?;
    Ok(MadeArms { arms, further })
}

/// The code of the first arm whose condition is true, and other code where none is.
fn joined(alloc: Global, arms: MadeArms, rest: MadeCode) -> Result<MadeCode, AllocError>
    ensures { IfOk result (λ a. a ≡ record { code = joined_arms arms.arms rest.code; further = arms.further ++ rest.further }) }
{
    let MadeArms { arms, further } = arms;
    let MadeCode {
        code,
        further: more,
    } = rest;
    let further = both(further, more);
    let ((arms, code), further) = beside((arms, code), further)?;
    let (further, code) = beside(further, joined_arms(alloc, arms, code))?;
    Ok(MadeCode { code, further })
}

fn both(
    first: Items<Expression>,
    second: Items<Expression>,
) -> Result<Items<Expression>, AllocError>
    ensures { IfOk result (λ all. all ≡ first ++ second) }
{
    let mut all = first;
    all.append(second)?;
    Ok(all)
}
