//! The walk over a next block.

ghost use Rattle.std.specs.Prelude.{◌≡◌, ◌||◌, false, map, nat_lt, OnOk};
ghost use Rattle.uc_meaning.specs.Lookup.{next_in};
ghost use Rattle.uc_rules.specs.Faults.{breaks_where, first_of};
ghost use Rattle.uc_rules.specs.Names.{names_one_of};
ghost use Rattle.uc_rules.specs.declared.rule.Rule.TheVariants.{SteppedTwice};
ghost use Rattle.uc_type_names.specs.NameSets.{with_name};
ghost use Rattle.uc_order_rules.specs.Stepped.{stepped_twice};
ghost use Rattle.uc_written_once.specs.SteppedOnceWalks.{walk_arm, walk_arms, walk_block, walk_decls, walk_of};

use crate::names::SteppedNames;
use crate::turn_count;
use std::alloc::{AllocError, Global};
use uc_items::Items;
use uc_rules::{Fault, Rule, note_where};
use uc_syntax::{Arm, Decl, Module, Place, Stmt};

/// Notes each statement of a module's next block that steps an instance which a statement before it on some path, or an earlier turn of
/// a loop around it, has stepped.
pub fn note_stepped_twice(
    alloc: Global,
    whole: &Module,
    first: &mut Option<Fault>,
) -> Result<(), AllocError>
    ensures { OnOk result (first.new ≡ first_of first.old (stepped_twice whole.now)) }
{
    let mut seen = SteppedNames::new(alloc);
    note_in_declarations(alloc, whole.decls.as_slice(), &mut seen, first)?;
    Ok(())
}

fn note_in_declarations(
    alloc: Global,
    declarations: &[Decl],
    seen: &mut SteppedNames,
    first: &mut Option<Fault>,
) -> Result<(), AllocError>
    ensures { OnOk result (first.new ≡ first_of first.old (walk_decls declarations.now false seen.old).faults) }
{
    for declaration in declarations {
        note_in_block(alloc, next_in(declaration), false, seen, first)?;
    }
    Ok(())
}

/// Notes a step of an instance that was stepped, and adds its name to those that were seen.
fn note_step(
    place: Place,
    name: u32,
    again: bool,
    seen: &mut SteppedNames,
    first: &mut Option<Fault>,
) -> Result<(), AllocError>
    ensures seen { OnOk result (seen.new ≡ with_name seen.old name) }
    ensures faults { OnOk result (first.new ≡ first_of first.old (breaks_where (again || names_one_of seen.old name) SteppedTwice place)) }
{
    let is_twice = again || seen.contains(name);
    note_where(first, is_twice, Rule::SteppedTwice, place);
    seen.insert(name)?;
    Ok(())
}

/// Whether all that a loop of some turns steps is stepped again.
fn is_turned_again(again: bool, count: u128) -> bool
    ensures { result ≡ (again || nat_lt 1 count) }
{
    again || count > 1
}

fn next_in(declaration: &Decl) -> &[Stmt]
    ensures { result.now ≡ next_in declaration.now }
{
    match declaration {
        Decl::Next(_, block) => block.as_slice(),
        _ => &[],
    }
}

#[cycle(note_steps)]
#[tactic(auto, using(crate::proofs::SteppedOnceForms::local_seen, crate::proofs::SteppedOnceForms::local_faults, crate::proofs::SteppedOnceForms::skip_seen, crate::proofs::SteppedOnceForms::skip_faults, crate::proofs::SteppedOnceForms::asserts_seen, crate::proofs::SteppedOnceForms::asserts_faults, crate::proofs::SteppedOnceForms::assumes_seen, crate::proofs::SteppedOnceForms::assumes_faults, crate::proofs::SteppedOnceForms::havoc_seen, crate::proofs::SteppedOnceForms::havoc_faults, crate::proofs::SteppedOnceForms::assign_seen, crate::proofs::SteppedOnceForms::assign_faults, crate::proofs::SteppedOnceForms::call_seen, crate::proofs::SteppedOnceForms::call_faults))]
fn note_in_statement(
    alloc: Global,
    statement: &Stmt,
    again: bool,
    seen: &mut SteppedNames,
    first: &mut Option<Fault>,
) -> Result<(), AllocError>
    ensures seen { OnOk result (seen.new ≡ (walk_of statement.now again seen.old).seen) }
    ensures faults { OnOk result (first.new ≡ first_of first.old (walk_of statement.now again seen.old).faults) }
{
    match statement {
        Stmt::Block(_, block) => {
            note_in_block(alloc, block.as_slice(), again, seen, first)?;
            Ok(())
        }
        Stmt::If(_, arms, otherwise) => {
            let mut aside = Items::new(alloc);
            note_in_arms(alloc, arms.as_slice(), again, seen, &mut aside, first)?;
            match otherwise {
                None => {
                    seen.insert_all(aside.as_slice())?;
                    Ok(())
                }
                Some(block) => {
                    let start = seen.len();
                    note_in_block(alloc, block.as_slice(), again, seen, first)?;
                    seen.join(start, aside)?;
                    Ok(())
                }
            }
        }
        Stmt::Case(_, arms, otherwise) => {
            let mut aside = Items::new(alloc);
            note_in_arms(alloc, arms.as_slice(), again, seen, &mut aside, first)?;
            match otherwise {
                None => {
                    seen.insert_all(aside.as_slice())?;
                    Ok(())
                }
                Some(block) => {
                    let start = seen.len();
                    note_in_block(alloc, block.as_slice(), again, seen, first)?;
                    seen.join(start, aside)?;
                    Ok(())
                }
            }
        }
        Stmt::For(_, _, _, from, to, body) => {
            let count = turn_count(*from, *to);
            if count > 0 {
                let is_later = is_turned_again(again, count);
                note_in_block(alloc, body.as_slice(), is_later, seen, first)?;
            }
            Ok(())
        }
        Stmt::Next(place, instance) => {
            note_step(*place, instance.name, again, seen, first)?;
            Ok(())
        }
        Stmt::Local(..) => Ok(()),
        Stmt::Skip(_) => Ok(()),
        Stmt::Assert(..) => Ok(()),
        Stmt::Assume(..) => Ok(()),
        Stmt::Havoc(..) => Ok(()),
        Stmt::Assign(..) => Ok(()),
        Stmt::Call(..) => Ok(()),
    }
}

#[cycle(note_steps)]
fn note_in_block(
    alloc: Global,
    block: &[Stmt],
    again: bool,
    seen: &mut SteppedNames,
    first: &mut Option<Fault>,
) -> Result<(), AllocError>
    ensures seen { OnOk result (seen.new ≡ (walk_block block.now again seen.old).seen) }
    ensures faults { OnOk result (first.new ≡ first_of first.old (walk_block block.now again seen.old).faults) }
{
    for statement in block {
        note_in_statement(alloc, statement, again, seen, first)?;
    }
    Ok(())
}

#[cycle(note_steps)]
fn note_in_arms(
    alloc: Global,
    arms: &[Arm<Stmt>],
    again: bool,
    seen: &mut SteppedNames,
    aside: &mut Items<u32>,
    first: &mut Option<Fault>,
) -> Result<(), AllocError>
    ensures seen { OnOk result (seen.new ≡ (walk_arms (map walk_arm arms.now) again seen.old aside.old).seen) }
    ensures aside { OnOk result (aside.new ≡ (walk_arms (map walk_arm arms.now) again seen.old aside.old).aside) }
    ensures faults { OnOk result (first.new ≡ first_of first.old (walk_arms (map walk_arm arms.now) again seen.old aside.old).faults) }
{
    for arm in arms {
        let start = seen.len();
        let block = arm.body.as_slice();
        for statement in block {
            note_in_statement(alloc, statement, again, seen, first)?;
        }
        seen.put_aside(start, aside)?;
    }
    Ok(())
}
