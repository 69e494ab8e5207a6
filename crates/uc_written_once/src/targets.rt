//! Variables that are named twice among the targets of one statement.

ghost use Rattle.std.specs.Prelude.{◌≡◌, IfOk, OnOk};
ghost use Rattle.std.specs.List.{flat_map};
ghost use Rattle.uc_rules.specs.Faults.{first_of, breaks_where};
ghost use Rattle.uc_rules.specs.declared.rule.Rule.TheVariants.{TwiceAssigned};
ghost use Rattle.uc_order_rules.specs.Writes.{is_named_twice, sequential_in, target_names, twice_in_code};
ghost use Rattle.uc_written_once.specs.LoneFaultsWalks.{in_arm, named_twice};

use crate::lone_faults_walk::sequential_code_in;
use std::alloc::{AllocError, Global};
use uc_rules::{Fault, Rule, note_where};
use uc_syntax::{Arm, Module, Place, Stmt, Target};
use uc_type_names::NameSet;

/// Notes each assignment and each call in the sequential code of a module that names a variable twice among its targets.
pub fn note_named_twice(
    alloc: Global,
    whole: &Module,
    first: &mut Option<Fault>,
) -> Result<(), AllocError>
    ensures { OnOk result (first.new ≡ first_of first.old (flat_map (λ d. twice_in_code (sequential_in d)) whole.now.decls)) }
{
    for declaration in whole.decls.as_slice() {
        note_in_block(alloc, sequential_code_in(declaration), first)?;
    }
    Ok(())
}

#[cycle(note_targets)]
#[tactic(auto, using(crate::proofs::TargetForms::local, crate::proofs::TargetForms::skip, crate::proofs::TargetForms::asserts, crate::proofs::TargetForms::assumes, crate::proofs::TargetForms::havoc, crate::proofs::TargetForms::next))]
fn note_in_statement(
    alloc: Global,
    statement: &Stmt,
    first: &mut Option<Fault>,
) -> Result<(), AllocError>
    ensures { OnOk result (first.new ≡ first_of first.old (named_twice statement.now)) }
{
    match statement {
        Stmt::Block(_, block) => {
            note_in_block(alloc, block.as_slice(), first)?;
            Ok(())
        }
        Stmt::Assign(place, targets, _) => {
            note_targets(alloc, *place, targets.as_slice(), first)?;
            Ok(())
        }
        Stmt::If(_, arms, otherwise) => {
            note_in_arms(alloc, arms.as_slice(), first)?;
            match otherwise {
                None => Ok(()),
                Some(block) => {
                    note_in_block(alloc, block.as_slice(), first)?;
                    Ok(())
                }
            }
        }
        Stmt::Case(_, arms, otherwise) => {
            note_in_arms(alloc, arms.as_slice(), first)?;
            match otherwise {
                None => Ok(()),
                Some(block) => {
                    note_in_block(alloc, block.as_slice(), first)?;
                    Ok(())
                }
            }
        }
        Stmt::For(_, _, _, _, _, body) => {
            note_in_block(alloc, body.as_slice(), first)?;
            Ok(())
        }
        Stmt::Call(place, targets, _, _) => {
            note_targets(alloc, *place, targets.as_slice(), first)?;
            Ok(())
        }
        Stmt::Local(..) => Ok(()),
        Stmt::Skip(_) => Ok(()),
        Stmt::Assert(..) => Ok(()),
        Stmt::Assume(..) => Ok(()),
        Stmt::Havoc(..) => Ok(()),
        Stmt::Next(..) => Ok(()),
    }
}

#[cycle(note_targets)]
fn note_in_block(alloc: Global, block: &[Stmt], first: &mut Option<Fault>) -> Result<(), AllocError>
    ensures { OnOk result (first.new ≡ first_of first.old (flat_map named_twice block.now)) }
{
    for statement in block {
        note_in_statement(alloc, statement, first)?;
    }
    Ok(())
}

#[cycle(note_targets)]
fn note_in_arms(
    alloc: Global,
    arms: &[Arm<Stmt>],
    first: &mut Option<Fault>,
) -> Result<(), AllocError>
    ensures { OnOk result (first.new ≡ first_of first.old (flat_map (in_arm named_twice) arms.now)) }
{
    for arm in arms {
        let block = arm.body.as_slice();
        for statement in block {
            note_in_statement(alloc, statement, first)?;
        }
    }
    Ok(())
}

fn note_targets(
    alloc: Global,
    place: Place,
    targets: &[Target],
    first: &mut Option<Fault>,
) -> Result<(), AllocError>
    ensures { OnOk result (first.new ≡ first_of first.old (breaks_where (is_named_twice (target_names targets.now)) TwiceAssigned place)) }
{
    let is_twice = is_named_twice(alloc, targets)?;
    note_where(first, is_twice, Rule::TwiceAssigned, place);
    Ok(())
}

#[tactic(auto, using(crate::proofs::Again::again_begin, crate::proofs::Again::again_more, crate::proofs::Again::again_found, crate::proofs::Again::again_end))]
fn is_named_twice(alloc: Global, targets: &[Target]) -> Result<bool, AllocError>
    ensures { IfOk result (λ b. b ≡ is_named_twice (target_names targets.now)) }
{
    let mut seen = NameSet::new(alloc);
    for target in targets {
        if seen.contains(target.name) {
            return Ok(true);
        }
        seen.insert(target.name)?;
    }
    Ok(false)
}
