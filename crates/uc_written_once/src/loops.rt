//! Loops with too many turns, and enums with too many labels.

ghost use Rattle.std.specs.Prelude.{◌≡◌, OnOk};
ghost use Rattle.std.specs.List.{flat_map};
ghost use Rattle.uc_rules.specs.Faults.{first_of};
ghost use Rattle.uc_order_rules.specs.Sizes.{label_faults, turn_faults};
ghost use Rattle.uc_written_once.specs.LoneFaultsWalks.{in_arm, long_loops, too_many_labels};

use crate::lone_faults_walk::all_code_in;
use crate::turns::turn_count;
use std::alloc::{AllocError, Global};
use uc_rules::{Fault, Rule, note_where};
use uc_syntax::{Arm, Module, Stmt};
use uc_type_names::{WrittenEnum, enums_of};

/// The most turns that a loop may have.
const MOST_TURNS: u128 = 4096;

/// The most labels that an enum may have.
const MOST_LABELS: usize = 4096;

/// Notes each loop of a module with too many turns, at its word. It takes no memory.
pub fn note_long_loops(whole: &Module, first: &mut Option<Fault>)
    ensures { first.new ≡ first_of first.old (turn_faults whole.now) }
{
    for declaration in whole.decls.as_slice() {
        note_in_block(all_code_in(declaration), first);
    }
}

#[cycle(note_loops)]
#[tactic(auto, using(crate::proofs::LoopForms::local, crate::proofs::LoopForms::skip, crate::proofs::LoopForms::asserts, crate::proofs::LoopForms::assumes, crate::proofs::LoopForms::havoc, crate::proofs::LoopForms::assign, crate::proofs::LoopForms::call, crate::proofs::LoopForms::next))]
fn note_in_statement(statement: &Stmt, first: &mut Option<Fault>)
    ensures { first.new ≡ first_of first.old (long_loops statement.now) }
{
    match statement {
        Stmt::Block(_, block) => note_in_block(block.as_slice(), first),
        Stmt::If(_, arms, otherwise) => {
            note_in_arms(arms.as_slice(), first);
            match otherwise {
                None => {}
                Some(block) => note_in_block(block.as_slice(), first),
            }
        }
        Stmt::Case(_, arms, otherwise) => {
            note_in_arms(arms.as_slice(), first);
            match otherwise {
                None => {}
                Some(block) => note_in_block(block.as_slice(), first),
            }
        }
        Stmt::For(place, _, _, from, to, body) => {
            let is_long = MOST_TURNS < turn_count(*from, *to);
            note_where(first, is_long, Rule::TooLarge, *place);
            note_in_block(body.as_slice(), first);
        }
        Stmt::Local(..) => {}
        Stmt::Skip(_) => {}
        Stmt::Assert(..) => {}
        Stmt::Assume(..) => {}
        Stmt::Havoc(..) => {}
        Stmt::Assign(..) => {}
        Stmt::Call(..) => {}
        Stmt::Next(..) => {}
    }
}

#[cycle(note_loops)]
#[tactic(auto, using(crate::proofs::Noted::noted_end))]
fn note_in_block(block: &[Stmt], first: &mut Option<Fault>)
    ensures { first.new ≡ first_of first.old (flat_map long_loops block.now) }
{
    for statement in block {
        note_in_statement(statement, first);
    }
}

#[cycle(note_loops)]
#[tactic(auto, using(crate::proofs::Noted::noted_end))]
fn note_in_arms(arms: &[Arm<Stmt>], first: &mut Option<Fault>)
    ensures { first.new ≡ first_of first.old (flat_map (in_arm long_loops) arms.now) }
{
    for arm in arms {
        let block = arm.body.as_slice();
        for statement in block {
            note_in_statement(statement, first);
        }
    }
}

/// Notes each enum of a module with too many labels, at its word.
pub fn note_large_enums(
    alloc: Global,
    whole: &Module,
    first: &mut Option<Fault>,
) -> Result<(), AllocError>
    ensures { OnOk result (first.new ≡ first_of first.old (label_faults whole.now)) }
{
    let enums = enums_of(alloc, whole)?;
    for written in enums.as_slice() {
        note_enum(written, first);
    }
    Ok(())
}

fn note_enum(written: &WrittenEnum, first: &mut Option<Fault>)
    ensures { first.new ≡ first_of first.old (too_many_labels written.now) }
{
    let is_large = MOST_LABELS < written.labels.len();
    note_where(first, is_large, Rule::TooLarge, written.place);
}
