//! The walk over a next block.

ghost use Rattle.std.specs.Prelude.{◌≡◌, ◌∷◌, [], ◌++◌, length, IfOk, OnOk};
ghost use Rattle.std.specs.List.{flat_map};
ghost use Rattle.uc_meaning.specs.Lookup.{next_in};
ghost use Rattle.uc_order_rules.specs.Mentions.{target_indices};
ghost use Rattle.uc_order_rules.specs.Writes.{target_names};
ghost use Rattle.uc_step_cycles.specs.Acts.{AreActs, primed_names};
ghost use Rattle.uc_step_cycles.specs.Procedures.{modified_by};
ghost use Rattle.uc_step_cycles.specs.Walks.{Adds, AddsArms, code_piece, statement_piece};

use crate::acts::{Act, Acts, Context, Writing};
use crate::names::{names_of_targets, primed_in, primed_in_all};
use crate::procedures::Procedures;
use std::alloc::{AllocError, Global};
use uc_items::{Items, beside};
use uc_syntax::{Arm, Decl, Expr, Module, Place, Stmt, Target};
use uc_written_once::turn_count;

/// What a module's next block does: its statements that may write and its steps of instances, in the order of the text, each with the
/// conditions around it. A loop without turns does nothing.
pub fn acts_of(alloc: Global, whole: &Module) -> Result<Acts, AllocError>
    ensures { IfOk result (λ acts. AreActs whole.now acts) }
{
    let declarations = whole.decls.as_slice();
    let procedures = Procedures::of(alloc, declarations)?;
    let mut acts = Acts::new(alloc);
    add_declarations(alloc, declarations, &procedures, &mut acts)?;
    Ok(acts)
}

fn add_declarations(
    alloc: Global,
    declarations: &[Decl],
    procedures: &Procedures<'_>,
    acts: &mut Acts,
) -> Result<(), AllocError>
    ensures { OnOk result (Adds procedures.now.named acts.old acts.new 0 (λ s. code_piece s (flat_map next_in declarations.now))) }
{
    for declaration in declarations {
        add_code(alloc, next_in(declaration), 0, procedures, acts)?;
    }
    Ok(())
}

fn next_in(declaration: &Decl) -> &[Stmt]
    ensures { result.now ≡ next_in declaration.now }
{
    match declaration {
        Decl::Next(_, block) => block.as_slice(),
        _ => &[],
    }
}

/// Adds a statement that writes one name and reads nothing.
fn add_havoc(
    alloc: Global,
    place: Place,
    name: u32,
    around: usize,
    acts: &mut Acts,
) -> Result<(), AllocError>
    ensures contexts { OnOk result (acts.new.contexts ≡ acts.old.contexts) }
    ensures acts { OnOk result (acts.new.acts ≡ acts.old.acts ++ Act.Writes (record { place = place; written = name ∷ []; reads = []; around = around }) ∷ []) }
{
    let mut written = Items::new(alloc);
    written.push(name)?;
    let reads = Items::new(alloc);
    acts.push(Act::Writes(Writing {
        place,
        written,
        reads,
        around,
    }))?;
    Ok(())
}

fn add_assignment(
    alloc: Global,
    place: Place,
    targets: &[Target],
    sources: &[Expr],
    around: usize,
    acts: &mut Acts,
) -> Result<(), AllocError>
    ensures contexts { OnOk result (acts.new.contexts ≡ acts.old.contexts) }
    ensures acts { OnOk result (acts.new.acts ≡ acts.old.acts ++ Act.Writes (record { place = place; written = target_names targets.now; reads = primed_names (target_indices targets.now ++ sources.now); around = around }) ∷ []) }
{
    let written = names_of_targets(alloc, targets)?;
    let (written, reads) = beside(written, primed_in_all(alloc, targets, sources))?;
    acts.push(Act::Writes(Writing {
        place,
        written,
        reads,
        around,
    }))?;
    Ok(())
}

/// Adds a call: it writes its targets and what the procedure modifies.
fn add_call(
    alloc: Global,
    place: Place,
    targets: &[Target],
    procedure: u32,
    arguments: &[Expr],
    around: usize,
    procedures: &Procedures<'_>,
    acts: &mut Acts,
) -> Result<(), AllocError>
    ensures contexts { OnOk result (acts.new.contexts ≡ acts.old.contexts) }
    ensures acts { OnOk result (acts.new.acts ≡ acts.old.acts ++ Act.Writes (record { place = place; written = target_names targets.now ++ modified_by procedures.now.named procedure; reads = primed_names (target_indices targets.now ++ arguments.now); around = around }) ∷ []) }
{
    let mut written = names_of_targets(alloc, targets)?;
    procedures.add_modified(procedure, &mut written)?;
    let (written, reads) = beside(written, primed_in_all(alloc, targets, arguments))?;
    acts.push(Act::Writes(Writing {
        place,
        written,
        reads,
        around,
    }))?;
    Ok(())
}

/// Enters the condition of an arm, and gives its number.
fn enter_condition(
    alloc: Global,
    condition: &Expr,
    around: usize,
    acts: &mut Acts,
) -> Result<usize, AllocError>
    ensures number { IfOk result (λ n. n ≡ length acts.new.contexts) }
    ensures contexts { OnOk result (acts.new.contexts ≡ acts.old.contexts ++ record { reads = primed_names (condition.now ∷ []); around = around } ∷ []) }
    ensures acts { OnOk result (acts.new.acts ≡ acts.old.acts) }
{
    let reads = primed_in(alloc, condition)?;
    let number = acts.enter(Context { reads, around })?;
    Ok(number)
}

#[cycle(add_code)]
fn add_code(
    alloc: Global,
    code: &[Stmt],
    around: usize,
    procedures: &Procedures<'_>,
    acts: &mut Acts,
) -> Result<(), AllocError>
    ensures { OnOk result (Adds procedures.now.named acts.old acts.new around (λ s. code_piece s code.now)) }
{
    for statement in code {
        add_statement(alloc, statement, around, procedures, acts)?;
    }
    Ok(())
}

#[cycle(add_code)]
fn add_statement(
    alloc: Global,
    statement: &Stmt,
    around: usize,
    procedures: &Procedures<'_>,
    acts: &mut Acts,
) -> Result<(), AllocError>
    ensures { OnOk result (Adds procedures.now.named acts.old acts.new around (λ s. statement_piece s statement.now)) }
{
    match statement {
        Stmt::Local(..) => Ok(()),
        Stmt::Skip(_) => Ok(()),
        Stmt::Assert(..) => Ok(()),
        Stmt::Assume(..) => Ok(()),
        Stmt::Block(_, block) => {
            add_code(alloc, block.as_slice(), around, procedures, acts)?;
            Ok(())
        }
        Stmt::Havoc(place, identifier, _) => {
            add_havoc(alloc, *place, identifier.name, around, acts)?;
            Ok(())
        }
        Stmt::Assign(place, targets, sources) => {
            let targets = targets.as_slice();
            add_assignment(alloc, *place, targets, sources.as_slice(), around, acts)?;
            Ok(())
        }
        Stmt::If(_, arms, otherwise) => {
            let last = add_arms(alloc, arms.as_slice(), around, procedures, acts)?;
            match otherwise {
                None => Ok(()),
                Some(block) => {
                    add_code(alloc, block.as_slice(), last, procedures, acts)?;
                    Ok(())
                }
            }
        }
        Stmt::Case(_, arms, otherwise) => {
            let last = add_arms(alloc, arms.as_slice(), around, procedures, acts)?;
            match otherwise {
                None => Ok(()),
                Some(block) => {
                    add_code(alloc, block.as_slice(), last, procedures, acts)?;
                    Ok(())
                }
            }
        }
        Stmt::For(_, _, _, from, to, body) => {
            if turn_count(*from, *to) == 0 {
                return Ok(());
            }
            add_code(alloc, body.as_slice(), around, procedures, acts)?;
            Ok(())
        }
        Stmt::Call(place, targets, identifier, arguments) => {
            let targets = targets.as_slice();
            let arguments = arguments.as_slice();
            add_call(
                alloc,
                *place,
                targets,
                identifier.name,
                arguments,
                around,
                procedures,
                acts,
            )?;
            Ok(())
        }
        Stmt::Next(_, identifier) => {
            acts.push(Act::Steps(identifier.name, around))?;
            Ok(())
        }
    }
}

/// Adds the blocks of arms, each in its condition and those of the arms before it, and gives the number of the last condition.
#[cycle(add_code)]
fn add_arms(
    alloc: Global,
    arms: &[Arm<Stmt>],
    around: usize,
    procedures: &Procedures<'_>,
    acts: &mut Acts,
) -> Result<usize, AllocError>
    ensures { IfOk result (λ last. AddsArms procedures.now.named acts.old acts.new around last arms.now) }
{
    let mut last = around;
    for arm in arms {
        last = enter_condition(alloc, &arm.condition, last, acts)?;
        let block = arm.body.as_slice();
        for statement in block {
            add_statement(alloc, statement, last, procedures, acts)?;
        }
    }
    Ok(last)
}
