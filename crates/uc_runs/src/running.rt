//! Code that runs from where an execution is.

ghost use Rattle.std.specs.Prelude.{◌≡◌, ◌++◌, Some, IfOk};
ghost use Rattle.uc_meaning.specs.Code.{taken, call, call_in, run_through, then_run, push_local};
ghost use Rattle.uc_meaning.specs.OverflowsRuns.{conditions_met, call_met, call_met_in, run_met_through, met_after};
ghost use Rattle.uc_operators.specs.Overflows.{first_wide, TellsWide};
ghost use Rattle.uc_runs.specs.Levels.{run_at, run_met_at, one_at, one_met_at, turns_at, turns_met_at};
ghost use Rattle.uc_runs.specs.Runs.{running, ending_of};
ghost use Rattle.uc_runs.specs.Turns.{block_at, turn_at};

use crate::runs_turns::{turn_local, turns_between};
use crate::{
    Ending, Entry, Run, assigned, assumed, declared, ended_block, entered, havoc, judged, returned,
    taken, with_local,
};
use std::alloc::Global;
use uc_items::{Items, beside};
use uc_layout::Layout;
use uc_lookup::procedure_of;
use uc_meaning::Local;
use uc_operators::EvalError;
use uc_syntax::{Arm, Expr, Module, Place, Procedure, Stmt, Target};
use uc_values::{Ty, Value};

/// Code, where procedures call each other through at most so many further calls.
#[cycle(run)]
pub fn run_each(
    alloc: Global,
    layout: &Layout,
    below: u32,
    choices: &[Value],
    run: Run,
    code: &[Stmt],
) -> Result<Ending, EvalError>
    ensures value { IfOk result (λ e. ending_of choices.now e ≡ run_at below layout.now code.now (running choices.now run)) }
    ensures wide { TellsWide (first_wide (run_met_at below layout.now code.now (running choices.now run))) result }
{
    let mut here = run;
    for statement in code {
        let end = run_one(alloc, layout, below, choices, here, statement)?;
        match end {
            Ending::Goes(next) => {
                here = next;
            }
            other => {
                return Ok(other);
            }
        }
    }
    Ok(Ending::Goes(here))
}

/// One statement.
#[cycle(run)]
fn run_one(
    alloc: Global,
    layout: &Layout,
    below: u32,
    choices: &[Value],
    run: Run,
    statement: &Stmt,
) -> Result<Ending, EvalError>
    ensures value { IfOk result (λ e. ending_of choices.now e ≡ one_at below layout.now statement.now (running choices.now run)) }
    ensures wide { TellsWide (first_wide (one_met_at below layout.now statement.now (running choices.now run))) result }
{
    match statement {
        Stmt::Local(_, names, ty) => {
            Ok(declared(alloc, layout, choices, run, names.as_slice(), ty)?)
        }
        Stmt::Skip(_) => Ok(Ending::Goes(run)),
        Stmt::Block(_, block) => run_block(alloc, layout, below, choices, run, block.as_slice()),
        Stmt::Assert(place, _, formula) => {
            let run = judged(alloc, layout, run, *place, 0, formula)?;
            Ok(Ending::Goes(run))
        }
        Stmt::Assume(_, formula) => assumed(alloc, layout, run, formula),
        Stmt::Havoc(_, name, _) => Ok(havoc(alloc, layout, choices, run, name.name)?),
        Stmt::Assign(_, targets, sources) => {
            let run = assigned(alloc, layout, run, targets.as_slice(), sources.as_slice())?;
            Ok(Ending::Goes(run))
        }
        Stmt::If(_, arms, otherwise) => {
            let arms = arms.as_slice();
            run_taken(alloc, layout, below, choices, run, arms, otherwise)
        }
        Stmt::Case(_, arms, otherwise) => {
            let arms = arms.as_slice();
            run_taken(alloc, layout, below, choices, run, arms, otherwise)
        }
        Stmt::For(_, variable, _, from, to, block) => {
            let turns = turns_between(alloc, *from, *to)?;
            run_turns(
                alloc,
                layout,
                below,
                choices,
                run,
                variable.name,
                &turns.ty,
                turns.values.as_slice(),
                block.as_slice(),
            )
        }
        Stmt::Call(place, targets, procedure, arguments) => run_call(
            alloc,
            layout,
            below,
            choices,
            run,
            *place,
            targets.as_slice(),
            procedure.name,
            arguments.as_slice(),
        ),
        Stmt::Next(_, _) => Ok(Ending::Stopped),
    }
}

/// A block, whose locals end with it.
#[cycle(run)]
fn run_block(
    alloc: Global,
    layout: &Layout,
    below: u32,
    choices: &[Value],
    run: Run,
    block: &[Stmt],
) -> Result<Ending, EvalError>
    ensures value { IfOk result (λ e. ending_of choices.now e ≡ block_at below layout.now block.now (running choices.now run)) }
    ensures wide { TellsWide (first_wide (run_met_at below layout.now block.now (running choices.now run))) result }
{
    let older = run.scope.locals.len();
    let end = run_each(alloc, layout, below, choices, run, block)?;
    let end = ended_block(alloc, older, end)?;
    Ok(end)
}

/// A conditional: the block of the first arm whose condition is true, else that of `else`, else nothing.
#[cycle(run)]
fn run_taken(
    alloc: Global,
    layout: &Layout,
    below: u32,
    choices: &[Value],
    run: Run,
    arms: &[Arm<Stmt>],
    otherwise: &Option<Items<Stmt>>,
) -> Result<Ending, EvalError>
    ensures value { IfOk result (λ e. ending_of choices.now e ≡ block_at below layout.now (taken layout.now run.scope arms.now otherwise.now) (running choices.now run)) }
    ensures wide { TellsWide (first_wide (conditions_met layout.now run.scope arms.now ++ run_met_at below layout.now (taken layout.now run.scope arms.now otherwise.now) (running choices.now run))) result }
{
    let block = taken(alloc, layout, &run.scope, arms, otherwise)?;
    run_block(alloc, layout, below, choices, run, block)
}

/// A loop, by the type and the values of its variable.
#[cycle(run)]
fn run_turns(
    alloc: Global,
    layout: &Layout,
    below: u32,
    choices: &[Value],
    run: Run,
    variable: u32,
    ty: &Ty,
    values: &[Value],
    block: &[Stmt],
) -> Result<Ending, EvalError>
    ensures value { IfOk result (λ e. ending_of choices.now e ≡ turns_at below layout.now variable ty.now block.now values.now (running choices.now run)) }
    ensures wide { TellsWide (first_wide (turns_met_at below layout.now variable ty.now block.now values.now (running choices.now run))) result }
{
    let mut here = run;
    for value in values {
        let local = turn_local(alloc, variable, ty, value)?;
        let end = run_turn(alloc, layout, below, choices, here, local, block)?;
        match end {
            Ending::Goes(next) => {
                here = next;
            }
            other => {
                return Ok(other);
            }
        }
    }
    Ok(Ending::Goes(here))
}

/// A turn of a loop, whose locals end with it.
#[cycle(run)]
fn run_turn(
    alloc: Global,
    layout: &Layout,
    below: u32,
    choices: &[Value],
    run: Run,
    local: Local,
    block: &[Stmt],
) -> Result<Ending, EvalError>
    ensures value { IfOk result (λ e. ending_of choices.now e ≡ turn_at below layout.now local.name local.ty block.now local.value (running choices.now run)) }
    ensures wide { TellsWide (first_wide (run_met_at below layout.now block.now (push_local local.name local.ty local.value (running choices.now run)))) result }
{
    let older = run.scope.locals.len();
    let inside = with_local(alloc, run, local)?;
    let end = run_each(alloc, layout, below, choices, inside, block)?;
    let end = ended_block(alloc, older, end)?;
    Ok(end)
}

/// A call. A procedure that is not there stops the code.
#[cycle(run)]
pub fn run_call(
    alloc: Global,
    layout: &Layout,
    below: u32,
    choices: &[Value],
    run: Run,
    place: Place,
    targets: &[Target],
    name: u32,
    arguments: &[Expr],
) -> Result<Ending, EvalError>
    ensures value { IfOk result (λ e. ending_of choices.now e ≡ call layout.now (run_through below layout.now) place targets.now name arguments.now (running choices.now run)) }
    ensures wide { TellsWide (first_wide (call_met layout.now (run_through below layout.now) (run_met_through below layout.now) place targets.now name arguments.now (running choices.now run))) result }
{
    match layout.system().module_at(run.scope.path.as_slice()) {
        Some(code) => match procedure_of(code.decls.as_slice(), name) {
            Some(procedure) => run_procedure(
                alloc, layout, below, choices, run, place, targets, code, procedure, arguments,
            ),
            None => Ok(Ending::Stopped),
        },
        None => Ok(Ending::Stopped),
    }
}

/// A call of a procedure of a module.
#[cycle(run)]
fn run_procedure(
    alloc: Global,
    layout: &Layout,
    below: u32,
    choices: &[Value],
    run: Run,
    place: Place,
    targets: &[Target],
    code: &Module,
    procedure: &Procedure,
    arguments: &[Expr],
) -> Result<Ending, EvalError>
    ensures value { IfOk result (λ e. ending_of choices.now e ≡ call_in layout.now (run_through below layout.now) place targets.now arguments.now code.now (Some procedure.now) (running choices.now run)) }
    ensures wide { TellsWide (first_wide (call_met_in layout.now (run_through below layout.now) (run_met_through below layout.now) place targets.now arguments.now code.now (Some procedure.now) (running choices.now run))) result }
{
    let entry = entered(
        alloc, layout, choices, run, place, code, procedure, arguments,
    )?;
    let Entry { begun, caller } = entry;
    let body = procedure.body.as_slice();
    let ended = run_body(alloc, layout, below, choices, begun, body);
    let (caller, ended) = beside(caller, ended)?;
    let results = procedure.results.as_slice();
    returned(alloc, layout, caller, ended, targets, results)
}

/// The body of a procedure, from where its call has come.
#[cycle(run)]
fn run_body(
    alloc: Global,
    layout: &Layout,
    below: u32,
    choices: &[Value],
    begun: Ending,
    body: &[Stmt],
) -> Result<Ending, EvalError>
    ensures value { IfOk result (λ e. ending_of choices.now e ≡ then_run (ending_of choices.now begun) (run_through below layout.now body.now)) }
    ensures wide { TellsWide (first_wide (met_after (ending_of choices.now begun) (run_met_through below layout.now body.now))) result }
{
    match begun {
        Ending::Goes(run) => {
            if below == 0 {
                return Ok(Ending::Stopped);
            }
            run_each(alloc, layout, below - 1, choices, run, body)
        }
        other => Ok(other),
    }
}
