//! All init code, from where an execution is.

ghost use Rattle.std.specs.Prelude.{◌≡◌, map, IfOk};
ghost use Rattle.uc_meaning.specs.Lookup.{init_in, init_of};
ghost use Rattle.uc_meaning.specs.Expressions.{at_path};
ghost use Rattle.uc_meaning.specs.Code.{run as run_code, then_run};
ghost use Rattle.uc_meaning.specs.Steps.{init, init_from};
ghost use Rattle.uc_meaning.specs.OverflowsRuns.{run_met, met_after};
ghost use Rattle.uc_meaning.specs.Checks.{init_met, init_met_from};
ghost use Rattle.uc_operators.specs.Overflows.{first_wide, TellsWide};
ghost use Rattle.uc_runs.specs.Runs.{running, ending_of, Comes};
ghost use Rattle.uc_layout.specs.Instances.{instance_meant};
ghost use Rattle.uc_executions.specs.Starts.{inits, inits_met, own_init, own_init_met, goes_to};

use std::alloc::{AllocError, Global};
use uc_items::Items;
use uc_layout::{InstanceRef, Layout, instances_below, main_instance};
use uc_meaning::{Path, Scope};
use uc_operators::EvalError;
use uc_runs::{Ending, Run, run_each};
use uc_syntax::{Decl, Module, Stmt};
use uc_values::Value;

/// How many modules stand on one chain of instances at most, and how many calls.
const LONGEST_CHAIN: u32 = 32;

/// All init code: that of main and of the instances below it.
pub(crate) fn run_init(
    alloc: Global,
    layout: &Layout,
    choices: &[Value],
    run: Run,
) -> Result<Ending, EvalError>
    ensures value { IfOk result (λ e. ending_of choices.now e ≡ init layout.now (running choices.now run)) }
    ensures wide { TellsWide (first_wide (init_met layout.now (running choices.now run))) result }
{
    match layout.system().main_module() {
        Some(code) => {
            let here = main_instance(alloc, code);
            init_from(alloc, layout, LONGEST_CHAIN, choices, run, &here)
        }
        None => Ok(Ending::Goes(run)),
    }
}

/// The init code of an instance, behind that of the instances inside it, on chains of at most so many modules.
#[cycle(init)]
fn init_from<'a>(
    alloc: Global,
    layout: &'a Layout,
    below: u32,
    choices: &[Value],
    run: Run,
    here: &InstanceRef<'a>,
) -> Result<Ending, EvalError>
    ensures value { IfOk result (λ e. ending_of choices.now e ≡ init_from below layout.now (instance_meant here.now) (running choices.now run)) }
    ensures wide { TellsWide (first_wide (init_met_from below layout.now (instance_meant here.now) (running choices.now run))) result }
{
    if below == 0 {
        return Ok(Ending::Stopped);
    }
    let inside = instances_below(alloc, &layout.system(), here)?;
    let end = init_each(alloc, layout, below - 1, choices, run, inside.as_slice())?;
    init_own(alloc, layout, choices, end, here)
}

/// The init code of instances, one after another.
#[cycle(init)]
fn init_each<'a>(
    alloc: Global,
    layout: &'a Layout,
    below: u32,
    choices: &[Value],
    run: Run,
    instances: &[InstanceRef<'a>],
) -> Result<Ending, EvalError>
    ensures value { IfOk result (λ e. ending_of choices.now e ≡ inits below layout.now (map instance_meant instances.now) (running choices.now run)) }
    ensures wide { TellsWide (first_wide (inits_met below layout.now (map instance_meant instances.now) (running choices.now run))) result }
{
    let mut here = run;
    for instance in instances {
        let end = init_from(alloc, layout, below, choices, here, instance)?;
        match end {
            Ending::Goes(next) => {
                here = next;
            }
            other => {
                return Ok(other);
            }
        }
    }
    Ok(Ending::Goes(here))
}

/// The init code of an instance itself, behind other code.
fn init_own(
    alloc: Global,
    layout: &Layout,
    choices: &[Value],
    before: Ending,
    here: &InstanceRef<'_>,
) -> Result<Ending, EvalError>
    ensures value { IfOk result (λ e. ending_of choices.now e ≡ then_run (ending_of choices.now before) (own_init layout.now (instance_meant here.now))) }
    ensures wide { TellsWide (first_wide (met_after (ending_of choices.now before) (own_init_met layout.now (instance_meant here.now)))) result }
{
    match before {
        Ending::Goes(run) => {
            let run = at_instance(alloc, run, here)?;
            run_blocks(alloc, layout, choices, run, here.code)
        }
        other => Ok(other),
    }
}

/// The same place in the scope of an instance.
fn at_instance(alloc: Global, run: Run, here: &InstanceRef<'_>) -> Result<Run, AllocError>
    ensures { IfOk result (λ r. Comes run (goes_to here.now.path) r) }
{
    let path = Path::from_slice(alloc, here.path.as_slice())?;
    let Run {
        scope,
        violated,
        used,
    } = run;
    Ok(Run {
        scope: at_path(alloc, scope, path),
        violated,
        used,
    })
}

/// A scope at another path, with no locals.
fn at_path(alloc: Global, scope: Scope, path: Path) -> Scope
    ensures { result ≡ at_path scope path }
{
    let Scope {
        path: _,
        before,
        after,
        at_entry,
        copies,
        locals: _,
        interp,
    } = scope;
    Scope {
        path,
        before,
        after,
        at_entry,
        copies,
        locals: Items::new(alloc),
        interp,
    }
}

/// The init block of a module.
fn run_blocks(
    alloc: Global,
    layout: &Layout,
    choices: &[Value],
    run: Run,
    code: &Module,
) -> Result<Ending, EvalError>
    ensures value { IfOk result (λ e. ending_of choices.now e ≡ run_code layout.now (init_of code.now) (running choices.now run)) }
    ensures wide { TellsWide (first_wide (run_met layout.now (init_of code.now) (running choices.now run))) result }
{
    let mut here = run;
    for decl in code.decls.as_slice() {
        let block = init_block(decl);
        let end = run_each(alloc, layout, LONGEST_CHAIN, choices, here, block)?;
        match end {
            Ending::Goes(next) => {
                here = next;
            }
            other => {
                return Ok(other);
            }
        }
    }
    Ok(Ending::Goes(here))
}

/// The init block that a declaration is, and no code for another declaration.
fn init_block(decl: &Decl) -> &[Stmt]
    ensures { result.now ≡ init_in decl.now }
{
    match decl {
        Decl::Init(_, block) => block.as_slice(),
        _ => &[],
    }
}
