//! The body of a procedure, behind the choices of its results.

ghost use Rattle.std.specs.Prelude.{◌≡◌, Some, IfOk};
ghost use Rattle.uc_syntax.specs.declared.declaration.Module.{Module};
ghost use Rattle.uc_meaning.specs.Lookup.{module_at};
ghost use Rattle.uc_meaning.specs.Code.{declare, names_with_types, then_run, run as run_code};
ghost use Rattle.uc_meaning.specs.Ends.{IsEnd, begun};
ghost use Rattle.uc_meaning.specs.OverflowsRuns.{run_met, met_after};
ghost use Rattle.uc_operators.specs.Overflows.{first_wide, TellsWide};
ghost use Rattle.uc_runs.specs.Runs.{running, ending_of};
ghost use Rattle.uc_executions.specs.Executions.{body_ending, body_met};

use std::alloc::{AllocError, Global};
use std::slice;
use uc_items::Items;
use uc_layout::Layout;
use uc_meaning::{CodeEnd, Scope};
use uc_operators::EvalError;
use uc_runs::{Ending, Run, code_end, declared, run_each};
use uc_syntax::{Parameter, Procedure, Stmt, TypeExpr};
use uc_values::Value;

/// How many calls stand on one chain at most.
const LONGEST_CHAIN: u32 = 32;

/// How the body of a procedure ends from its entry, where its results begin with the next choices.
pub fn body_end(
    alloc: Global,
    layout: &Layout,
    scope: Scope,
    procedure: &Procedure,
    choices: &[Value],
) -> Result<CodeEnd, EvalError>
    ensures value { IfOk result (λ end. (m : Module) → module_at layout.now scope.path ≡ Some m → IsEnd choices.now end (body_ending layout.now m procedure.now scope choices.now)) }
    ensures wide { (m : Module) → module_at layout.now scope.path ≡ Some m → TellsWide (first_wide (body_met layout.now m procedure.now scope choices.now)) result }
{
    let start = Run {
        scope,
        violated: Items::new(alloc),
        used: 0,
    };
    let begun = with_results(alloc, layout, choices, start, procedure.results.as_slice())?;
    let end = run_behind(alloc, layout, choices, begun, procedure.body.as_slice())?;
    Ok(code_end(choices.len(), end))
}

/// The execution after the results are declared.
fn with_results(
    alloc: Global,
    layout: &Layout,
    choices: &[Value],
    run: Run,
    results: &[Parameter<TypeExpr>],
) -> Result<Ending, AllocError>
    ensures { IfOk result (λ e. (m : Module) → module_at layout.now run.scope.path ≡ Some m → ending_of choices.now e ≡ declare layout.now m (names_with_types results.now) (running choices.now run)) }
{
    let mut here = run;
    for parameter in results {
        let names = slice::from_ref(&parameter.identifier);
        let end = declared(alloc, layout, choices, here, names, &parameter.ty)?;
        match end {
            Ending::Goes(next) => {
                here = next;
            }
            other => {
                return Ok(other);
            }
        }
    }
    Ok(Ending::Goes(here))
}

/// Code behind other code.
fn run_behind(
    alloc: Global,
    layout: &Layout,
    choices: &[Value],
    before: Ending,
    code: &[Stmt],
) -> Result<Ending, EvalError>
    ensures value { IfOk result (λ e. ending_of choices.now e ≡ then_run (ending_of choices.now before) (run_code layout.now code.now)) }
    ensures wide { TellsWide (first_wide (met_after (ending_of choices.now before) (run_met layout.now code.now))) result }
{
    match before {
        Ending::Goes(run) => run_each(alloc, layout, LONGEST_CHAIN, choices, run, code),
        other => Ok(other),
    }
}
