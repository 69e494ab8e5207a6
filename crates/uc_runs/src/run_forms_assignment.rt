//! Assignments.

ghost use Rattle.std.specs.Prelude.{◌++◌, map, IfOk};
ghost use Rattle.uc_meaning.specs.Expressions.{value};
ghost use Rattle.uc_meaning.specs.Code.{in_scope, write_all};
ghost use Rattle.uc_meaning.specs.OverflowsRuns.{all_met_in, targets_met};
ghost use Rattle.uc_operators.specs.Overflows.{first_wide, TellsWide};
ghost use Rattle.uc_runs.specs.Runs.{Comes};

use crate::assign;
use crate::run::Run;
use std::alloc::Global;
use uc_layout::Layout;
use uc_operators::EvalError;
use uc_syntax::{Expr, Target};

/// The execution after an assignment.
pub fn assigned(
    alloc: Global,
    layout: &Layout,
    run: Run,
    targets: &[Target],
    sources: &[Expr],
) -> Result<Run, EvalError>
    ensures value { IfOk result (λ r. Comes run (λ here. in_scope here (write_all layout.now targets.now (map (value layout.now here.scope) sources.now) here.scope)) r) }
    ensures wide { TellsWide (first_wide (all_met_in layout.now run.scope sources.now ++ targets_met layout.now targets.now (map (value layout.now run.scope) sources.now) run.scope)) result }
{
    let Run {
        scope,
        violated,
        used,
    } = run;
    let scope = assign(alloc, layout, scope, targets, sources)?;
    Ok(Run {
        scope,
        violated,
        used,
    })
}
