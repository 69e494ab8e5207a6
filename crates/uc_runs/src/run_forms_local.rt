//! Locals that begin and end.

ghost use Rattle.std.specs.Prelude.{◌≡◌, List, IfOk};
ghost use Rattle.uc_values.specs.declared.value.Value.{Value};
ghost use Rattle.uc_meaning.specs.Code.{Goes as goes_on, then_run, in_scope, keep_locals, push_local};
ghost use Rattle.uc_runs.specs.Runs.{Comes, ending_of};

use crate::run::{Ending, Run};
use crate::{keep_locals, push_local};
use std::alloc::{AllocError, Global};
use uc_meaning::Local;

/// The execution with one more local.
pub fn with_local(alloc: Global, run: Run, local: Local) -> Result<Run, AllocError>
    ensures { IfOk result (λ r. Comes run (push_local local.name local.ty local.value) r) }
{
    let Run {
        scope,
        violated,
        used,
    } = run;
    let scope = push_local(alloc, scope, local)?;
    Ok(Run {
        scope,
        violated,
        used,
    })
}

/// How a block ends whose statements end so, where so many locals are older than it.
pub fn ended_block(alloc: Global, older: usize, end: Ending) -> Result<Ending, AllocError>
    ensures { IfOk result (λ e. (choices : List Value) → ending_of choices e ≡ then_run (ending_of choices end) (λ r. goes_on (in_scope r (keep_locals older r.scope)))) }
{
    match end {
        Ending::Goes(run) => {
            let run = with_older(alloc, older, run)?;
            Ok(Ending::Goes(run))
        }
        Ending::Stopped => Ok(Ending::Stopped),
        Ending::BadChoice(number) => Ok(Ending::BadChoice(number)),
    }
}

fn with_older(alloc: Global, older: usize, run: Run) -> Result<Run, AllocError>
    ensures { IfOk result (λ r. Comes run (λ here. in_scope here (keep_locals older here.scope)) r) }
{
    let Run {
        scope,
        violated,
        used,
    } = run;
    let scope = keep_locals(alloc, older, scope)?;
    Ok(Run {
        scope,
        violated,
        used,
    })
}
