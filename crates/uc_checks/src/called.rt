//! Calls as constraints: they run from the old state.

ghost use Rattle.std.specs.Prelude.{◌≡◌, ◌++◌, IfOk};
ghost use Rattle.uc_meaning.specs.Code.{run, call};
ghost use Rattle.uc_meaning.specs.Steps.{running, check_call};
ghost use Rattle.uc_meaning.specs.OverflowsRuns.{run_met, met_after, call_met};
ghost use Rattle.uc_meaning.specs.Checks.{call_left_met};
ghost use Rattle.uc_operators.specs.Overflows.{first_wide, TellsWide};
ghost use Rattle.uc_readings.specs.Scopes.{scope_in};
ghost use Rattle.uc_checks.specs.Watches.{watched, check_of};

use crate::{Seen, left_by_call, whole_scope};
use std::alloc::Global;
use uc_items::beside;
use uc_layout::Layout;
use uc_operators::EvalError;
use uc_readings::ScopeRef;
use uc_runs::{Run, run_call};
use uc_syntax::{Expr, Place, Target};
use uc_values::Value;

/// How many calls stand on one chain at most, the first included.
const LONGEST_CALL: u32 = 33;

/// What a call asks: that it ends, and that the new state has what it leaves.
pub(crate) fn check_call(
    alloc: Global,
    layout: &Layout,
    scope: &ScopeRef<'_>,
    choices: &[Value],
    seen: Seen,
    place: Place,
    targets: &[Target],
    name: u32,
    arguments: &[Expr],
) -> Result<Option<Seen>, EvalError>
    ensures value { IfOk result (λ o. check_of (scope_in scope.now) choices.now o ≡ check_call layout.now targets.now name (watched (scope_in scope.now) choices.now seen) (call layout.now (run layout.now) place targets.now name arguments.now (running (watched (scope_in scope.now) choices.now seen)))) }
    ensures wide { TellsWide (first_wide (call_met layout.now (run layout.now) (run_met layout.now) place targets.now name arguments.now (running (watched (scope_in scope.now) choices.now seen)) ++ met_after (call layout.now (run layout.now) place targets.now name arguments.now (running (watched (scope_in scope.now) choices.now seen))) (call_left_met layout.now targets.now name (watched (scope_in scope.now) choices.now seen)))) result }
{
    let before = whole_scope(alloc, scope)?;
    let Seen {
        written,
        violated,
        used,
    } = seen;
    let start = Run {
        scope: before,
        violated,
        used,
    };
    let ended = run_call(
        alloc,
        layout,
        LONGEST_CALL,
        choices,
        start,
        place,
        targets,
        name,
        arguments,
    );
    let (written, ended) = beside(written, ended)?;
    left_by_call(alloc, layout, scope, written, ended, targets, name)
}
