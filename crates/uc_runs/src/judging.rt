//! Formulas that are assumed or judged.

ghost use Rattle.std.specs.Prelude.{◌≡◌, ◌+◌, if◌then◌else◌, IfOk};
ghost use Rattle.std.specs.List.{filter_map, flat_map};
ghost use Rattle.uc_meaning.specs.Expressions.{is_true};
ghost use Rattle.uc_meaning.specs.Overflow.{met};
ghost use Rattle.uc_meaning.specs.Code.{Goes as goes_on, Stopped as is_stopped, site_unless, requires_in, judge_requires};
ghost use Rattle.uc_meaning.specs.OverflowsRuns.{all_met_in};
ghost use Rattle.uc_operators.specs.Overflows.{first_wide, TellsWide};
ghost use Rattle.uc_runs.specs.Runs.{Comes, Ends};

use crate::list_site;
use crate::run::{Ending, Run};
use std::alloc::{AllocError, Global};
use uc_evaluator::is_true;
use uc_layout::Layout;
use uc_meaning::{Path, Scope, Site};
use uc_operators::EvalError;
use uc_readings::ScopeRef;
use uc_syntax::{Clause, Expr, Place};

/// The execution after a formula is judged, which is a site where it is false.
pub fn judged(
    alloc: Global,
    layout: &Layout,
    run: Run,
    place: Place,
    number: u32,
    formula: &Expr,
) -> Result<Run, EvalError>
    ensures value { IfOk result (λ r. Comes run (site_unless (is_true layout.now run.scope formula.now) place number) r) }
    ensures wide { TellsWide (first_wide (met layout.now run.scope formula.now)) result }
{
    let holds = holds(alloc, layout, &run.scope, formula)?;
    let run = listed(alloc, run, holds, place, number)?;
    Ok(run)
}

/// The execution after an `assume`.
pub fn assumed(
    alloc: Global,
    layout: &Layout,
    run: Run,
    formula: &Expr,
) -> Result<Ending, EvalError>
    ensures value { IfOk result (λ e. Ends run (λ r. if is_true layout.now r.scope formula.now then goes_on r else is_stopped) e) }
    ensures wide { TellsWide (first_wide (met layout.now run.scope formula.now)) result }
{
    let holds = holds(alloc, layout, &run.scope, formula)?;
    if holds {
        Ok(Ending::Goes(run))
    } else {
        Ok(Ending::Stopped)
    }
}

/// The execution after each `requires` of a procedure is judged, numbered from 1. A number past 32 bits is want of memory.
pub(crate) fn judge_requires(
    alloc: Global,
    layout: &Layout,
    run: Run,
    place: Place,
    clauses: &[Clause],
) -> Result<Run, EvalError>
    ensures value { IfOk result (λ r. Comes run (judge_requires layout.now place 1 (filter_map requires_in clauses.now)) r) }
    ensures wide { TellsWide (first_wide (all_met_in layout.now run.scope (filter_map requires_in clauses.now))) result }
{
    let mut here = run;
    let mut number: u32 = 1;
    for clause in clauses {
        if let Clause::Requires(_, formula) = clause {
            let next = judged(alloc, layout, here, place, number, formula)?;
            here = next;
            number = after(number)?;
        }
    }
    Ok(here)
}

fn after(number: u32) -> Result<u32, AllocError>
    ensures { IfOk result (λ n. n ≡ number + 1) }
{
    number.checked_add(1).ok_or(AllocError)
}

/// Whether a formula is true in a scope.
pub(crate) fn holds(
    alloc: Global,
    layout: &Layout,
    scope: &Scope,
    formula: &Expr,
) -> Result<bool, EvalError>
    ensures value { IfOk result (λ b. b ≡ is_true layout.now scope.now formula.now) }
    ensures wide { TellsWide (first_wide (met layout.now scope.now formula.now)) result }
{
    let here = ScopeRef::of(scope);
    is_true(alloc, layout, &here, formula)
}

/// The execution with one more site, unless the formula is kept.
fn listed(
    alloc: Global,
    run: Run,
    is_kept: bool,
    place: Place,
    number: u32,
) -> Result<Run, AllocError>
    ensures { IfOk result (λ r. Comes run (site_unless is_kept place number) r) }
{
    if is_kept {
        return Ok(run);
    }
    let path = Path::from_slice(alloc, run.scope.path.as_slice())?;
    let site = Site {
        path,
        place,
        requires_: number,
    };
    let Run {
        scope,
        violated,
        used,
    } = run;
    let violated = list_site(violated, site)?;
    Ok(Run {
        scope,
        violated,
        used,
    })
}
