//! Formulas that are assumed or judged.

ghost use Rattle.std.specs.Prelude.{◌≡◌, IfOk};
ghost use Rattle.uc_meaning.specs.Expressions.{is_true};
ghost use Rattle.uc_meaning.specs.Overflow.{met};
ghost use Rattle.uc_meaning.specs.Steps.{kept_if, watched_site};
ghost use Rattle.uc_operators.specs.Overflows.{first_wide, TellsWide};
ghost use Rattle.uc_readings.specs.Scopes.{scope_in};
ghost use Rattle.uc_checks.specs.Watches.{Comes, Asks};

use crate::seen::Seen;
use std::alloc::{AllocError, Global};
use uc_evaluator::is_true;
use uc_items::beside;
use uc_layout::Layout;
use uc_meaning::{Path, Site};
use uc_operators::EvalError;
use uc_readings::ScopeRef;
use uc_runs::list_site;
use uc_syntax::{Expr, Place};

/// What is seen where a formula is judged, which is a site where it is false.
pub fn judged(
    alloc: Global,
    layout: &Layout,
    scope: &ScopeRef<'_>,
    seen: Seen,
    place: Place,
    formula: &Expr,
) -> Result<Seen, EvalError>
    ensures value { IfOk result (λ w. Comes (scope_in scope.now) seen (watched_site (is_true layout.now (scope_in scope.now) formula.now) place) w) }
    ensures wide { TellsWide (first_wide (met layout.now (scope_in scope.now) formula.now)) result }
{
    let holds = is_true(alloc, layout, scope, formula)?;
    let seen = listed(alloc, scope, seen, holds, place)?;
    Ok(seen)
}

/// What an `assume` asks.
pub fn assumed(
    alloc: Global,
    layout: &Layout,
    scope: &ScopeRef<'_>,
    seen: Seen,
    formula: &Expr,
) -> Result<Option<Seen>, EvalError>
    ensures value { IfOk result (λ o. Asks (scope_in scope.now) seen (kept_if (is_true layout.now (scope_in scope.now) formula.now)) o) }
    ensures wide { TellsWide (first_wide (met layout.now (scope_in scope.now) formula.now)) result }
{
    let holds = is_true(alloc, layout, scope, formula)?;
    if holds { Ok(Some(seen)) } else { Ok(None) }
}

/// What is seen with one more site, unless the formula is kept.
fn listed(
    alloc: Global,
    scope: &ScopeRef<'_>,
    seen: Seen,
    is_kept: bool,
    place: Place,
) -> Result<Seen, AllocError>
    ensures { IfOk result (λ w. Comes (scope_in scope.now) seen (watched_site is_kept place) w) }
{
    if is_kept {
        return Ok(seen);
    }
    let path = Path::from_slice(alloc, scope.path)?;
    let site = Site {
        path,
        place,
        requires_: 0,
    };
    let Seen {
        written,
        violated,
        used,
    } = seen;
    let (written, violated) = beside(written, list_site(violated, site))?;
    Ok(Seen {
        written,
        violated,
        used,
    })
}
