//! Assignments as constraints on the new state.

ghost use Rattle.std.specs.Prelude.{◌≡◌, ◌++◌, map, IfOk};
ghost use Rattle.uc_meaning.specs.Expressions.{value};
ghost use Rattle.uc_meaning.specs.Steps.{check_targets};
ghost use Rattle.uc_meaning.specs.OverflowsRuns.{all_met_in};
ghost use Rattle.uc_meaning.specs.Checks.{assigned_met};
ghost use Rattle.uc_operators.specs.Overflows.{first_wide, TellsWide};
ghost use Rattle.uc_readings.specs.Scopes.{scope_in};
ghost use Rattle.uc_checks.specs.Watches.{Asks};

use crate::seen::Seen;
use crate::target::check_targets;
use std::alloc::Global;
use uc_evaluator::reading;
use uc_items::Items;
use uc_layout::Layout;
use uc_operators::EvalError;
use uc_readings::{Said, ScopeRef};
use uc_syntax::{Expr, Target};
use uc_values::Value;

/// What an assignment asks: the values of all sources are taken first.
pub fn assigned(
    alloc: Global,
    layout: &Layout,
    scope: &ScopeRef<'_>,
    seen: Seen,
    targets: &[Target],
    sources: &[Expr],
) -> Result<Option<Seen>, EvalError>
    ensures value { IfOk result (λ o. Asks (scope_in scope.now) seen (check_targets layout.now targets.now (map (value layout.now (scope_in scope.now)) sources.now)) o) }
    ensures wide { TellsWide (first_wide (all_met_in layout.now (scope_in scope.now) sources.now ++ assigned_met layout.now targets.now (map (value layout.now (scope_in scope.now)) sources.now) (scope_in scope.now))) result }
{
    let values = values(alloc, layout, scope, sources)?;
    check_targets(alloc, layout, scope, seen, targets, values.as_slice())
}

/// The values of several expressions in one scope.
fn values(
    alloc: Global,
    layout: &Layout,
    scope: &ScopeRef<'_>,
    expressions: &[Expr],
) -> Result<Items<Value>, EvalError>
    ensures value { IfOk result (λ vs. vs ≡ map (value layout.now (scope_in scope.now)) expressions.now) }
    ensures wide { TellsWide (first_wide (all_met_in layout.now (scope_in scope.now) expressions.now)) result }
{
    let mut values = Items::new(alloc);
    for expression in expressions {
        let said = reading(alloc, layout, scope, expression)?;
        values.push(value_of(said))?;
    }
    Ok(values)
}

fn value_of(said: Said) -> Value
    ensures { result ≡ said.value }
{
    said.value
}
