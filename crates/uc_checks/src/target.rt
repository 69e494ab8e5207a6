//! What targets ask of the new state.

ghost use Rattle.std.specs.Prelude.{◌≡◌, false, IfOk};
ghost use Rattle.uc_meaning.specs.Expressions.{reading, name as name_says};
ghost use Rattle.uc_meaning.specs.Code.{replaced};
ghost use Rattle.uc_meaning.specs.Steps.{part_reading, from_index, is_assigned, check_targets};
ghost use Rattle.uc_meaning.specs.OverflowsRuns.{target_met};
ghost use Rattle.uc_meaning.specs.Checks.{assigned_met};
ghost use Rattle.uc_operators.specs.Overflows.{first_wide, TellsWide};
ghost use Rattle.uc_readings.specs.Scopes.{scope_in};
ghost use Rattle.uc_checks.specs.Watches.{Asks};
ghost use Rattle.uc_checks.specs.Asked.{check_target, one_assigned_met};

use crate::fields::{fields_before, from_index, part_of_name};
use crate::seen::{Seen, with_target};
use std::alloc::Global;
use uc_items::at;
use uc_layout::Layout;
use uc_operators::EvalError;
use uc_readings::ScopeRef;
use uc_runs::replaced;
use uc_syntax::Target;
use uc_values::{Value, copy, same};

/// What targets ask, from the left: that each has its value. Where there are more targets than values, the last ones ask nothing.
pub(crate) fn check_targets(
    alloc: Global,
    layout: &Layout,
    scope: &ScopeRef<'_>,
    seen: Seen,
    targets: &[Target],
    values: &[Value],
) -> Result<Option<Seen>, EvalError>
    ensures value { IfOk result (λ o. Asks (scope_in scope.now) seen (check_targets layout.now targets.now values.now) o) }
    ensures wide { TellsWide (first_wide (assigned_met layout.now targets.now values.now (scope_in scope.now))) result }
{
    let mut here = seen;
    for (place, target) in targets.iter().enumerate() {
        let Some(value) = at(values, place) else {
            return Ok(Some(here));
        };
        let asked = check_target(alloc, layout, scope, here, target, value)?;
        match asked {
            Some(next) => {
                here = next;
            }
            None => {
                return Ok(None);
            }
        }
    }
    Ok(Some(here))
}

/// What a target asks.
fn check_target(
    alloc: Global,
    layout: &Layout,
    scope: &ScopeRef<'_>,
    seen: Seen,
    target: &Target,
    value: &Value,
) -> Result<Option<Seen>, EvalError>
    ensures value { IfOk result (λ o. Asks (scope_in scope.now) seen (check_target layout.now target.now value.now) o) }
    ensures wide { TellsWide (first_wide (one_assigned_met layout.now (scope_in scope.now) target.now)) result }
{
    let holds = is_assigned(alloc, layout, scope, target, value)?;
    if !holds {
        return Ok(None);
    }
    let seen = with_target(alloc, layout, scope, seen, target)?;
    Ok(Some(seen))
}

/// Whether a target has its value in the new state.
fn is_assigned(
    alloc: Global,
    layout: &Layout,
    scope: &ScopeRef<'_>,
    target: &Target,
    value: &Value,
) -> Result<bool, EvalError>
    ensures value { IfOk result (λ b. b ≡ is_assigned layout.now (scope_in scope.now) target.now value.now) }
    ensures wide { TellsWide (first_wide (one_assigned_met layout.now (scope_in scope.now) target.now)) result }
{
    let fields = fields_before(alloc, target.parts.as_slice())?;
    let fields = fields.as_slice();
    let new = part_of_name(alloc, layout, scope, target.name, true, fields)?;
    let wanted = wanted(alloc, layout, scope, target, fields, value)?;
    Ok(same(&new.value, &wanted, &new.ty))
}

/// What the part of a target before its first index is to be: the value, put into the old part where an index follows.
fn wanted(
    alloc: Global,
    layout: &Layout,
    scope: &ScopeRef<'_>,
    target: &Target,
    fields: &[u32],
    value: &Value,
) -> Result<Value, EvalError>
    ensures value { IfOk result (λ v. v ≡ replaced layout.now (scope_in scope.now) (part_reading (name_says layout.now (reading layout.now) (scope_in scope.now) target.now.name false) fields.now) (from_index target.now.parts) value.now) }
    ensures wide { TellsWide (first_wide (target_met layout.now (scope_in scope.now) target.now.name target.now.parts)) result }
{
    let value = copy(alloc, value)?;
    if target.parts.is_empty() {
        return Ok(value);
    }
    let old = part_of_name(alloc, layout, scope, target.name, false, fields)?;
    let parts = from_index(target.parts.as_slice());
    replaced(alloc, layout, scope, old, parts, value)
}
