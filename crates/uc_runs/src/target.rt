//! Targets that are written.

ghost use Rattle.std.specs.Prelude.{◌≡◌, IfOk};
ghost use Rattle.uc_meaning.specs.Code.{name_now, replaced, write, write_all};
ghost use Rattle.uc_meaning.specs.OverflowsRuns.{target_met, targets_met};
ghost use Rattle.uc_operators.specs.Overflows.{first_wide, TellsWide};
ghost use Rattle.uc_readings.specs.Scopes.{scope_in};

use crate::replacement::replaced;
use crate::set_name;
use std::alloc::Global;
use uc_evaluator::name_reading;
use uc_items::at;
use uc_layout::Layout;
use uc_meaning::Scope;
use uc_operators::EvalError;
use uc_readings::ScopeRef;
use uc_syntax::Target;
use uc_values::{Value, copy};

/// The scope after targets are written from left to right. Where there are more targets than values, the last ones are not.
pub fn write_all(
    alloc: Global,
    layout: &Layout,
    scope: Scope,
    targets: &[Target],
    values: &[Value],
) -> Result<Scope, EvalError>
    ensures value { IfOk result (λ t. t ≡ write_all layout.now targets.now values.now scope) }
    ensures wide { TellsWide (first_wide (targets_met layout.now targets.now values.now scope)) result }
{
    let mut here = scope;
    for (place, target) in targets.iter().enumerate() {
        match at(values, place) {
            Some(value) => {
                let value = copy(alloc, value)?;
                here = write(alloc, layout, here, target, value)?;
            }
            None => {
                return Ok(here);
            }
        }
    }
    Ok(here)
}

/// The scope after a target is written.
#[tactic(auto, unfolding(uc_meaning::specs::Code::write))]
pub fn write(
    alloc: Global,
    layout: &Layout,
    scope: Scope,
    target: &Target,
    value: Value,
) -> Result<Scope, EvalError>
    ensures value { IfOk result (λ t. t ≡ write layout.now scope target.now value) }
    ensures wide { TellsWide (first_wide (target_met layout.now scope target.now.name target.now.parts)) result }
{
    let here = ScopeRef::of(&scope);
    let value = new_value(alloc, layout, &here, target, value)?;
    Ok(set_name(layout, scope, target.name, value))
}

/// What the name of a target is given: the value, put into what the name says now where the target has parts.
fn new_value(
    alloc: Global,
    layout: &Layout,
    scope: &ScopeRef<'_>,
    target: &Target,
    value: Value,
) -> Result<Value, EvalError>
    ensures value { IfOk result (λ v. v ≡ replaced layout.now (scope_in scope.now) (name_now layout.now (scope_in scope.now) target.now.name) target.now.parts value) }
    ensures wide { TellsWide (first_wide (target_met layout.now (scope_in scope.now) target.now.name target.now.parts)) result }
{
    if target.parts.is_empty() {
        return Ok(value);
    }
    let whole = name_reading(alloc, layout, scope, target.name, false)?;
    let parts = target.parts.as_slice();
    replaced(alloc, layout, scope, whole, parts, value)
}
