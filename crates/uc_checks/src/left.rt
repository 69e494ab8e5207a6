//! What a call leaves, as it is in the new state.

ghost use Rattle.std.specs.Prelude.{◌≡◌, [], IfOk};
ghost use Rattle.uc_meaning.specs.Steps.{fields_before, is_left, all_left};
ghost use Rattle.uc_meaning.specs.Checks.{left_met};
ghost use Rattle.uc_operators.specs.Overflows.{first_wide, TellsWide};
ghost use Rattle.uc_readings.specs.Scopes.{scope_in};
ghost use Rattle.uc_checks.specs.Asked.{one_left_met};

use crate::fields::{fields_before, part_of_name};
use std::alloc::Global;
use uc_layout::Layout;
use uc_operators::EvalError;
use uc_readings::ScopeRef;
use uc_syntax::Target;
use uc_values::same;

/// Whether targets and names are in the new state as a call leaves them.
pub(crate) fn all_left(
    alloc: Global,
    layout: &Layout,
    scope: &ScopeRef<'_>,
    after: &ScopeRef<'_>,
    targets: &[Target],
    names: &[u32],
) -> Result<bool, EvalError>
    ensures value { IfOk result (λ b. b ≡ all_left layout.now (scope_in scope.now) (scope_in after.now) targets.now names.now) }
    ensures wide { TellsWide (first_wide (left_met layout.now (scope_in scope.now) (scope_in after.now) targets.now names.now)) result }
{
    for target in targets {
        let holds = is_target_left(alloc, layout, scope, after, target)?;
        if !holds {
            return Ok(false);
        }
    }
    names_left(alloc, layout, scope, after, names)
}

fn names_left(
    alloc: Global,
    layout: &Layout,
    scope: &ScopeRef<'_>,
    after: &ScopeRef<'_>,
    names: &[u32],
) -> Result<bool, EvalError>
    ensures value { IfOk result (λ b. b ≡ all_left layout.now (scope_in scope.now) (scope_in after.now) [] names.now) }
    ensures wide { TellsWide (first_wide (left_met layout.now (scope_in scope.now) (scope_in after.now) [] names.now)) result }
{
    for name in names {
        let holds = is_left(alloc, layout, scope, after, *name, &[])?;
        if !holds {
            return Ok(false);
        }
    }
    Ok(true)
}

fn is_target_left(
    alloc: Global,
    layout: &Layout,
    scope: &ScopeRef<'_>,
    after: &ScopeRef<'_>,
    target: &Target,
) -> Result<bool, EvalError>
    ensures value { IfOk result (λ b. b ≡ is_left layout.now (scope_in scope.now) (scope_in after.now) target.now.name (fields_before target.now.parts)) }
    ensures wide { TellsWide (first_wide (one_left_met layout.now (scope_in scope.now) (scope_in after.now) target.now.name)) result }
{
    let fields = fields_before(alloc, target.parts.as_slice())?;
    is_left(alloc, layout, scope, after, target.name, fields.as_slice())
}

/// Whether a part of a name is in the new state as a call leaves it.
fn is_left(
    alloc: Global,
    layout: &Layout,
    scope: &ScopeRef<'_>,
    after: &ScopeRef<'_>,
    name: u32,
    fields: &[u32],
) -> Result<bool, EvalError>
    ensures value { IfOk result (λ b. b ≡ is_left layout.now (scope_in scope.now) (scope_in after.now) name fields.now) }
    ensures wide { TellsWide (first_wide (one_left_met layout.now (scope_in scope.now) (scope_in after.now) name)) result }
{
    let new = part_of_name(alloc, layout, scope, name, true, fields)?;
    let left = part_of_name(alloc, layout, after, name, false, fields)?;
    Ok(same(&new.value, &left.value, &new.ty))
}
