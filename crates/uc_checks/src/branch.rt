//! The block of a conditional that is taken.

ghost use Rattle.std.specs.Prelude.{◌≡◌, IfOk};
ghost use Rattle.uc_meaning.specs.Code.{taken, else_block};
ghost use Rattle.uc_meaning.specs.OverflowsRuns.{conditions_met};
ghost use Rattle.uc_operators.specs.Overflows.{first_wide, TellsWide};
ghost use Rattle.uc_readings.specs.Scopes.{scope_in};

use std::alloc::Global;
use uc_evaluator::is_true;
use uc_items::Items;
use uc_layout::Layout;
use uc_operators::EvalError;
use uc_readings::ScopeRef;
use uc_syntax::{Arm, Stmt};

/// The block of the first arm whose condition is true, else that of `else`, else nothing.
pub fn taken<'c>(
    alloc: Global,
    layout: &Layout,
    scope: &ScopeRef<'_>,
    arms: &'c [Arm<Stmt>],
    otherwise: &'c Option<Items<Stmt>>,
) -> Result<&'c [Stmt], EvalError>
    ensures value { IfOk result (λ b. b.now ≡ taken layout.now (scope_in scope.now) arms.now otherwise.now) }
    ensures wide { TellsWide (first_wide (conditions_met layout.now (scope_in scope.now) arms.now)) result }
{
    for arm in arms {
        let holds = is_true(alloc, layout, scope, &arm.condition)?;
        if holds {
            return Ok(arm.body.as_slice());
        }
    }
    Ok(else_block(otherwise))
}

fn else_block(otherwise: &Option<Items<Stmt>>) -> &[Stmt]
    ensures { result.now ≡ else_block otherwise.now }
{
    match otherwise {
        Some(block) => block.as_slice(),
        None => &[],
    }
}
