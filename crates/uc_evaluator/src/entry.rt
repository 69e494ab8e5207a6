//! Expressions in a scope of a design.

ghost use Rattle.std.specs.Prelude.{◌≡◌, IfOk};
ghost use Rattle.uc_meaning.specs.Expressions.{value, reading, is_true, name as name_says};
ghost use Rattle.uc_meaning.specs.Overflow.{met, name_met};
ghost use Rattle.uc_operators.specs.Overflows.{first_wide, TellsWide};
ghost use Rattle.uc_readings.specs.Scopes.{scope_in};
ghost use Rattle.uc_readings.specs.Readings.{reading_of};

use crate::evaluation::{named, said};
use crate::operands::{into_value, is_held};
use std::alloc::Global;
use uc_layout::Layout;
use uc_meaning::Scope;
use uc_operators::EvalError;
use uc_readings::{Said, ScopeRef};
use uc_syntax::Expr;
use uc_values::Value;

/// How many defines and bindings, those of outputs counted, are read one behind another at most.
const LONGEST_WAY: u32 = 64;

/// The value of an expression in a scope.
pub fn eval_expr(
    alloc: Global,
    layout: &Layout,
    scope: &Scope,
    e: &Expr,
) -> Result<Value, EvalError>
    ensures value { IfOk result (λ v. v ≡ value layout.now scope.now e.now) }
    ensures wide { TellsWide (first_wide (met layout.now scope.now e.now)) result }
{
    let here = ScopeRef::of(scope);
    let said = reading(alloc, layout, &here, e)?;
    Ok(into_value(said))
}

/// What an expression says in a scope: its type and its value.
pub fn reading(
    alloc: Global,
    layout: &Layout,
    scope: &ScopeRef<'_>,
    e: &Expr,
) -> Result<Said, EvalError>
    ensures value { IfOk result (λ r. reading_of r ≡ reading layout.now (scope_in scope.now) e.now) }
    ensures wide { TellsWide (first_wide (met layout.now (scope_in scope.now) e.now)) result }
{
    said(alloc, layout, LONGEST_WAY, scope, e)
}

/// Whether a formula is true in a scope.
pub fn is_true(
    alloc: Global,
    layout: &Layout,
    scope: &ScopeRef<'_>,
    e: &Expr,
) -> Result<bool, EvalError>
    ensures value { IfOk result (λ b. b ≡ is_true layout.now (scope_in scope.now) e.now) }
    ensures wide { TellsWide (first_wide (met layout.now (scope_in scope.now) e.now)) result }
{
    let said = reading(alloc, layout, scope, e)?;
    Ok(is_held(said))
}

/// What a name says in a scope.
#[tactic(auto, using(crate::proofs::Levels::name_above, crate::proofs::Levels::name_met_above))]
pub fn name_reading(
    alloc: Global,
    layout: &Layout,
    scope: &ScopeRef<'_>,
    name: u32,
    is_primed: bool,
) -> Result<Said, EvalError>
    ensures value { IfOk result (λ r. reading_of r ≡ name_says layout.now (reading layout.now) (scope_in scope.now) name is_primed) }
    ensures wide { TellsWide (first_wide (name_met layout.now (met layout.now) (scope_in scope.now) name is_primed)) result }
{
    named(alloc, layout, LONGEST_WAY + 1, scope, name, is_primed)
}
