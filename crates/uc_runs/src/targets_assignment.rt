//! Assignments.

ghost use Rattle.std.specs.Prelude.{◌≡◌, ◌++◌, map, IfOk};
ghost use Rattle.uc_meaning.specs.Expressions.{value};
ghost use Rattle.uc_meaning.specs.Code.{write_all};
ghost use Rattle.uc_meaning.specs.OverflowsRuns.{all_met_in, targets_met};
ghost use Rattle.uc_operators.specs.Overflows.{first_wide, TellsWide};

use crate::target::write_all;
use std::alloc::Global;
use uc_evaluator::eval_expr;
use uc_items::Items;
use uc_layout::Layout;
use uc_meaning::Scope;
use uc_operators::EvalError;
use uc_syntax::{Expr, Target};
use uc_values::Value;

/// The scope after an assignment: the values of all sources are taken first.
pub fn assign(
    alloc: Global,
    layout: &Layout,
    scope: Scope,
    targets: &[Target],
    sources: &[Expr],
) -> Result<Scope, EvalError>
    ensures value { IfOk result (λ t. t ≡ write_all layout.now targets.now (map (value layout.now scope) sources.now) scope) }
    ensures wide { TellsWide (first_wide (all_met_in layout.now scope sources.now ++ targets_met layout.now targets.now (map (value layout.now scope) sources.now) scope)) result }
{
    let values = values(alloc, layout, &scope, sources)?;
    write_all(alloc, layout, scope, targets, values.as_slice())
}

/// The values of several expressions in one scope.
pub fn values(
    alloc: Global,
    layout: &Layout,
    scope: &Scope,
    expressions: &[Expr],
) -> Result<Items<Value>, EvalError>
    ensures value { IfOk result (λ vs. vs ≡ map (value layout.now scope.now) expressions.now) }
    ensures wide { TellsWide (first_wide (all_met_in layout.now scope.now expressions.now)) result }
{
    let mut values = Items::new(alloc);
    for expression in expressions {
        let value = eval_expr(alloc, layout, scope, expression)?;
        values.push(value)?;
    }
    Ok(values)
}
