//! The formulas of a kind, instance by instance.

ghost use Rattle.std.specs.Prelude.{◌≡◌, map, IfOk};
ghost use Rattle.uc_operators.specs.Overflows.{first_wide, TellsWide};
ghost use Rattle.uc_layout.specs.Instances.{instance_meant};
ghost use Rattle.uc_executions.specs.Formulas.{scope_seen, formula_asked, formulas_at, formulas_asked};

use crate::kind::{FormulaKind, formula_in};
use crate::seen::Seen;
use std::alloc::Global;
use uc_evaluator::is_true;
use uc_layout::{InstanceRef, Layout};
use uc_operators::EvalError;
use uc_syntax::Decl;

/// Whether all formulas of a kind of some instances are true, asked in order up to the first that is false.
pub fn formulas_hold(
    alloc: Global,
    layout: &Layout,
    instances: &[InstanceRef<'_>],
    kind: FormulaKind,
    seen: &Seen<'_>,
) -> Result<bool, EvalError>
    ensures value { IfOk result (λ b. b ≡ (formulas_asked layout.now kind (scope_seen seen.now) (map instance_meant instances.now)).holds) }
    ensures wide { TellsWide (first_wide (formulas_asked layout.now kind (scope_seen seen.now) (map instance_meant instances.now)).met) result }
{
    for here in instances {
        let holds = formulas_at(alloc, layout, here, kind, seen)?;
        if !holds {
            return Ok(false);
        }
    }
    Ok(true)
}

/// The same of one instance.
fn formulas_at(
    alloc: Global,
    layout: &Layout,
    here: &InstanceRef<'_>,
    kind: FormulaKind,
    seen: &Seen<'_>,
) -> Result<bool, EvalError>
    ensures value { IfOk result (λ b. b ≡ (formulas_at layout.now kind (scope_seen seen.now) (instance_meant here.now)).holds) }
    ensures wide { TellsWide (first_wide (formulas_at layout.now kind (scope_seen seen.now) (instance_meant here.now)).met) result }
{
    for decl in here.code.decls.as_slice() {
        let holds = formula_holds(alloc, layout, here, kind, seen, decl)?;
        if !holds {
            return Ok(false);
        }
    }
    Ok(true)
}

/// Whether the formula of a kind that a declaration states is true; one that states none asks nothing.
fn formula_holds(
    alloc: Global,
    layout: &Layout,
    here: &InstanceRef<'_>,
    kind: FormulaKind,
    seen: &Seen<'_>,
    decl: &Decl,
) -> Result<bool, EvalError>
    ensures value { IfOk result (λ b. b ≡ (formula_asked layout.now kind (scope_seen seen.now here.now.path) decl.now).holds) }
    ensures wide { TellsWide (first_wide (formula_asked layout.now kind (scope_seen seen.now here.now.path) decl.now).met) result }
{
    match formula_in(kind, decl) {
        Some(formula) => {
            let scope = seen.scope(here.path.as_slice());
            is_true(alloc, layout, &scope, formula)
        }
        None => Ok(true),
    }
}
