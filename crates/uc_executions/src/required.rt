//! What a procedure requires at its entry.

ghost use Rattle.std.specs.Prelude.{◌≡◌, true, IfOk};
ghost use Rattle.std.specs.Bool.{Decides};
ghost use Rattle.std.specs.List.{All};
ghost use Rattle.std.specs.Option.{option_copied};
ghost use Rattle.uc_meaning.specs.Expressions.{is_true};
ghost use Rattle.uc_meaning.specs.Code.{requires_of, requires_in};
ghost use Rattle.uc_operators.specs.Overflows.{first_wide, TellsWide};
ghost use Rattle.uc_executions.specs.Asked.{ask_each};
ghost use Rattle.uc_executions.specs.Formulas.{truth_asked, truth_if};

use std::alloc::Global;
use uc_evaluator::is_true;
use uc_layout::Layout;
use uc_meaning::Scope;
use uc_operators::EvalError;
use uc_readings::ScopeRef;
use uc_syntax::{Clause, Expr, Procedure};

/// Whether each `requires` of a procedure is true in a scope, asked in order up to the first that is false.
pub fn requires_hold(
    alloc: Global,
    layout: &Layout,
    scope: &Scope,
    procedure: &Procedure,
) -> Result<bool, EvalError>
    ensures value { IfOk result (λ b. Decides b (All (λ e. is_true layout.now scope.now e ≡ true) (requires_of procedure.now))) }
    ensures wide { TellsWide (first_wide (ask_each (truth_asked layout.now scope.now) (requires_of procedure.now)).met) result }
{
    clauses_hold(alloc, layout, scope, procedure.clauses.as_slice())
}

fn clauses_hold(
    alloc: Global,
    layout: &Layout,
    scope: &Scope,
    clauses: &[Clause],
) -> Result<bool, EvalError>
    ensures value { IfOk result (λ b. b ≡ (ask_each (λ c. truth_if layout.now scope.now (requires_in c)) clauses.now).holds) }
    ensures wide { TellsWide (first_wide (ask_each (λ c. truth_if layout.now scope.now (requires_in c)) clauses.now).met) result }
{
    for clause in clauses {
        let holds = clause_holds(alloc, layout, scope, clause)?;
        if !holds {
            return Ok(false);
        }
    }
    Ok(true)
}

/// Whether a clause is true; one that is no `requires` asks nothing.
fn clause_holds(
    alloc: Global,
    layout: &Layout,
    scope: &Scope,
    clause: &Clause,
) -> Result<bool, EvalError>
    ensures value { IfOk result (λ b. b ≡ (truth_if layout.now scope.now (requires_in clause.now)).holds) }
    ensures wide { TellsWide (first_wide (truth_if layout.now scope.now (requires_in clause.now)).met) result }
{
    match requires_in(clause) {
        Some(formula) => {
            let here = ScopeRef::of(scope);
            is_true(alloc, layout, &here, formula)
        }
        None => Ok(true),
    }
}

fn requires_in(clause: &Clause) -> Option<&Expr>
    ensures { option_copied result ≡ requires_in clause.now }
{
    match clause {
        Clause::Requires(_, formula) => Some(formula),
        _ => None,
    }
}
