//! What a procedure ensures at its exit.

ghost use Rattle.std.specs.Prelude.{◌≡◌, ◌-◌, [], Some, slice_get, IfOk};
ghost use Rattle.std.specs.Bool.{Decides};
ghost use Rattle.std.specs.List.{filter_map};
ghost use Rattle.std.specs.Option.{option_copied};
ghost use Rattle.uc_meaning.specs.Runs.{ensures_in, ensures_of};
ghost use Rattle.uc_meaning.specs.Lines.{EnsuresFails};
ghost use Rattle.uc_meaning.specs.Ends.{begun};
ghost use Rattle.uc_operators.specs.Overflows.{first_wide, TellsWide};
ghost use Rattle.uc_readings.specs.Scopes.{scope_in};
ghost use Rattle.uc_executions.specs.Executions.{ensures_asked};

use std::alloc::Global;
use uc_evaluator::is_true;
use uc_layout::Layout;
use uc_meaning::{Scope, State};
use uc_operators::EvalError;
use uc_readings::ScopeRef;
use uc_syntax::{Clause, Expr, Procedure};

/// Whether the `ensures` of a number, counted from 1, is there and false at an exit from an entry state.
pub fn ensures_fails(
    alloc: Global,
    layout: &Layout,
    procedure: &Procedure,
    number: u32,
    entry: &State,
    exit: &Scope,
) -> Result<bool, EvalError>
    ensures value { IfOk result (λ b. Decides b (EnsuresFails layout.now entry.now (begun exit.now []) (slice_get (ensures_of procedure.now) (number - 1)))) }
    ensures wide { TellsWide (first_wide (ensures_asked layout.now entry.now exit.now (slice_get (ensures_of procedure.now) (number - 1))).met) result }
{
    let place = number.saturating_sub(1) as usize;
    match ensures_at(procedure.clauses.as_slice(), place) {
        Some(formula) => is_false(alloc, layout, entry, exit, formula),
        None => Ok(false),
    }
}

/// Whether a formula is false at an exit from an entry state.
fn is_false(
    alloc: Global,
    layout: &Layout,
    entry: &State,
    exit: &Scope,
    formula: &Expr,
) -> Result<bool, EvalError>
    ensures value { IfOk result (λ b. b ≡ (ensures_asked layout.now entry.now exit.now (Some formula.now)).holds) }
    ensures wide { TellsWide (first_wide (ensures_asked layout.now entry.now exit.now (Some formula.now)).met) result }
{
    let scope = exit_scope(entry, exit);
    let holds = is_true(alloc, layout, &scope, formula)?;
    Ok(!holds)
}

/// The scope at an exit, with the entry state.
fn exit_scope<'s>(entry: &'s State, exit: &'s Scope) -> ScopeRef<'s>
    ensures { scope_in result ≡ record exit.now { at_entry = Some entry.now } }
{
    let here = ScopeRef::of(exit);
    ScopeRef {
        at_entry: Some(entry),
        ..here
    }
}

/// The `ensures` at a place among those of some clauses.
fn ensures_at(clauses: &[Clause], place: usize) -> Option<&Expr>
    ensures { option_copied result ≡ slice_get (filter_map ensures_in clauses.now) place }
{
    let Some((first, rest)) = clauses.split_first() else {
        return None;
    };
    match ensures_in(first) {
        Some(formula) => {
            if place == 0 {
                return Some(formula);
            }
            ensures_at(rest, place - 1)
        }
        None => ensures_at(rest, place),
    }
}

fn ensures_in(clause: &Clause) -> Option<&Expr>
    ensures { option_copied result ≡ ensures_in clause.now }
{
    match clause {
        Clause::Ensures(_, formula) => Some(formula),
        _ => None,
    }
}
