//! What a call asks of the new state.

ghost use Rattle.std.specs.Prelude.{◌≡◌, ◌++◌, List, map, IfOk, OnOk};
ghost use Rattle.std.specs.List.{flat_map};
ghost use Rattle.uc_values.specs.declared.value.Value.{Value};
ghost use Rattle.uc_meaning.specs.Code.{modifies_in, modifies_of};
ghost use Rattle.uc_meaning.specs.Steps.{kept_if, writes, all_left, modified_by, check_call};
ghost use Rattle.uc_meaning.specs.OverflowsRuns.{met_after};
ghost use Rattle.uc_meaning.specs.Checks.{left_met, call_left_met};
ghost use Rattle.uc_operators.specs.Overflows.{first_wide, TellsWide};
ghost use Rattle.uc_readings.specs.Scopes.{scope_in};
ghost use Rattle.uc_runs.specs.Runs.{ending_of};
ghost use Rattle.uc_checks.specs.Watches.{Asks, check_of, before_call};
ghost use Rattle.uc_checks.specs.Asked.{call_parts};

use crate::left::all_left;
use crate::seen::{Seen, with_names, with_targets};
use std::alloc::{AllocError, Global};
use uc_items::Items;
use uc_layout::{Layout, Part};
use uc_lookup::procedure_of;
use uc_meaning::Scope;
use uc_operators::EvalError;
use uc_readings::ScopeRef;
use uc_runs::{Ending, Run};
use uc_syntax::{Clause, Identifier, Target};

/// What a call that ends so asks: that the targets and the names that its procedure modifies are in the new state as it leaves them.
pub fn left_by_call(
    alloc: Global,
    layout: &Layout,
    scope: &ScopeRef<'_>,
    written: Items<Part>,
    ended: Ending,
    targets: &[Target],
    name: u32,
) -> Result<Option<Seen>, EvalError>
    ensures value { IfOk result (λ o. (choices : List Value) → check_of (scope_in scope.now) choices o ≡ check_call layout.now targets.now name (before_call (scope_in scope.now) written) (ending_of choices ended)) }
    ensures wide { (choices : List Value) → TellsWide (first_wide (met_after (ending_of choices ended) (call_left_met layout.now targets.now name (before_call (scope_in scope.now) written)))) result }
{
    match ended {
        Ending::Goes(run) => {
            let Run {
                scope: after,
                violated,
                used,
            } = run;
            let seen = Seen {
                written,
                violated,
                used,
            };
            check_left(alloc, layout, scope, &after, seen, targets, name)
        }
        Ending::Stopped => Ok(None),
        Ending::BadChoice(_) => Ok(None),
    }
}

/// What a call asks that leaves a scope.
fn check_left(
    alloc: Global,
    layout: &Layout,
    scope: &ScopeRef<'_>,
    after: &Scope,
    seen: Seen,
    targets: &[Target],
    name: u32,
) -> Result<Option<Seen>, EvalError>
    ensures value { IfOk result (λ o. Asks (scope_in scope.now) seen (λ w. kept_if (all_left layout.now (scope_in scope.now) after.now targets.now (modified_by layout.now (scope_in scope.now) name)) (writes (call_parts layout.now (scope_in scope.now) targets.now (modified_by layout.now (scope_in scope.now) name)) w)) o) }
    ensures wide { TellsWide (first_wide (left_met layout.now (scope_in scope.now) after.now targets.now (modified_by layout.now (scope_in scope.now) name))) result }
{
    let names = modified_by(alloc, layout, scope, name)?;
    let names = names.as_slice();
    let after = ScopeRef::of(after);
    let holds = all_left(alloc, layout, scope, &after, targets, names)?;
    if !holds {
        return Ok(None);
    }
    let seen = with_targets(alloc, layout, scope, seen, targets)?;
    let seen = with_names(alloc, layout, scope, seen, names)?;
    Ok(Some(seen))
}

/// The names that a procedure modifies.
fn modified_by(
    alloc: Global,
    layout: &Layout,
    scope: &ScopeRef<'_>,
    name: u32,
) -> Result<Items<u32>, AllocError>
    ensures { IfOk result (λ xs. xs ≡ modified_by layout.now (scope_in scope.now) name) }
{
    match layout.system().module_at(scope.path) {
        Some(code) => match procedure_of(code.decls.as_slice(), name) {
            Some(procedure) => modified_in(alloc, procedure.clauses.as_slice()),
            None => Ok(Items::new(alloc)),
        },
        None => Ok(Items::new(alloc)),
    }
}

#[tactic(auto, using(uc_syntax::proofs::Added::added_begin, uc_syntax::proofs::Added::added_more, uc_syntax::proofs::Added::added_end))]
fn modified_in(alloc: Global, clauses: &[Clause]) -> Result<Items<u32>, AllocError>
    ensures { IfOk result (λ xs. xs ≡ flat_map modifies_in clauses.now) }
{
    let mut names = Items::new(alloc);
    for clause in clauses {
        if let Clause::Modifies(_, modified) = clause {
            add_names(modified.as_slice(), &mut names)?;
        }
    }
    Ok(names)
}

fn add_names(identifiers: &[Identifier], names: &mut Items<u32>) -> Result<(), AllocError>
    ensures { OnOk result (names.new ≡ names.old ++ map (λ i. i.name) identifiers.now) }
{
    for identifier in identifiers {
        names.push(identifier.name)?;
    }
    Ok(())
}
