//! Steps.

ghost use Rattle.std.specs.Prelude.{◌≡◌, IfOk};
ghost use Rattle.uc_meaning.specs.declared.scope.Interp.{Interp as InterpMeant};
ghost use Rattle.uc_meaning.specs.Steps.{Kept, check, main_next, step_scope, watched_first};
ghost use Rattle.uc_meaning.specs.Answers.{IsStepAnswer};
ghost use Rattle.uc_meaning.specs.Checks.{check_met, step_met};
ghost use Rattle.uc_operators.specs.Overflows.{first_wide, TellsWide};
ghost use Rattle.uc_readings.specs.Scopes.{scope_in};
ghost use Rattle.uc_checks.specs.Watches.{watched, check_of};
ghost use Rattle.uc_checks.specs.Levels.{first_seen};

use crate::Seen;
use crate::checking::check_decls;
use std::alloc::{AllocError, Global};
use uc_items::{Items, beside};
use uc_layout::{Layout, all_keep};
use uc_meaning::{Interp, Site, State};
use uc_operators::EvalError;
use uc_readings::ScopeRef;
use uc_values::Value;

/// How many instances stand inside each other at most.
const LONGEST_CHAIN: u32 = 32;

/// Whether a new state follows an old one by a step with just these choices; and then the listed sites.
pub fn step_holds(
    alloc: Global,
    layout: &Layout,
    interp: &Interp,
    old: &State,
    new: &State,
    choices: &[Value],
) -> Result<Option<Items<Site>>, EvalError>
    ensures value { IfOk result (λ answer. IsStepAnswer layout.now interp.now old.now new.now choices.now answer) }
    ensures wide { TellsWide (first_wide (step_met layout.now interp.now old.now new.now choices.now)) result }
{
    let scope = step_scope(interp, old, new);
    let asked = check_main(alloc, layout, &scope, choices)?;
    match asked {
        Some(seen) => Ok(answer(alloc, layout, old, new, choices, seen)?),
        None => Ok(None),
    }
}

/// The scope in which main's `next` block is read.
fn step_scope<'s>(interp: &'s Interp, old: &'s State, new: &'s State) -> ScopeRef<'s>
    ensures { scope_in result ≡ step_scope interp.now old.now new.now }
{
    ScopeRef {
        path: &[],
        before: old,
        after: Some(new),
        at_entry: None,
        copies: &[],
        locals: &[],
        interp,
    }
}

/// What main's `next` block asks.
fn check_main(
    alloc: Global,
    layout: &Layout,
    scope: &ScopeRef<'_>,
    choices: &[Value],
) -> Result<Option<Seen>, EvalError>
    ensures value { IfOk result (λ o. check_of (scope_in scope.now) choices.now o ≡ check layout.now (main_next layout.now) (watched (scope_in scope.now) choices.now first_seen)) }
    ensures wide { TellsWide (first_wide (check_met layout.now (main_next layout.now) (watched (scope_in scope.now) choices.now first_seen))) result }
{
    let seen = Seen {
        written: Items::new(alloc),
        violated: Items::new(alloc),
        used: 0,
    };
    match layout.system().main_module() {
        Some(code) => {
            let decls = code.decls.as_slice();
            check_decls(alloc, layout, LONGEST_CHAIN, scope, choices, seen, decls)
        }
        None => Ok(Some(seen)),
    }
}

/// The answer where main's `next` block holds.
fn answer(
    alloc: Global,
    layout: &Layout,
    old: &State,
    new: &State,
    choices: &[Value],
    seen: Seen,
) -> Result<Option<Items<Site>>, AllocError>
    ensures { IfOk result (λ answer. (i : InterpMeant) → check layout.now (main_next layout.now) (watched_first i old.now new.now choices.now) ≡ Kept (watched (step_scope i old.now new.now) choices.now seen) → IsStepAnswer layout.now i old.now new.now choices.now answer) }
{
    let Seen {
        written,
        violated,
        used,
    } = seen;
    if used < choices.len() {
        return Ok(None);
    }
    let old = old.cells.as_slice();
    let new = new.cells.as_slice();
    let keep = all_keep(alloc, layout.tables(), written.as_slice(), old, new);
    let (violated, keep) = beside(violated, keep)?;
    if keep { Ok(Some(violated)) } else { Ok(None) }
}
