//! What the statements of a `next` block ask of an old and a new state.

ghost use Rattle.std.specs.Prelude.{◌≡◌, ◌∷◌, ◌++◌, [], IfOk};
ghost use Rattle.std.specs.List.{flat_map};
ghost use Rattle.uc_meaning.specs.Lookup.{module_at, next_in};
ghost use Rattle.uc_meaning.specs.Code.{taken};
ghost use Rattle.uc_meaning.specs.Steps.{check_through, check_instance, with_local as with_turn};
ghost use Rattle.uc_meaning.specs.OverflowsRuns.{conditions_met};
ghost use Rattle.uc_meaning.specs.Checks.{check_met_through, instance_met};
ghost use Rattle.uc_operators.specs.Overflows.{first_wide, TellsWide};
ghost use Rattle.uc_readings.specs.Scopes.{scope_in};
ghost use Rattle.uc_checks.specs.Watches.{watched, check_of};
ghost use Rattle.uc_checks.specs.Levels.{check_at, check_met_at, asked_at, asked_met_at, turns_at, turns_met_at, turn_at};

use crate::called::check_call;
use crate::inside::{at_path, path_of, with_local};
use crate::{Seen, assigned, assumed, judged, taken, with_name};
use std::alloc::Global;
use uc_items::{Items, beside};
use uc_layout::Layout;
use uc_meaning::Local;
use uc_operators::EvalError;
use uc_readings::{ScopeRef, with_locals};
use uc_runs::{turn_local, turns_between};
use uc_syntax::{Arm, Decl, Stmt};
use uc_values::{Ty, Value};

/// Statements one after another, where instances stand inside each other through at most so many further ones.
#[cycle(check)]
pub(crate) fn check_each(
    alloc: Global,
    layout: &Layout,
    below: u32,
    scope: &ScopeRef<'_>,
    choices: &[Value],
    seen: Seen,
    code: &[Stmt],
) -> Result<Option<Seen>, EvalError>
    ensures value { IfOk result (λ o. check_of (scope_in scope.now) choices.now o ≡ check_at below layout.now code.now (watched (scope_in scope.now) choices.now seen)) }
    ensures wide { TellsWide (first_wide (check_met_at below layout.now code.now (watched (scope_in scope.now) choices.now seen))) result }
{
    let mut here = seen;
    for statement in code {
        let asked = check_one(alloc, layout, below, scope, choices, here, statement)?;
        match asked {
            Some(next) => {
                here = next;
            }
            None => {
                return Ok(None);
            }
        }
    }
    Ok(Some(here))
}

/// One statement.
#[cycle(check)]
fn check_one(
    alloc: Global,
    layout: &Layout,
    below: u32,
    scope: &ScopeRef<'_>,
    choices: &[Value],
    seen: Seen,
    statement: &Stmt,
) -> Result<Option<Seen>, EvalError>
    ensures value { IfOk result (λ o. check_of (scope_in scope.now) choices.now o ≡ asked_at below layout.now statement.now (watched (scope_in scope.now) choices.now seen)) }
    ensures wide { TellsWide (first_wide (asked_met_at below layout.now statement.now (watched (scope_in scope.now) choices.now seen))) result }
{
    match statement {
        Stmt::Local(_, _, _) => Ok(Some(seen)),
        Stmt::Skip(_) => Ok(Some(seen)),
        Stmt::Block(_, block) => {
            let block = block.as_slice();
            check_each(alloc, layout, below, scope, choices, seen, block)
        }
        Stmt::Assert(place, _, formula) => {
            let seen = judged(alloc, layout, scope, seen, *place, formula)?;
            Ok(Some(seen))
        }
        Stmt::Assume(_, formula) => assumed(alloc, layout, scope, seen, formula),
        Stmt::Havoc(_, name, _) => {
            let seen = with_name(alloc, layout, scope, seen, name.name)?;
            Ok(Some(seen))
        }
        Stmt::Assign(_, targets, sources) => {
            let targets = targets.as_slice();
            assigned(alloc, layout, scope, seen, targets, sources.as_slice())
        }
        Stmt::If(_, arms, otherwise) => {
            let arms = arms.as_slice();
            check_taken(alloc, layout, below, scope, choices, seen, arms, otherwise)
        }
        Stmt::Case(_, arms, otherwise) => {
            let arms = arms.as_slice();
            check_taken(alloc, layout, below, scope, choices, seen, arms, otherwise)
        }
        Stmt::For(_, variable, _, from, to, block) => {
            let turns = turns_between(alloc, *from, *to)?;
            check_turns(
                alloc,
                layout,
                below,
                scope,
                choices,
                seen,
                variable.name,
                &turns.ty,
                turns.values.as_slice(),
                block.as_slice(),
            )
        }
        Stmt::Call(place, targets, procedure, arguments) => check_call(
            alloc,
            layout,
            scope,
            choices,
            seen,
            *place,
            targets.as_slice(),
            procedure.name,
            arguments.as_slice(),
        ),
        Stmt::Next(_, instance) => {
            check_instance(alloc, layout, below, scope, choices, seen, instance.name)
        }
    }
}

/// A conditional: the block of the first arm whose condition is true, else that of `else`, else nothing.
#[cycle(check)]
fn check_taken(
    alloc: Global,
    layout: &Layout,
    below: u32,
    scope: &ScopeRef<'_>,
    choices: &[Value],
    seen: Seen,
    arms: &[Arm<Stmt>],
    otherwise: &Option<Items<Stmt>>,
) -> Result<Option<Seen>, EvalError>
    ensures value { IfOk result (λ o. check_of (scope_in scope.now) choices.now o ≡ check_at below layout.now (taken layout.now (scope_in scope.now) arms.now otherwise.now) (watched (scope_in scope.now) choices.now seen)) }
    ensures wide { TellsWide (first_wide (conditions_met layout.now (scope_in scope.now) arms.now ++ check_met_at below layout.now (taken layout.now (scope_in scope.now) arms.now otherwise.now) (watched (scope_in scope.now) choices.now seen))) result }
{
    let block = taken(alloc, layout, scope, arms, otherwise)?;
    check_each(alloc, layout, below, scope, choices, seen, block)
}

/// A loop, by the type and the values of its variable.
#[cycle(check)]
fn check_turns(
    alloc: Global,
    layout: &Layout,
    below: u32,
    scope: &ScopeRef<'_>,
    choices: &[Value],
    seen: Seen,
    variable: u32,
    ty: &Ty,
    values: &[Value],
    block: &[Stmt],
) -> Result<Option<Seen>, EvalError>
    ensures value { IfOk result (λ o. check_of (scope_in scope.now) choices.now o ≡ turns_at below layout.now variable ty.now block.now values.now (watched (scope_in scope.now) choices.now seen)) }
    ensures wide { TellsWide (first_wide (turns_met_at below layout.now variable ty.now block.now values.now (watched (scope_in scope.now) choices.now seen))) result }
{
    let mut here = seen;
    for value in values {
        let local = turn_local(alloc, variable, ty, value)?;
        let asked = check_turn(alloc, layout, below, scope, choices, here, local, block)?;
        match asked {
            Some(next) => {
                here = next;
            }
            None => {
                return Ok(None);
            }
        }
    }
    Ok(Some(here))
}

/// A turn of a loop.
#[cycle(check)]
fn check_turn(
    alloc: Global,
    layout: &Layout,
    below: u32,
    scope: &ScopeRef<'_>,
    choices: &[Value],
    seen: Seen,
    local: Local,
    block: &[Stmt],
) -> Result<Option<Seen>, EvalError>
    ensures value { IfOk result (λ o. check_of (scope_in scope.now) choices.now o ≡ turn_at below layout.now local.name local.ty block.now local.value (watched (scope_in scope.now) choices.now seen)) }
    ensures wide { TellsWide (first_wide (check_met_at below layout.now block.now (with_turn local.name local.ty local.value (watched (scope_in scope.now) choices.now seen)))) result }
{
    let locals = with_local(alloc, scope.locals, local);
    let (seen, locals) = beside(seen, locals)?;
    let inside = with_locals(scope, locals.as_slice());
    check_each(alloc, layout, below, &inside, choices, seen, block)
}

/// A step of an instance. One that is not there has none.
#[cycle(check)]
fn check_instance(
    alloc: Global,
    layout: &Layout,
    below: u32,
    scope: &ScopeRef<'_>,
    choices: &[Value],
    seen: Seen,
    name: u32,
) -> Result<Option<Seen>, EvalError>
    ensures value { IfOk result (λ o. check_of (scope_in scope.now) choices.now o ≡ check_instance (check_through below layout.now) (scope.now.path.now ++ name ∷ []) (module_at layout.now (scope.now.path.now ++ name ∷ [])) (watched (scope_in scope.now) choices.now seen)) }
    ensures wide { TellsWide (first_wide (instance_met (check_met_through below layout.now) (scope.now.path.now ++ name ∷ []) (module_at layout.now (scope.now.path.now ++ name ∷ [])) (watched (scope_in scope.now) choices.now seen))) result }
{
    let path = path_of(alloc, scope.path, name)?;
    match layout.system().module_at(path.as_slice()) {
        Some(code) => {
            if below == 0 {
                return Ok(None);
            }
            let inside = at_path(scope, path.as_slice());
            let decls = code.decls.as_slice();
            check_decls(alloc, layout, below - 1, &inside, choices, seen, decls)
        }
        None => Ok(None),
    }
}

/// The `next` blocks among declarations.
#[cycle(check)]
pub(crate) fn check_decls(
    alloc: Global,
    layout: &Layout,
    below: u32,
    scope: &ScopeRef<'_>,
    choices: &[Value],
    seen: Seen,
    decls: &[Decl],
) -> Result<Option<Seen>, EvalError>
    ensures value { IfOk result (λ o. check_of (scope_in scope.now) choices.now o ≡ check_at below layout.now (flat_map next_in decls.now) (watched (scope_in scope.now) choices.now seen)) }
    ensures wide { TellsWide (first_wide (check_met_at below layout.now (flat_map next_in decls.now) (watched (scope_in scope.now) choices.now seen))) result }
{
    let mut here = seen;
    for decl in decls {
        let asked = check_decl(alloc, layout, below, scope, choices, here, decl)?;
        match asked {
            Some(next) => {
                here = next;
            }
            None => {
                return Ok(None);
            }
        }
    }
    Ok(Some(here))
}

/// A declaration, if it is a `next` block.
#[cycle(check)]
fn check_decl(
    alloc: Global,
    layout: &Layout,
    below: u32,
    scope: &ScopeRef<'_>,
    choices: &[Value],
    seen: Seen,
    decl: &Decl,
) -> Result<Option<Seen>, EvalError>
    ensures value { IfOk result (λ o. check_of (scope_in scope.now) choices.now o ≡ check_at below layout.now (next_in decl.now) (watched (scope_in scope.now) choices.now seen)) }
    ensures wide { TellsWide (first_wide (check_met_at below layout.now (next_in decl.now) (watched (scope_in scope.now) choices.now seen))) result }
{
    match decl {
        Decl::Next(_, block) => {
            let block = block.as_slice();
            check_each(alloc, layout, below, scope, choices, seen, block)
        }
        _ => Ok(Some(seen)),
    }
}
