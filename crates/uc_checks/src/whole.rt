//! A scope of its own that says what a scope by reference says.

ghost use Rattle.std.specs.Prelude.{◌≡◌, IfOk};
ghost use Rattle.std.specs.Option.{option_copied};
ghost use Rattle.uc_readings.specs.Scopes.{scope_in};

use std::alloc::{AllocError, Global};
use uc_items::{Items, beside};
use uc_layout::copy_interp;
use uc_meaning::{Local, Path, Scope, State, copy_state};
use uc_readings::ScopeRef;
use uc_values::{copy, copy_ty};

/// The same scope, with states, locals and an interpretation of its own.
pub fn whole_scope(alloc: Global, scope: &ScopeRef<'_>) -> Result<Scope, AllocError>
    ensures { IfOk result (λ s. s ≡ scope_in scope.now) }
{
    let held = Path::from_slice(alloc, scope.path)?;
    let held = beside(held, copy_state(alloc, scope.before))?;
    let held = beside(held, copy_other(alloc, scope.after))?;
    let held = beside(held, copy_other(alloc, scope.at_entry))?;
    let held = beside(held, copy_states(alloc, scope.copies))?;
    let held = beside(held, copy_locals(alloc, scope.locals))?;
    let held = beside(held, copy_interp(alloc, scope.interp))?;
    let ((((((path, before), after), at_entry), copies), locals), interp) = held;
    Ok(Scope {
        path,
        before,
        after,
        at_entry,
        copies,
        locals,
        interp,
    })
}

fn copy_other(alloc: Global, state: Option<&State>) -> Result<Option<State>, AllocError>
    ensures { IfOk result (λ s. s ≡ option_copied state.entry) }
{
    match state {
        Some(state) => {
            let state = copy_state(alloc, state)?;
            Ok(Some(state))
        }
        None => Ok(None),
    }
}

fn copy_states(alloc: Global, states: &[State]) -> Result<Items<State>, AllocError>
    ensures { IfOk result (λ ss. ss ≡ states.now) }
{
    let mut copies = Items::new(alloc);
    for state in states {
        let state = copy_state(alloc, state)?;
        copies.push(state)?;
    }
    Ok(copies)
}

/// The same locals again.
pub fn copy_locals(alloc: Global, locals: &[Local]) -> Result<Items<Local>, AllocError>
    ensures { IfOk result (λ ls. ls ≡ locals.now) }
{
    let mut copies = Items::new(alloc);
    for local in locals {
        let local = copy_local(alloc, local)?;
        copies.push(local)?;
    }
    Ok(copies)
}

fn copy_local(alloc: Global, local: &Local) -> Result<Local, AllocError>
    ensures { IfOk result (λ l. l ≡ local.now) }
{
    let ty = copy_ty(alloc, &local.ty)?;
    let (ty, value) = beside(ty, copy(alloc, &local.value))?;
    Ok(Local {
        name: local.name,
        ty,
        value,
    })
}
