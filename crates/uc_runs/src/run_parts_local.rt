//! Locals that begin and end.

ghost use Rattle.std.specs.Prelude.{◌≡◌, ◌-◌, ◌∷◌, drop, length, IfOk};
ghost use Rattle.uc_meaning.specs.Code.{keep_locals};

use std::alloc::{AllocError, Global};
use uc_items::Items;
use uc_meaning::{Local, Scope};

/// The scope with one more local, which is the newest.
pub fn push_local(alloc: Global, scope: Scope, local: Local) -> Result<Scope, AllocError>
    ensures { IfOk result (λ s. s ≡ record scope { locals = local ∷ scope.locals }) }
{
    let Scope {
        path,
        before,
        after,
        at_entry,
        copies,
        locals,
        interp,
    } = scope;
    let mut newest = Items::new(alloc);
    newest.push(local)?;
    newest.append(locals)?;
    Ok(Scope {
        path,
        before,
        after,
        at_entry,
        copies,
        locals: newest,
        interp,
    })
}

/// The scope with so many of its oldest locals.
pub fn keep_locals(alloc: Global, count: usize, scope: Scope) -> Result<Scope, AllocError>
    ensures { IfOk result (λ s. s ≡ keep_locals count scope) }
{
    let Scope {
        path,
        before,
        after,
        at_entry,
        copies,
        locals,
        interp,
    } = scope;
    let locals = oldest(alloc, count, locals)?;
    Ok(Scope {
        path,
        before,
        after,
        at_entry,
        copies,
        locals,
        interp,
    })
}

fn oldest(alloc: Global, count: usize, locals: Items<Local>) -> Result<Items<Local>, AllocError>
    ensures { IfOk result (λ ls. ls ≡ drop (length locals - count) locals) }
{
    let ended = locals.len().saturating_sub(count);
    let kept = locals.into_vec().into_iter().skip(ended).collect(alloc)?;
    Ok(Items::from_vec(kept))
}
