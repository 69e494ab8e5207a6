//! The scopes of a turn of a loop and of an instance.

ghost use Rattle.std.specs.Prelude.{◌≡◌, ◌∷◌, ◌++◌, [], IfOk};
ghost use Rattle.uc_meaning.specs.Expressions.{at_path};
ghost use Rattle.uc_readings.specs.Scopes.{scope_in};

use crate::copy_locals;
use std::alloc::{AllocError, Global};
use uc_items::Items;
use uc_meaning::Local;
use uc_readings::ScopeRef;

/// The scope of an instance.
pub(crate) fn at_path<'b, 'f: 'b>(scope: &ScopeRef<'f>, path: &'b [u32]) -> ScopeRef<'b>
    ensures { scope_in result ≡ at_path (scope_in scope.now) path.now }
{
    ScopeRef {
        path,
        locals: &[],
        ..*scope
    }
}

/// The path of an instance of the one at a path.
pub(crate) fn path_of(alloc: Global, path: &[u32], name: u32) -> Result<Items<u32>, AllocError>
    ensures { IfOk result (λ p. p ≡ path.now ++ name ∷ []) }
{
    let mut inside = Items::from_slice(alloc, path)?;
    inside.push(name)?;
    Ok(inside)
}

/// The locals with one more, which is the newest.
pub(crate) fn with_local(
    alloc: Global,
    locals: &[Local],
    newest: Local,
) -> Result<Items<Local>, AllocError>
    ensures { IfOk result (λ ls. ls ≡ newest ∷ locals.now) }
{
    let mut all = Items::new(alloc);
    all.push(newest)?;
    let older = copy_locals(alloc, locals)?;
    all.append(older)?;
    Ok(all)
}
