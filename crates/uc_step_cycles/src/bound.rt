//! The names of an instance's module to which something is bound.

ghost use Rattle.std.specs.Prelude.{◌≡◌, ℕ, nat_eq, IfOk};
ghost use Rattle.indexmap.specs.IndexMap.{get};
ghost use Rattle.uc_syntax.specs.declared.expression.Expr.TheViews.{out-Expr};
ghost use Rattle.uc_meaning.specs.Code.{name_form, name_of_primary};
ghost use Rattle.uc_step_cycles.specs.Bound.{KnowsBound};

use std::alloc::{AllocError, Global};
use uc_names::Firsts;
use uc_syntax::{Binding, Expr, Primary};

/// For each name to which something is bound, the parent's name that this is, if it is a name.
pub(crate) fn bound_of(
    alloc: Global,
    bindings: &[Binding],
) -> Result<Firsts<Option<u32>>, AllocError>
    ensures { IfOk result (λ t. KnowsBound bindings.now t) }
{
    let mut bound = Firsts::new(alloc);
    for binding in bindings {
        bound.enter(binding.identifier.name, Some(name_in(&binding.expression)))?;
    }
    Ok(bound)
}

/// The name that an expression begins with, if it is a name and what is selected of it.
fn name_in(expression: &Expr) -> Option<u32>
    ensures { result ≡ name_form (out-Expr expression.now) }
{
    match expression {
        Expr::Selected(_, primary, _) => name_of(primary),
        _ => None,
    }
}

fn name_of(primary: &Primary<Expr>) -> Option<u32>
    ensures { result ≡ name_of_primary primary.now }
{
    match primary {
        Primary::Name(name, _) => Some(*name),
        _ => None,
    }
}
