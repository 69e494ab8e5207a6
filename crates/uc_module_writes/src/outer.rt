//! The names that are bound to the names of an instance's module.

ghost use Rattle.std.specs.Prelude.{◌≡◌, ℕ, None, Some, IfOk};
ghost use Rattle.uc_syntax.specs.declared.expression.Expr.TheViews.{out-Expr};
ghost use Rattle.uc_meaning.specs.Code.{name_form, name_of_primary};
ghost use Rattle.uc_meaning.specs.Lookup.{InstanceParts};
ghost use Rattle.uc_module_writes.specs.Outer.{outer_by, IsOuter};

use std::alloc::{AllocError, Global};
use uc_names::Firsts;
use uc_syntax::{Binding, Expr, Primary};

/// For each name of an instance's module to which something is bound, the name of the parent that it is, if it is a name.
#[derive(Drop)]
pub struct OuterNames {
    names: Firsts<Option<u32>>,
}

impl OuterNames {
    /// The names that are bound in an instance.
    pub fn of(alloc: Global, bindings: &[Binding]) -> Result<OuterNames, AllocError>
        ensures { IfOk result (λ t. (i : InstanceParts) → i.bindings ≡ bindings.now → IsOuter t i) }
    {
        let mut names = Firsts::new(alloc);
        for binding in bindings {
            names.enter(binding.identifier.name, Some(name_in(&binding.expression)))?;
        }
        Ok(OuterNames { names })
    }

    /// The name of the parent that a name is, if it is one.
    pub fn outer(&self, name: u32) -> Option<u32>
        ensures { result ≡ outer_by self.now name }
    {
        match self.names.get(name) {
            None => None,
            Some(outer) => outer,
        }
    }
}

/// The name that an expression begins with, if it is a name and what is selected of it.
pub fn name_in(expression: &Expr) -> Option<u32>
    ensures { result ≡ name_form (out-Expr expression.now) }
{
    match expression {
        Expr::Selected(_, primary, _) => name_of(primary),
        _ => None,
    }
}

fn name_of(primary: &Primary<Expr>) -> Option<u32>
    ensures { result ≡ name_of_primary primary.now }
{
    match primary {
        Primary::Name(name, _) => Some(*name),
        _ => None,
    }
}
