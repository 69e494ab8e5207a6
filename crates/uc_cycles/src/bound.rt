//! The names that the parameters of a define bind.

ghost use Rattle.std.specs.Prelude.{◌≡◌, ℕ, nat_eq, map, IfOk};
ghost use Rattle.std.specs.List.{list_any};
ghost use Rattle.uc_rules.specs.Names.{names_one_of};
ghost use Rattle.uc_rules.specs.Reads.{parameter_names};

use std::alloc::{AllocError, Global};
use std::marker::Model;
use uc_syntax::{Parameter, TypeExpr};
use uc_type_names::NameSet;

/// Parameters, with the set of their names.
#[derive(Drop)]
pub(crate) struct Bound<'a> {
    parameters: &'a [Parameter<TypeExpr>],
    names: NameSet,
}

impl<'a> Model for Bound<'a> {
    ghost use Rattle.std.specs.Prelude.{List, ℕ};
    ghost use Rattle.uc_rules.specs.Reads.{parameter_names};
    ghost use Rattle.uc_cycles.specs.Bounds.{SameNames};

    ghost Value = { List ℕ };

    ghost view = { λ b. parameter_names b.parameters.now };

    ghost invariant = { λ b. SameNames b.names (parameter_names b.parameters.now) };
}

impl<'a> Bound<'a> {
    /// The names of some parameters.
    pub(crate) fn of(
        alloc: Global,
        parameters: &'a [Parameter<TypeExpr>],
    ) -> Result<Bound<'a>, AllocError>
        ensures { IfOk result (λ b. b ≡ parameter_names parameters.now) }
    {
        let names = names_of(alloc, parameters)?;
        Ok(Bound { parameters, names })
    }

    /// Whether a name is bound.
    pub(crate) fn contains(&self, name: u32) -> bool
        ensures { result ≡ list_any (nat_eq name) self.now }
    {
        self.names.contains(name)
    }
}

fn names_of(alloc: Global, parameters: &[Parameter<TypeExpr>]) -> Result<NameSet, AllocError>
    ensures { IfOk result (λ names. (x : ℕ) → names_one_of names x ≡ names_one_of (parameter_names parameters.now) x) }
{
    let mut names = NameSet::new(alloc);
    for parameter in parameters {
        names.insert(parameter.identifier.name)?;
    }
    Ok(names)
}
