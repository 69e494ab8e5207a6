//! The declarations of functions and defines by their names.

ghost use Rattle.std.specs.Prelude.{◌≡◌, ℕ, Some, nat_eq, IfOk, OnOk};
ghost use Rattle.indexmap.specs.IndexMap.{get};
ghost use Rattle.uc_meaning.specs.Lookup.{or_else};
ghost use Rattle.uc_rules.specs.Names.{only_if};
ghost use Rattle.uc_cycles.specs.Uses.{KnowsCalls, calls_name};

use std::alloc::{AllocError, Global};
use uc_names::Firsts;
use uc_syntax::Decl;

/// The first declaration of a function or a define of each name, by its place among the declarations.
pub(crate) fn calls_of(alloc: Global, declarations: &[Decl]) -> Result<Firsts<usize>, AllocError>
    ensures { IfOk result (λ t. KnowsCalls declarations.now t) }
{
    let mut calls = Firsts::new(alloc);
    for (number, declaration) in declarations.iter().enumerate() {
        enter_call(&mut calls, number, declaration)?;
    }
    Ok(calls)
}

fn enter_call(
    calls: &mut Firsts<usize>,
    number: usize,
    declaration: &Decl,
) -> Result<(), AllocError>
    ensures { OnOk result ((x : ℕ) → get nat_eq calls.new.things x ≡ or_else (get nat_eq calls.old.things x) (only_if (calls_name x declaration.now) (Some number))) }
{
    match declaration {
        Decl::Function(_, identifier, _, _) => {
            calls.enter(identifier.name, Some(number))?;
            Ok(())
        }
        Decl::Define(_, identifier, _, _, _) => {
            calls.enter(identifier.name, Some(number))?;
            Ok(())
        }
        _ => Ok(()),
    }
}
