//! Declarations and modules.

ghost use Rattle.std.specs.Prelude.{◌≡◌, Some};
ghost use Rattle.std.specs.Option.{option_or};
ghost use Rattle.uc_meaning.specs.Lookup.{first_some};
ghost use Rattle.uc_runnable.specs.Outside.{outside_declaration, outside_module, outside_in};

use crate::commands::outside_commands;
use crate::numbers::number_in;
use crate::outside_statements::outside_block;
use crate::outside_types::outside_type;
use uc_syntax::{Decl, Module, Place};

/// The place of the first form that does not run today, in the order of the texts. `main` is the number of the module that is judged.
/// It takes no memory.
pub fn outside_in(modules: &[Module], main: u32) -> Option<Place>
    ensures { result ≡ outside_in modules.now main }
{
    match modules {
        [] => None,
        [first, behind @ ..] => {
            if main == 0 {
                outside_module(first).or(first_place(behind))
            } else {
                Some(first.place)
            }
        }
    }
}

/// Where the first of modules begins.
#[tactic(auto, unfolding(uc_meaning::specs::Lookup::first_some))]
fn first_place(modules: &[Module]) -> Option<Place>
    ensures { result ≡ first_some (λ m. Some m.place) modules.now }
{
    match modules {
        [] => None,
        [first, ..] => Some(first.place),
    }
}

#[tactic(auto, unfolding(uc_meaning::specs::Lookup::first_some))]
fn outside_module(code: &Module) -> Option<Place>
    ensures { result ≡ outside_module code.now }
{
    for declaration in code.decls.as_slice() {
        let found = outside_declaration(declaration);
        if found.is_some() {
            return found;
        }
    }
    None
}

fn outside_declaration(declaration: &Decl) -> Option<Place>
    ensures { result ≡ outside_declaration declaration.now }
{
    match declaration {
        Decl::OpaqueType(place, _) => Some(*place),
        Decl::TypeAlias(_, _, ty) => outside_type(ty),
        Decl::TypeImport(..) => None,
        Decl::Variables(_, _, _, ty) => outside_type(ty),
        Decl::Function(place, _, _, _) => Some(*place),
        Decl::Define(place, _, _, _, _) => Some(*place),
        Decl::Procedure(place, _) => Some(*place),
        Decl::Instance(place, _, _, _) => Some(*place),
        Decl::Init(_, block) => outside_block(block.as_slice()),
        Decl::Next(_, block) => outside_block(block.as_slice()),
        Decl::Invariant(_, _, formula) => number_in(formula),
        Decl::Axiom(_, _, formula) => number_in(formula),
        Decl::Hyperinvariant(place, _, _, _) => Some(*place),
        Decl::Hyperaxiom(place, _, _, _) => Some(*place),
        Decl::Control(_, commands) => outside_commands(commands.as_slice()),
    }
}
