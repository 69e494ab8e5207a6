//! The declarations of a module.

ghost use Rattle.std.specs.Prelude.{◌≡◌, ◌&&◌};
ghost use Rattle.std.specs.List.{list_all};
ghost use Rattle.uc_meaning.specs.Fragment.{is_control, at_most_one};
ghost use Rattle.uc_runnable.specs.Plain.{is_plain_decl, is_plain};

use crate::blocks::at_most_one_control;
use crate::commands::all_run;
use crate::fragment_types::spares_arrays;
use uc_syntax::{Decl, Module};

fn is_plain_decl(decl: &Decl) -> bool
    ensures { result ≡ is_plain_decl decl.now }
{
    match decl {
        Decl::TypeAlias(_, _, ty) => spares_arrays(ty),
        Decl::TypeImport(..) => true,
        Decl::Variables(..) => true,
        Decl::Init(..) => true,
        Decl::Next(..) => true,
        Decl::Invariant(..) => true,
        Decl::Axiom(..) => true,
        Decl::Control(_, commands) => all_run(commands.as_slice()),
        Decl::OpaqueType(..) => false,
        Decl::Function(..) => false,
        Decl::Define(..) => false,
        Decl::Procedure(..) => false,
        Decl::Instance(..) => false,
        Decl::Hyperinvariant(..) => false,
        Decl::Hyperaxiom(..) => false,
    }
}

fn are_plain(decls: &[Decl]) -> bool
    ensures { result ≡ list_all is_plain_decl decls.now }
{
    decls.iter().all(|decl| is_plain_decl(decl))
}

/// Whether the declarations of a module are of the fragment that runs. It takes no memory.
pub fn is_plain(code: &Module) -> bool
    ensures { result ≡ is_plain code.now }
{
    let decls = code.decls.as_slice();
    are_plain(decls) && at_most_one_control(decls)
}
