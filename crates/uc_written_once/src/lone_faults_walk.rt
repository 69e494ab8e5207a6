//! The code of declarations.

ghost use Rattle.std.specs.Prelude.{◌≡◌};
ghost use Rattle.uc_order_rules.specs.Sizes.{code_in};
ghost use Rattle.uc_order_rules.specs.Writes.{sequential_in};

use uc_syntax::{Decl, Stmt};

/// The code of a declaration.
pub(crate) fn all_code_in(declaration: &Decl) -> &[Stmt]
    ensures { result.now ≡ code_in declaration.now }
{
    match declaration {
        Decl::Init(_, block) => block.as_slice(),
        Decl::Next(_, block) => block.as_slice(),
        Decl::Procedure(_, procedure) => procedure.body.as_slice(),
        _ => &[],
    }
}

/// The sequential code of a declaration.
pub(crate) fn sequential_code_in(declaration: &Decl) -> &[Stmt]
    ensures { result.now ≡ sequential_in declaration.now }
{
    match declaration {
        Decl::Init(_, block) => block.as_slice(),
        Decl::Procedure(_, procedure) => procedure.body.as_slice(),
        _ => &[],
    }
}
