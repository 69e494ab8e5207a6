//! Statements that change no cells, or one cell of any value.

ghost use Rattle.std.specs.Option.{option_and_then, option_map};
ghost use Rattle.uc_flat_expressions.specs.Expressions.{flat_of};
ghost use Rattle.uc_flat_code.specs.Code.{assume_of, havoc_of, havocked};
ghost use Rattle.uc_flat_code.specs.Init.{alone, plainly};
ghost use Rattle.uc_flat_code.specs.FlatInitWalk.{IsWalked};

use crate::assigning::plainly;
use crate::made::MadeCode;
use crate::{assume, havoc};
use std::alloc::Global;
use uc_flat_expressions::{FlatError, Meant};
use uc_syntax::Expr;

/// A condition is assumed.
pub(crate) fn assumed(alloc: Global, names: &[Meant], e: &Expr) -> Result<MadeCode, FlatError>
    ensures { IsWalked (option_map (alone names.now) (option_and_then assume_of (flat_of names.now e.now))) names.now result }
{
    let code = assume(alloc, names, e)?;
    Ok(MadeCode::alone(alloc, code))
}

/// A cell takes any value of its type, which is a choice.
pub(crate) fn chosen_again(
    alloc: Global,
    names: &[Meant],
    name: u32,
    primed: bool,
) -> Result<MadeCode, FlatError>
    ensures { IsWalked (option_map (λ k. alone names.now (havoc_of plainly k)) (havocked names.now plainly name primed)) names.now result }
{
    let code = havoc(alloc, names, plainly(), name, primed)?;
    Ok(MadeCode::alone(alloc, code))
}
