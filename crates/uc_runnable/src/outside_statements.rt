//! Statements.

ghost use Rattle.std.specs.Prelude.{◌≡◌};
ghost use Rattle.std.specs.Option.{option_or};
ghost use Rattle.uc_meaning.specs.Lookup.{first_some};
ghost use Rattle.uc_runnable.specs.Outside.{outside_statement, outside_block};
ghost use Rattle.uc_runnable.specs.Parts.{arm_in, else_in};

use crate::numbers::{number_in, number_in_all, number_in_targets};
use crate::outside_types::outside_type;
use uc_items::Items;
use uc_syntax::{Arm, Place, Stmt};

#[cycle(outside_block)]
fn outside_statement(statement: &Stmt) -> Option<Place>
    ensures { result ≡ outside_statement statement.now }
{
    match statement {
        Stmt::Local(_, _, ty) => outside_type(ty),
        Stmt::Skip(_) => None,
        Stmt::Block(_, block) => outside_block(block.as_slice()),
        Stmt::Assert(place, _, _) => Some(*place),
        Stmt::Assume(_, condition) => number_in(condition),
        Stmt::Havoc(_, _, _) => None,
        Stmt::Assign(_, targets, sources) => {
            number_in_targets(targets.as_slice()).or(number_in_all(sources.as_slice()))
        }
        Stmt::If(_, arms, otherwise) => {
            outside_arms(arms.as_slice()).or(outside_else(otherwise))
        }
        Stmt::Case(_, arms, otherwise) => {
            outside_arms(arms.as_slice()).or(outside_else(otherwise))
        }
        Stmt::For(place, _, _, _, _, _) => Some(*place),
        Stmt::Call(_, targets, _, arguments) => {
            number_in_targets(targets.as_slice()).or(number_in_all(arguments.as_slice()))
        }
        Stmt::Next(_, _) => None,
    }
}

/// The place of the first form in statements that does not run today.
#[cycle(outside_block)]
#[tactic(auto, unfolding(uc_meaning::specs::Lookup::first_some))]
pub(crate) fn outside_block(block: &[Stmt]) -> Option<Place>
    ensures { result ≡ outside_block block.now }
{
    for statement in block {
        let found = outside_statement(statement);
        if found.is_some() {
            return found;
        }
    }
    None
}

#[cycle(outside_block)]
#[tactic(auto, unfolding(uc_meaning::specs::Lookup::first_some))]
fn outside_arms(arms: &[Arm<Stmt>]) -> Option<Place>
    ensures { result ≡ first_some arm_in arms.now }
{
    for arm in arms {
        let found = number_in(&arm.condition).or(outside_block(arm.body.as_slice()));
        if found.is_some() {
            return found;
        }
    }
    None
}

#[cycle(outside_block)]
fn outside_else(otherwise: &Option<Items<Stmt>>) -> Option<Place>
    ensures { result ≡ else_in otherwise.now }
{
    match otherwise {
        None => None,
        Some(block) => outside_block(block.as_slice()),
    }
}
