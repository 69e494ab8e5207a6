//! The words of targets, and of the statements that write them.

ghost use Rattle.std.specs.Prelude.{◌≡◌, OnOk};
ghost use Rattle.uc_grammar.specs.declared.word.Kind.TheVariants as kinds;
ghost use Rattle.uc_print_laws.specs.Text.{written};
ghost use Rattle.uc_print_laws.specs.Printed.{◌<+>◌, each, identifier, joined, listed, sign};
ghost use Rattle.uc_print_laws.specs.Expressions.{enclosed, printed_expr};
ghost use Rattle.uc_print_laws.specs.Statements.{called_words, part_words, target_words};

use crate::{put_expression, put_expressions, put_primed_name};
use std::alloc::AllocError;
use uc_grammar::Kind;
use uc_print_laws::{Page, put_name, put_sign};
use uc_syntax::{Expr, Identifier, Names, Target, TargetPart};

#[tactic(auto, using(crate::proofs::StatementWords::element_text))]
fn put_part(page: &mut Page, names: &Names, part: &TargetPart) -> Result<(), AllocError>
    ensures { OnOk result (page.new ≡ written names.now page.old (part_words part.now).words) }
{
    match part {
        TargetPart::Field(_, name) => {
            put_sign(page, Kind::Dot)?;
            put_name(page, names, name.name)?;
            Ok(())
        }
        TargetPart::Element(_, index) => {
            put_sign(page, Kind::LeftBracket)?;
            put_expression(page, names, index)?;
            put_sign(page, Kind::RightBracket)?;
            Ok(())
        }
    }
}

fn put_parts(page: &mut Page, names: &Names, parts: &[TargetPart]) -> Result<(), AllocError>
    ensures { OnOk result (page.new ≡ written names.now page.old (each part_words parts.now).words) }
{
    'parts: for part in parts {
        put_part(page, names, part)?;
    }
    Ok(())
}

#[tactic(auto, using(crate::proofs::StatementWords::target_text))]
fn put_target(page: &mut Page, names: &Names, target: &Target) -> Result<(), AllocError>
    ensures { OnOk result (page.new ≡ written names.now page.old (target_words target.now).words) }
{
    put_primed_name(page, names, target.name, target.is_primed)?;
    put_parts(page, names, target.parts.as_slice())?;
    Ok(())
}

/// Puts targets with commas between neighbours.
fn put_targets(page: &mut Page, names: &Names, targets: &[Target]) -> Result<(), AllocError>
    ensures { OnOk result (page.new ≡ written names.now page.old (joined kinds.Comma target_words targets.now).words) }
{
    let Some((first, rest)) = targets.split_first() else {
        return Ok(());
    };
    put_target(page, names, first)?;
    'rest: for one in rest {
        put_sign(page, Kind::Comma)?;
        put_target(page, names, one)?;
    }
    Ok(())
}

/// Puts what stands before the name of a called procedure.
#[tactic(auto, using(crate::proofs::StatementWords::called_none, crate::proofs::StatementWords::called_text))]
fn put_called(page: &mut Page, names: &Names, targets: &[Target]) -> Result<(), AllocError>
    ensures { OnOk result (page.new ≡ written names.now page.old (called_words targets.now).words) }
{
    if targets.is_empty() {
        return Ok(());
    }
    put_sign(page, Kind::LeftParen)?;
    put_targets(page, names, targets)?;
    put_sign(page, Kind::RightParen)?;
    put_sign(page, Kind::Assign)?;
    Ok(())
}

/// Puts an assignment.
#[tactic(auto, using(crate::proofs::StatementWords::assignment_text))]
pub fn put_assignment(
    page: &mut Page,
    names: &Names,
    targets: &[Target],
    sources: &[Expr],
) -> Result<(), AllocError>
    ensures { OnOk result (page.new ≡ written names.now page.old (listed target_words targets.now <+> (sign kinds.Assign <+> (listed printed_expr sources.now <+> sign kinds.Semicolon))).words) }
{
    put_targets(page, names, targets)?;
    put_sign(page, Kind::Assign)?;
    put_expressions(page, names, sources)?;
    put_sign(page, Kind::Semicolon)?;
    Ok(())
}

/// Puts what stands behind the word `call`.
#[tactic(auto, using(crate::proofs::StatementWords::call_text))]
pub fn put_call(
    page: &mut Page,
    names: &Names,
    targets: &[Target],
    procedure: Identifier,
    arguments: &[Expr],
) -> Result<(), AllocError>
    ensures { OnOk result (page.new ≡ written names.now page.old (called_words targets.now <+> (identifier procedure <+> (enclosed printed_expr arguments.now <+> sign kinds.Semicolon))).words) }
{
    put_called(page, names, targets)?;
    put_name(page, names, procedure.name)?;
    put_sign(page, Kind::LeftParen)?;
    put_expressions(page, names, arguments)?;
    put_sign(page, Kind::RightParen)?;
    put_sign(page, Kind::Semicolon)?;
    Ok(())
}
