//! The words of statements and blocks.

ghost use Rattle.std.specs.Prelude.{◌≡◌, true, OnOk};
ghost use Rattle.uc_print_laws.specs.Text.{written};
ghost use Rattle.uc_printer.specs.PrintStatementsParts.{arms_words, guarded, opened};
ghost use Rattle.uc_print_laws.specs.Printed.{each};
ghost use Rattle.uc_print_laws.specs.Statements.{printed_stmt};
ghost use Rattle.uc_print_laws.specs.Declarations.{code_words};

use crate::parts::{put_labelled, put_loop_head, put_typed_names};
use crate::targets::{put_assignment, put_call};
use crate::{put_expression, put_primed_name};
use std::alloc::AllocError;
use uc_grammar::Kind;
use uc_print_laws::{Page, put_name, put_sign};
use uc_syntax::{Arm, Names, Stmt};

/// Puts a block: statements in braces.
#[cycle(print_statements)]
pub fn put_block(page: &mut Page, names: &Names, block: &[Stmt]) -> Result<(), AllocError>
    ensures { OnOk result (page.new ≡ written names.now page.old (code_words block.now).words) }
{
    put_sign(page, Kind::LeftBrace)?;
    'block: for statement in block {
        put_statement(page, names, statement)?;
    }
    put_sign(page, Kind::RightBrace)?;
    Ok(())
}

/// Puts what an arm of `if` begins with.
fn put_if(page: &mut Page, is_first: bool) -> Result<(), AllocError>
    ensures { OnOk result (page.new ≡ opened is_first page.old) }
{
    if is_first {
        put_sign(page, Kind::KwIf)?;
        return Ok(());
    }
    put_sign(page, Kind::KwElse)?;
    put_sign(page, Kind::KwIf)?;
    Ok(())
}

/// Puts the arms of `if`, each but the first behind `else`.
#[cycle(print_statements)]
fn put_arms(page: &mut Page, names: &Names, arms: &[Arm<Stmt>]) -> Result<(), AllocError>
    ensures { OnOk result (page.new ≡ written names.now page.old (arms_words true arms.now).words) }
{
    let mut is_first = true;
    'arms: for one in arms {
        put_if(page, is_first)?;
        put_expression(page, names, &one.condition)?;
        put_sign(page, Kind::LeftBrace)?;
        let block = one.body.as_slice();
        'block: for statement in block {
            put_statement(page, names, statement)?;
        }
        put_sign(page, Kind::RightBrace)?;
        is_first = false;
    }
    Ok(())
}

/// Puts the arms of `case`.
#[cycle(print_statements)]
fn put_guarded(page: &mut Page, names: &Names, arms: &[Arm<Stmt>]) -> Result<(), AllocError>
    ensures { OnOk result (page.new ≡ written names.now page.old (each guarded arms.now).words) }
{
    'arms: for one in arms {
        put_expression(page, names, &one.condition)?;
        put_sign(page, Kind::Colon)?;
        put_sign(page, Kind::LeftBrace)?;
        let block = one.body.as_slice();
        'block: for statement in block {
            put_statement(page, names, statement)?;
        }
        put_sign(page, Kind::RightBrace)?;
    }
    Ok(())
}

#[cycle(print_statements)]
#[tactic(auto, using(crate::proofs::StatementWords::local_text, crate::proofs::StatementWords::skip_text, crate::proofs::StatementWords::block_text, crate::proofs::StatementWords::assert_text, crate::proofs::StatementWords::assume_text, crate::proofs::StatementWords::havoc_text, crate::proofs::StatementWords::assign_text, crate::proofs::StatementWords::no_arms_text, crate::proofs::StatementWords::if_alone_text, crate::proofs::StatementWords::if_else_text, crate::proofs::StatementWords::case_text, crate::proofs::StatementWords::case_default_text, crate::proofs::StatementWords::for_text, crate::proofs::StatementWords::call_statement_text, crate::proofs::StatementWords::next_text))]
fn put_statement(page: &mut Page, names: &Names, statement: &Stmt) -> Result<(), AllocError>
    ensures { OnOk result (page.new ≡ written names.now page.old (printed_stmt statement.now).words) }
{
    match statement {
        Stmt::Local(_, identifiers, ty) => {
            put_sign(page, Kind::KwVar)?;
            put_typed_names(page, names, identifiers.as_slice(), ty)?;
            Ok(())
        }
        Stmt::Skip(_) => {
            put_sign(page, Kind::KwSkip)?;
            put_sign(page, Kind::Semicolon)?;
            Ok(())
        }
        Stmt::Block(_, block) => put_block(page, names, block.as_slice()),
        Stmt::Assert(_, label, condition) => {
            put_sign(page, Kind::KwAssert)?;
            put_labelled(page, names, *label, condition)?;
            Ok(())
        }
        Stmt::Assume(_, condition) => {
            put_sign(page, Kind::KwAssume)?;
            put_expression(page, names, condition)?;
            put_sign(page, Kind::Semicolon)?;
            Ok(())
        }
        Stmt::Havoc(_, name, is_primed) => {
            put_sign(page, Kind::KwHavoc)?;
            put_primed_name(page, names, name.name, *is_primed)?;
            put_sign(page, Kind::Semicolon)?;
            Ok(())
        }
        Stmt::Assign(_, targets, sources) => {
            put_assignment(page, names, targets.as_slice(), sources.as_slice())?;
            Ok(())
        }
        Stmt::If(_, arms, otherwise) => {
            if arms.is_empty() {
                return Ok(());
            }
            put_arms(page, names, arms.as_slice())?;
            match otherwise {
                None => Ok(()),
                Some(block) => {
                    put_sign(page, Kind::KwElse)?;
                    put_block(page, names, block.as_slice())?;
                    Ok(())
                }
            }
        }
        Stmt::Case(_, arms, otherwise) => {
            put_sign(page, Kind::KwCase)?;
            put_guarded(page, names, arms.as_slice())?;
            match otherwise {
                None => put_sign(page, Kind::KwEsac),
                Some(block) => {
                    put_sign(page, Kind::KwDefault)?;
                    put_sign(page, Kind::Colon)?;
                    put_block(page, names, block.as_slice())?;
                    put_sign(page, Kind::KwEsac)?;
                    Ok(())
                }
            }
        }
        Stmt::For(_, variable, ty, from, to, body) => {
            put_loop_head(page, names, *variable, ty, *from, *to)?;
            put_block(page, names, body.as_slice())?;
            Ok(())
        }
        Stmt::Call(_, targets, procedure, arguments) => {
            put_sign(page, Kind::KwCall)?;
            put_call(
                page,
                names,
                targets.as_slice(),
                *procedure,
                arguments.as_slice(),
            )?;
            Ok(())
        }
        Stmt::Next(_, instance) => {
            put_sign(page, Kind::KwNext)?;
            put_sign(page, Kind::LeftParen)?;
            put_name(page, names, instance.name)?;
            put_sign(page, Kind::RightParen)?;
            put_sign(page, Kind::Semicolon)?;
            Ok(())
        }
    }
}
