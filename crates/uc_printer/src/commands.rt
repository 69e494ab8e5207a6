//! The words of commands.

ghost use Rattle.std.specs.Prelude.{◌≡◌, OnOk};
ghost use Rattle.uc_grammar.specs.declared.word.Kind.TheVariants as kinds;
ghost use Rattle.uc_print_laws.specs.Text.{written};
ghost use Rattle.uc_print_laws.specs.Printed.{each, joined};
ghost use Rattle.uc_print_laws.specs.Declarations.{command_words, counterexample_words, path_words, run_words};

use std::alloc::AllocError;
use uc_grammar::Kind;
use uc_items::Items;
use uc_print_laws::{Page, put_identifiers, put_name, put_sign};
use uc_syntax::{Command, Identifier, Names, WrittenRun};

fn put_run(page: &mut Page, names: &Names, run: WrittenRun) -> Result<(), AllocError>
    ensures { OnOk result (page.new ≡ written names.now page.old (run_words run).words) }
{
    match run {
        WrittenRun::Unroll(steps) => {
            put_sign(page, Kind::Unroll(0))?;
            put_sign(page, Kind::LeftParen)?;
            put_sign(page, Kind::Number(steps))?;
            put_sign(page, Kind::RightParen)?;
            Ok(())
        }
        WrittenRun::Induction(None) => put_sign(page, Kind::Induction(0)),
        WrittenRun::Induction(Some(steps)) => {
            put_sign(page, Kind::Induction(0))?;
            put_sign(page, Kind::LeftParen)?;
            put_sign(page, Kind::Number(steps))?;
            put_sign(page, Kind::RightParen)?;
            Ok(())
        }
        WrittenRun::Verify(procedure) => {
            put_sign(page, Kind::Verify(0))?;
            put_sign(page, Kind::LeftParen)?;
            put_name(page, names, procedure.name)?;
            put_sign(page, Kind::RightParen)?;
            Ok(())
        }
    }
}

/// Puts paths with commas between neighbours.
fn put_paths(page: &mut Page, names: &Names, paths: &[Items<Identifier>]) -> Result<(), AllocError>
    ensures { OnOk result (page.new ≡ written names.now page.old (joined kinds.Comma path_words paths.now).words) }
{
    let Some((first, rest)) = paths.split_first() else {
        return Ok(());
    };
    put_identifiers(page, names, first.as_slice(), Kind::Dot)?;
    'rest: for one in rest {
        put_sign(page, Kind::Comma)?;
        put_identifiers(page, names, one.as_slice(), Kind::Dot)?;
    }
    Ok(())
}

#[tactic(auto, using(crate::proofs::DeclarationWords::counterexamples_text))]
fn put_counterexamples(
    page: &mut Page,
    names: &Names,
    paths: &Option<Items<Items<Identifier>>>,
) -> Result<(), AllocError>
    ensures { OnOk result (page.new ≡ written names.now page.old (counterexample_words paths.now).words) }
{
    put_sign(page, Kind::PrintCex(0))?;
    match paths {
        None => put_sign(page, Kind::Semicolon),
        Some(paths) => {
            put_sign(page, Kind::LeftParen)?;
            put_paths(page, names, paths.as_slice())?;
            put_sign(page, Kind::RightParen)?;
            put_sign(page, Kind::Semicolon)?;
            Ok(())
        }
    }
}

#[tactic(auto, using(crate::proofs::DeclarationWords::run_text, crate::proofs::DeclarationWords::named_run_text))]
fn put_command(page: &mut Page, names: &Names, command: &Command) -> Result<(), AllocError>
    ensures { OnOk result (page.new ≡ written names.now page.old (command_words command.now).words) }
{
    match command {
        Command::Run(_, None, run) => {
            put_run(page, names, *run)?;
            put_sign(page, Kind::Semicolon)?;
            Ok(())
        }
        Command::Run(_, Some(name), run) => {
            put_name(page, names, name.name)?;
            put_sign(page, Kind::Assign)?;
            put_run(page, names, *run)?;
            put_sign(page, Kind::Semicolon)?;
            Ok(())
        }
        Command::Check(_) => {
            put_sign(page, Kind::Check(0))?;
            put_sign(page, Kind::Semicolon)?;
            Ok(())
        }
        Command::PrintResults(_) => {
            put_sign(page, Kind::PrintResults(0))?;
            put_sign(page, Kind::Semicolon)?;
            Ok(())
        }
        Command::PrintCounterexamples(_, None, paths) => put_counterexamples(page, names, paths),
        Command::PrintCounterexamples(_, Some(name), paths) => {
            put_name(page, names, name.name)?;
            put_sign(page, Kind::Dot)?;
            put_counterexamples(page, names, paths)?;
            Ok(())
        }
    }
}

/// Puts commands, one after the other.
pub fn put_commands(page: &mut Page, names: &Names, commands: &[Command]) -> Result<(), AllocError>
    ensures { OnOk result (page.new ≡ written names.now page.old (each command_words commands.now).words) }
{
    'commands: for command in commands {
        put_command(page, names, command)?;
    }
    Ok(())
}
