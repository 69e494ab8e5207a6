//! Reads commands.

ghost use Rattle.std.specs.Prelude.{◌≡◌, Some};
ghost use Rattle.uc_forms.specs.Counted.{turned};
ghost use Rattle.uc_forms.specs.CountedGives.{Counts};
ghost use Rattle.uc_forms.specs.Form.{before, after, codes_of, member, until, word};
ghost use Rattle.uc_grammar.specs.Code.{code_of};
ghost use Rattle.uc_grammar.specs.Syntax.{command, control_braces, counterexample, run, identifier, words};
ghost use Rattle.uc_grammar.specs.declared.word.Kind.TheVariants.{Assign, Dot, Name, RightBrace, Semicolon};
ghost use Rattle.uc_parser.specs.ParseCommandsParts.{unroll_command, induction_command, verify_command, check_command, results_command, counterexample_command, plain, plain_name, plain_command, other_command};
ghost use Rattle.uc_parse_expressions.specs.Reading.{state, form, nested};
ghost use Rattle.uc_syntax.specs.declared.declaration.Command.TheVariants as commands;

use crate::parse_commands_bounds::{in_number, optional_number};
use crate::paths::{PRINT_CEX, counterexample, optional_paths};
use crate::run::{INDUCTION, UNROLL, VERIFY, run};
use uc_forms::{Fault, Stop};
use uc_grammar::{Kind, Word};
use uc_items::Items;
use uc_parse_expressions::{Reader, in_name, name_of};
use uc_syntax::{Command, Identifier, WrittenRun};

/// The names of the commands, whatever their numbers are.
const CHECK: Kind = Kind::Check(0);

const PRINT_RESULTS: Kind = Kind::PrintResults(0);

/// The word, which is a name, as an identifier.
fn identifier(word: Word) -> Identifier
    ensures { result ≡ identifier word }
{
    Identifier {
        place: word.place,
        name: name_of(word.kind),
    }
}

/// Whether words of this kind are names that begin no command of their own.
fn is_plain_name(kind: Kind) -> bool
    ensures { result ≡ member (code_of kind) (codes_of words (Name 0) plain) }
{
    matches!(kind, Kind::Name(_) | Kind::OnBits(_, _) | Kind::Range(_))
}

/// A run whose name is the word before.
fn named_run(reader: &mut Reader<'_>, levels: u8, word: Word) -> Result<Command, Stop>
    ensures { Counts result (state reader.new) (turned (λ r. commands.Run word.place (Some (identifier word)) r.1) (form levels (after Assign (before run Semicolon)) (state reader.old))) }
{
    reader.take(Kind::Assign)?;
    let (_, run) = run(reader, levels)?;
    reader.take(Kind::Semicolon)?;
    Ok(Command::Run(word.place, Some(identifier(word)), run))
}

/// The counterexamples of the command whose name is the word before.
fn named_counterexample(reader: &mut Reader<'_>, levels: u8, word: Word) -> Result<Command, Stop>
    ensures { Counts result (state reader.new) (turned (λ ps. commands.PrintCounterexamples word.place (Some (identifier word)) ps) (form levels (after Dot counterexample) (state reader.old))) }
{
    reader.take(Kind::Dot)?;
    let paths = counterexample(reader, levels)?;
    Ok(Command::PrintCounterexamples(word.place, Some(identifier(word)), paths))
}

fn unroll_command(reader: &mut Reader<'_>, levels: u8) -> Result<Command, Stop>
    ensures { Counts result (state reader.new) (form levels unroll_command (state reader.old)) }
{
    let word = reader.take(UNROLL)?;
    if reader.is_at(Kind::Assign) {
        return named_run(reader, levels, word);
    }
    if reader.is_at(Kind::Dot) {
        return named_counterexample(reader, levels, word);
    }
    let bound = in_number(reader, levels)?;
    reader.take(Kind::Semicolon)?;
    Ok(Command::Run(word.place, None, WrittenRun::Unroll(bound)))
}

fn induction_command(reader: &mut Reader<'_>, levels: u8) -> Result<Command, Stop>
    ensures { Counts result (state reader.new) (form levels induction_command (state reader.old)) }
{
    let word = reader.take(INDUCTION)?;
    if reader.is_at(Kind::Assign) {
        return named_run(reader, levels, word);
    }
    if reader.is_at(Kind::Dot) {
        return named_counterexample(reader, levels, word);
    }
    let bound = optional_number(reader, levels)?;
    reader.take(Kind::Semicolon)?;
    Ok(Command::Run(word.place, None, WrittenRun::Induction(bound)))
}

fn verify_command(reader: &mut Reader<'_>, levels: u8) -> Result<Command, Stop>
    ensures { Counts result (state reader.new) (form levels verify_command (state reader.old)) }
{
    let word = reader.take(VERIFY)?;
    if reader.is_at(Kind::Assign) {
        return named_run(reader, levels, word);
    }
    if reader.is_at(Kind::Dot) {
        return named_counterexample(reader, levels, word);
    }
    let procedure = in_name(reader, levels)?;
    reader.take(Kind::Semicolon)?;
    Ok(Command::Run(word.place, None, WrittenRun::Verify(procedure)))
}

fn check_command(reader: &mut Reader<'_>, levels: u8) -> Result<Command, Stop>
    ensures { Counts result (state reader.new) (form levels check_command (state reader.old)) }
{
    let word = reader.take(CHECK)?;
    if reader.is_at(Kind::Assign) {
        return named_run(reader, levels, word);
    }
    if reader.is_at(Kind::Dot) {
        return named_counterexample(reader, levels, word);
    }
    reader.take(Kind::Semicolon)?;
    Ok(Command::Check(word.place))
}

fn results_command(reader: &mut Reader<'_>, levels: u8) -> Result<Command, Stop>
    ensures { Counts result (state reader.new) (form levels results_command (state reader.old)) }
{
    let word = reader.take(PRINT_RESULTS)?;
    if reader.is_at(Kind::Assign) {
        return named_run(reader, levels, word);
    }
    if reader.is_at(Kind::Dot) {
        return named_counterexample(reader, levels, word);
    }
    reader.take(Kind::Semicolon)?;
    Ok(Command::PrintResults(word.place))
}

fn counterexample_command(reader: &mut Reader<'_>, levels: u8) -> Result<Command, Stop>
    ensures { Counts result (state reader.new) (form levels counterexample_command (state reader.old)) }
{
    let word = reader.take(PRINT_CEX)?;
    if reader.is_at(Kind::Assign) {
        return named_run(reader, levels, word);
    }
    if reader.is_at(Kind::Dot) {
        return named_counterexample(reader, levels, word);
    }
    let paths = optional_paths(reader, levels)?;
    reader.take(Kind::Semicolon)?;
    Ok(Command::PrintCounterexamples(word.place, None, paths))
}

/// A name that begins no command of its own.
fn take_plain_name(reader: &mut Reader<'_>) -> Result<Word, Stop>
    ensures { Counts result (state reader.new) (form 0 plain_name (state reader.old)) }
{
    match reader.rest {
        [word, rest @ ..] if is_plain_name(word.kind) => {
            reader.rest = rest;
            Ok(*word)
        }
        _ => Err(Stop::At(Fault::Syntax)),
    }
}

/// A command that begins with a name of its own.
fn plain_command(reader: &mut Reader<'_>, levels: u8) -> Result<Command, Stop>
    ensures { Counts result (state reader.new) (form levels plain_command (state reader.old)) }
{
    let word = take_plain_name(reader)?;
    if reader.is_at(Kind::Assign) {
        return named_run(reader, levels, word);
    }
    named_counterexample(reader, levels, word)
}

/// A command that begins with the name of no run.
fn other_command(reader: &mut Reader<'_>, levels: u8) -> Result<Command, Stop>
    ensures { Counts result (state reader.new) (form levels other_command (state reader.old)) }
{
    if reader.is_at(CHECK) {
        return check_command(reader, levels);
    }
    if reader.is_at(PRINT_RESULTS) {
        return results_command(reader, levels);
    }
    if reader.is_at(PRINT_CEX) {
        return counterexample_command(reader, levels);
    }
    plain_command(reader, levels)
}

/// A command, up to its semicolon.
#[tactic(auto, unfolding(uc_grammar::specs::Syntax::command))]
fn command(reader: &mut Reader<'_>, levels: u8) -> Result<Command, Stop>
    ensures { Counts result (state reader.new) (form levels command (state reader.old)) }
{
    if reader.is_at(UNROLL) {
        return unroll_command(reader, levels);
    }
    if reader.is_at(INDUCTION) {
        return induction_command(reader, levels);
    }
    if reader.is_at(VERIFY) {
        return verify_command(reader, levels);
    }
    other_command(reader, levels)
}

/// The commands up to the closing brace.
fn commands(reader: &mut Reader<'_>, levels: u8) -> Result<Items<Command>, Stop>
    ensures { Counts result (state reader.new) (turned (λ x. x.0) (form levels (until command (word RightBrace)) (state reader.old))) }
{
    let mut found = Items::new(reader.alloc);
    'turns: while !reader.is_at(Kind::RightBrace) {
        let next = command(reader, levels)?;
        found.push(next)?;
    }
    reader.take(Kind::RightBrace)?;
    Ok(found)
}

/// The commands of a control block, with its braces.
pub fn control_braces(reader: &mut Reader<'_>, levels: u8) -> Result<Items<Command>, Stop>
    ensures { Counts result (state reader.new) (nested levels control_braces (state reader.old)) }
{
    if levels == 0 {
        return Err(reader.no_level(Kind::LeftBrace));
    }
    reader.take(Kind::LeftBrace)?;
    commands(reader, levels - 1)
}
