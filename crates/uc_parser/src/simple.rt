//! Statements without statements in them.

ghost use Rattle.std.specs.Prelude.{◌≡◌};
ghost use Rattle.uc_forms.specs.CountedGives.{Counts};
ghost use Rattle.uc_grammar.specs.Syntax.{call_statement, called_targets, place_of};
ghost use Rattle.uc_parser.specs.ParseStatementsParts.{local, skip, assertion, assumption, havoc, instance_step, assignment, written_targets, changes};
ghost use Rattle.uc_parse_expressions.specs.Reading.{state, form};

use crate::targets::{call_targets, is_there, optional_prime, targets};
use std::alloc::Global;
use uc_forms::Stop;
use uc_grammar::Kind;
use uc_items::{Items, beside};
use uc_parse_expressions::{
    Reader, arguments, expr_before, expressions, in_name, name_of, new_ids, ty,
};
use uc_syntax::{Identifier, Place, Stmt, Target};

#[tactic(auto, unfolding(crate::specs::ParseStatementsParts::local))]
pub(crate) fn local(reader: &mut Reader<'_>, levels: u8) -> Result<Stmt, Stop>
    ensures { Counts result (state reader.new) (form levels local (state reader.old)) }
{
    let word = reader.take(Kind::KwVar)?;
    let names = new_ids(reader, levels)?;
    reader.take(Kind::Colon)?;
    let ty = ty(reader, levels)?;
    let (ty, _) = beside(ty, reader.take(Kind::Semicolon))?;
    Ok(Stmt::Local(word.place, names, ty))
}

#[tactic(auto, unfolding(crate::specs::ParseStatementsParts::skip))]
pub(crate) fn skip(reader: &mut Reader<'_>, levels: u8) -> Result<Stmt, Stop>
    ensures { Counts result (state reader.new) (form levels skip (state reader.old)) }
{
    let word = reader.take(Kind::KwSkip)?;
    reader.take(Kind::Semicolon)?;
    Ok(Stmt::Skip(word.place))
}

#[tactic(auto, unfolding(crate::specs::ParseStatementsParts::assertion))]
pub(crate) fn assertion(reader: &mut Reader<'_>, levels: u8) -> Result<Stmt, Stop>
    ensures { Counts result (state reader.new) (form levels assertion (state reader.old)) }
{
    let word = reader.take(Kind::KwAssert)?;
    if reader.is_at_label() {
        let name = reader.take_name()?;
        reader.take(Kind::Colon)?;
        let condition = expr_before(reader, levels, Kind::Semicolon)?;
        let label = Identifier {
            place: name.place,
            name: name_of(name.kind),
        };
        return Ok(Stmt::Assert(word.place, Some(label), condition));
    }
    let condition = expr_before(reader, levels, Kind::Semicolon)?;
    Ok(Stmt::Assert(word.place, None, condition))
}

#[tactic(auto, unfolding(crate::specs::ParseStatementsParts::assumption))]
pub(crate) fn assumption(reader: &mut Reader<'_>, levels: u8) -> Result<Stmt, Stop>
    ensures { Counts result (state reader.new) (form levels assumption (state reader.old)) }
{
    let word = reader.take(Kind::KwAssume)?;
    let condition = expr_before(reader, levels, Kind::Semicolon)?;
    Ok(Stmt::Assume(word.place, condition))
}

#[tactic(auto, unfolding(crate::specs::ParseStatementsParts::havoc))]
pub(crate) fn havoc(reader: &mut Reader<'_>, levels: u8) -> Result<Stmt, Stop>
    ensures { Counts result (state reader.new) (form levels havoc (state reader.old)) }
{
    let word = reader.take(Kind::KwHavoc)?;
    let name = reader.id()?;
    let prime = optional_prime(reader, levels)?;
    reader.take(Kind::Semicolon)?;
    Ok(Stmt::Havoc(word.place, name, is_there(prime)))
}

/// A call, a step of an instance or an assignment.
pub(crate) fn changes(reader: &mut Reader<'_>, levels: u8) -> Result<Stmt, Stop>
    ensures { Counts result (state reader.new) (form levels changes (state reader.old)) }
{
    if reader.is_at(Kind::KwCall) {
        return call_statement(reader, levels);
    }
    if reader.is_at(Kind::KwNext) {
        return instance_step(reader, levels);
    }
    assignment(reader, levels)
}

#[tactic(auto, unfolding(uc_grammar::specs::Syntax::call_statement))]
fn call_statement(reader: &mut Reader<'_>, levels: u8) -> Result<Stmt, Stop>
    ensures { Counts result (state reader.new) (form levels call_statement (state reader.old)) }
{
    let word = reader.take(Kind::KwCall)?;
    let written = written_targets(reader, levels)?;
    let procedure = reader.id()?;
    let arguments = arguments(reader, levels)?;
    reader.take(Kind::Semicolon)?;
    let targets = called_targets(reader.alloc, written);
    Ok(Stmt::Call(word.place, targets, procedure, arguments))
}

/// Targets in parentheses and `=`, where a parenthesis comes next.
fn written_targets(reader: &mut Reader<'_>, levels: u8) -> Result<Option<Items<Target>>, Stop>
    ensures { Counts result (state reader.new) (form levels written_targets (state reader.old)) }
{
    if reader.is_at(Kind::LeftParen) {
        let found = call_targets(reader, levels)?;
        reader.take(Kind::Assign)?;
        return Ok(Some(found));
    }
    Ok(None)
}

/// No targets where none are written.
fn called_targets(alloc: Global, written: Option<Items<Target>>) -> Items<Target>
    ensures { result ≡ called_targets written }
{
    match written {
        Some(targets) => targets,
        None => Items::new(alloc),
    }
}

#[tactic(auto, unfolding(crate::specs::ParseStatementsParts::instance_step))]
fn instance_step(reader: &mut Reader<'_>, levels: u8) -> Result<Stmt, Stop>
    ensures { Counts result (state reader.new) (form levels instance_step (state reader.old)) }
{
    let word = reader.take(Kind::KwNext)?;
    let name = in_name(reader, levels)?;
    reader.take(Kind::Semicolon)?;
    Ok(Stmt::Next(word.place, name))
}

#[tactic(auto, unfolding(crate::specs::ParseStatementsParts::assignment))]
fn assignment(reader: &mut Reader<'_>, levels: u8) -> Result<Stmt, Stop>
    ensures { Counts result (state reader.new) (form levels assignment (state reader.old)) }
{
    let targets = targets(reader, levels)?;
    reader.take(Kind::Assign)?;
    let values = expressions(reader, levels)?;
    reader.take(Kind::Semicolon)?;
    Ok(Stmt::Assign(place_of(targets.as_slice()), targets, values))
}

/// The place of the first target.
fn place_of(targets: &[Target]) -> Place
    ensures { result ≡ place_of targets.now }
{
    match targets {
        [first, ..] => first.place,
        [] => Place {
            file: 0,
            line: 0,
            col: 0,
        },
    }
}
