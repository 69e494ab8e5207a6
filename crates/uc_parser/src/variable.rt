//! Reads declarations of variables, functions and defines.

ghost use Rattle.std.specs.Prelude.{◌≡◌};
ghost use Rattle.uc_forms.specs.Counted.{count_any};
ghost use Rattle.uc_forms.specs.CountedGives.{Counts};
ghost use Rattle.uc_forms.specs.Form.{after, before, codes_of, member, quiet};
ghost use Rattle.uc_forms.specs.Reading.{is_at};
ghost use Rattle.uc_grammar.specs.Code.{code_of};
ghost use Rattle.uc_grammar.specs.declared.word.Kind.TheVariants.{KwVar, Assign, Semicolon};
ghost use Rattle.uc_grammar.specs.Syntax.{words, variable_kind, expr};
ghost use Rattle.uc_parser.specs.Parts.{define, function, variables, variable_kinds};
ghost use Rattle.uc_parse_expressions.specs.Reading.{state, form};

use crate::behind::ty_before;
use uc_forms::{Fault, Stop};
use uc_grammar::{Kind, Word};
use uc_items::beside;
use uc_parse_expressions::{Reader, expr_before, new_ids, params, ty};
use uc_syntax::{Decl, Expr, VariableKind};

/// Whether words of this kind begin a declaration of variables.
fn is_variable_kind(kind: Kind) -> bool
    ensures { result ≡ member (code_of kind) (codes_of words KwVar variable_kinds) }
{
    matches!(
        kind,
        Kind::KwVar | Kind::KwInput | Kind::KwOutput | Kind::KwConst
    )
}

/// Whether the next word begins a declaration of variables.
pub(crate) fn is_at_variables(reader: &Reader<'_>) -> bool
    ensures { result ≡ is_at words (codes_of words KwVar variable_kinds) reader.now.rest.now }
{
    match reader.rest {
        [] => false,
        [word, ..] => is_variable_kind(word.kind),
    }
}

/// The word that a declaration of variables begins with.
fn take_variable_kind(reader: &mut Reader<'_>) -> Result<Word, Stop>
    ensures { Counts result (state reader.new) (count_any words quiet KwVar variable_kinds (state reader.old)) }
{
    match reader.rest {
        [word, rest @ ..] if is_variable_kind(word.kind) => {
            reader.rest = rest;
            Ok(*word)
        }
        _ => Err(Stop::At(Fault::Syntax)),
    }
}

/// What the variables are, by the word of their declaration.
fn variable_kind(kind: Kind) -> VariableKind
    ensures { result ≡ variable_kind kind }
{
    match kind {
        Kind::KwInput => VariableKind::Input,
        Kind::KwOutput => VariableKind::Output,
        Kind::KwConst => VariableKind::Constant,
        _ => VariableKind::Variable,
    }
}

/// Variables of one kind and type, up to the semicolon.
pub(crate) fn variables(reader: &mut Reader<'_>, levels: u8) -> Result<Decl, Stop>
    ensures { Counts result (state reader.new) (form levels variables (state reader.old)) }
{
    let word = take_variable_kind(reader)?;
    let names = new_ids(reader, levels)?;
    reader.take(Kind::Colon)?;
    let ty = ty_before(reader, levels, Kind::Semicolon)?;
    Ok(Decl::Variables(word.place, variable_kind(word.kind), names, ty))
}

/// A function without a body, up to the semicolon.
pub(crate) fn function(reader: &mut Reader<'_>, levels: u8) -> Result<Decl, Stop>
    ensures { Counts result (state reader.new) (form levels function (state reader.old)) }
{
    let word = reader.take(Kind::KwFunction)?;
    let name = reader.new_id()?;
    let parameters = params(reader, levels)?;
    reader.take(Kind::Colon)?;
    let ty = ty_before(reader, levels, Kind::Semicolon)?;
    Ok(Decl::Function(word.place, name, parameters, ty))
}

/// What a define stands for, up to the semicolon.
fn defined(reader: &mut Reader<'_>, levels: u8) -> Result<Expr, Stop>
    ensures { Counts result (state reader.new) (form levels (after Assign (before expr Semicolon)) (state reader.old)) }
{
    reader.take(Kind::Assign)?;
    let body = expr_before(reader, levels, Kind::Semicolon)?;
    Ok(body)
}

/// A define, up to the semicolon.
pub(crate) fn define(reader: &mut Reader<'_>, levels: u8) -> Result<Decl, Stop>
    ensures { Counts result (state reader.new) (form levels define (state reader.old)) }
{
    let word = reader.take(Kind::KwDefine)?;
    let name = reader.new_id()?;
    let parameters = params(reader, levels)?;
    reader.take(Kind::Colon)?;
    let ty = ty(reader, levels)?;
    let (ty, body) = beside(ty, defined(reader, levels))?;
    Ok(Decl::Define(word.place, name, parameters, ty, body))
}
