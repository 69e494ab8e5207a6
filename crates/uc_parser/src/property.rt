//! Reads invariants and axioms, those over several copies included.

ghost use Rattle.std.specs.Prelude.{◌≡◌, ◌∷◌, []};
ghost use Rattle.uc_forms.specs.Counted.{count_any};
ghost use Rattle.uc_forms.specs.CountedGives.{Counts};
ghost use Rattle.uc_forms.specs.Form.{quiet};
ghost use Rattle.uc_grammar.specs.declared.word.Kind.TheVariants.{KwHyperinvariant, KwHyperaxiom};
ghost use Rattle.uc_grammar.specs.Syntax.{words, hyper_number, hyper_of};
ghost use Rattle.uc_parser.specs.Parts.{axiom_declaration, hyper, invariant};
ghost use Rattle.uc_parse_expressions.specs.Reading.{state, form, nested};

use uc_forms::Stop;
use uc_grammar::{Kind, Word};
use uc_parse_expressions::{Reader, expr_before, name_of, value_of};
use uc_syntax::{Decl, Expr, Identifier};

/// A number of any value.
const NUMBER: Kind = Kind::Number(0);

/// An invariant, up to the semicolon.
pub(crate) fn invariant(reader: &mut Reader<'_>, levels: u8) -> Result<Decl, Stop>
    ensures { Counts result (state reader.new) (form levels invariant (state reader.old)) }
{
    let word = reader.take(Kind::KwInvariant)?;
    let name = reader.new_id()?;
    reader.take(Kind::Colon)?;
    let formula = expr_before(reader, levels, Kind::Semicolon)?;
    Ok(Decl::Invariant(word.place, name, formula))
}

/// An axiom with or without a name, up to the semicolon.
pub(crate) fn axiom_declaration(reader: &mut Reader<'_>, levels: u8) -> Result<Decl, Stop>
    ensures { Counts result (state reader.new) (form levels axiom_declaration (state reader.old)) }
{
    let word = reader.take(Kind::KwAxiom)?;
    if reader.is_at_label() {
        let label = reader.take_name()?;
        reader.take(Kind::Colon)?;
        reader.names.declare(label);
        let formula = expr_before(reader, levels, Kind::Semicolon)?;
        let name = Identifier {
            place: label.place,
            name: name_of(label.kind),
        };
        return Ok(Decl::Axiom(word.place, Some(name), formula));
    }
    let formula = expr_before(reader, levels, Kind::Semicolon)?;
    Ok(Decl::Axiom(word.place, None, formula))
}

/// The word that a property of several copies begins with.
fn take_hyper(reader: &mut Reader<'_>) -> Result<Word, Stop>
    ensures { Counts result (state reader.new) (count_any words quiet KwHyperinvariant (KwHyperaxiom ∷ []) (state reader.old)) }
{
    if reader.is_at(Kind::KwHyperinvariant) {
        return reader.take(Kind::KwHyperinvariant);
    }
    reader.take(Kind::KwHyperaxiom)
}

/// The number of copies in brackets.
fn hyper_number(reader: &mut Reader<'_>, levels: u8) -> Result<u128, Stop>
    ensures { Counts result (state reader.new) (nested levels hyper_number (state reader.old)) }
{
    if levels == 0 {
        return Err(reader.no_level(Kind::LeftBracket));
    }
    reader.take(Kind::LeftBracket)?;
    let number = reader.take(NUMBER)?;
    reader.take(Kind::RightBracket)?;
    Ok(value_of(number.kind))
}

/// The property, by the word that it begins with.
fn hyper_of(word: Word, copies: u128, name: Identifier, formula: Expr) -> Decl
    ensures { result ≡ hyper_of (word, (copies, (name, formula))) }
{
    match word.kind {
        Kind::KwHyperaxiom => Decl::Hyperaxiom(word.place, copies, name, formula),
        _ => Decl::Hyperinvariant(word.place, copies, name, formula),
    }
}

/// An invariant or an axiom of several copies, up to the semicolon.
pub(crate) fn hyper(reader: &mut Reader<'_>, levels: u8) -> Result<Decl, Stop>
    ensures { Counts result (state reader.new) (form levels hyper (state reader.old)) }
{
    let word = take_hyper(reader)?;
    let copies = hyper_number(reader, levels)?;
    let name = reader.new_id()?;
    reader.take(Kind::Colon)?;
    let formula = expr_before(reader, levels, Kind::Semicolon)?;
    Ok(hyper_of(word, copies, name, formula))
}
