//! Types.

ghost use Rattle.std.specs.Prelude.{◌≡◌};
ghost use Rattle.uc_forms.specs.Form.{after, many};
ghost use Rattle.uc_forms.specs.Counted.{with_front};
ghost use Rattle.uc_forms.specs.CountedGives.{Counts, Leaves};
ghost use Rattle.uc_grammar.specs.declared.word.Kind.TheVariants.{Comma};
ghost use Rattle.uc_grammar.specs.Syntax.{listed, ty, parameter, enum_braces, record_braces, array};
ghost use Rattle.uc_parse_expressions.specs.Tails.{braced, named};
ghost use Rattle.uc_parse_expressions.specs.Reading.{state, form, nested};

use crate::names::new_ids;
use crate::{Reader, name_of, width_of};
use uc_forms::Stop;
use uc_grammar::Kind;
use uc_items::{Boxed, Items};
use uc_syntax::{Identifier, Parameter, TypeExpr};

const BIT_VECTOR: Kind = Kind::BvType(0);

#[cycle(types)]
#[tactic(auto, unfolding(uc_grammar::specs::Syntax::ty))]
pub fn ty(reader: &mut Reader<'_>, levels: u8) -> Result<TypeExpr, Stop>
    ensures { Counts result (state reader.new) (form levels ty (state reader.old)) }
{
    if reader.is_at(Kind::KwBoolean) {
        let word = reader.take(Kind::KwBoolean)?;
        return Ok(TypeExpr::Boolean(word.place));
    }
    if reader.is_at(Kind::KwInteger) {
        let word = reader.take(Kind::KwInteger)?;
        return Ok(TypeExpr::Integer(word.place));
    }
    if reader.is_at(BIT_VECTOR) {
        let word = reader.take(BIT_VECTOR)?;
        return Ok(TypeExpr::Bits(word.place, width_of(word.kind)));
    }
    braced(reader, levels)
}

/// An enum, a record, an array or a name.
#[cycle(types)]
#[tactic(auto, unfolding(crate::specs::Tails::braced))]
fn braced(reader: &mut Reader<'_>, levels: u8) -> Result<TypeExpr, Stop>
    ensures { Counts result (state reader.new) (form levels braced (state reader.old)) }
{
    if reader.is_at(Kind::KwEnum) {
        let word = reader.take(Kind::KwEnum)?;
        let labels = enum_braces(reader, levels)?;
        return Ok(TypeExpr::Enumeration(word.place, labels));
    }
    if reader.is_at(Kind::KwRecord) {
        let word = reader.take(Kind::KwRecord)?;
        let fields = record_braces(reader, levels)?;
        return Ok(TypeExpr::Record(word.place, fields));
    }
    if reader.is_at(Kind::LeftBracket) {
        return array(reader, levels);
    }
    named(reader, levels)
}

#[tactic(auto, unfolding(crate::specs::Tails::named))]
fn named(reader: &mut Reader<'_>, levels: u8) -> Result<TypeExpr, Stop>
    ensures { Counts result (state reader.new) (form levels named (state reader.old)) }
{
    let first = reader.take_name()?;
    if reader.is_at(Kind::Dot) {
        reader.take(Kind::Dot)?;
        let member = reader.id()?;
        return Ok(TypeExpr::OfModule(first.place, name_of(first.kind), member));
    }
    Ok(TypeExpr::Named(first.place, name_of(first.kind)))
}

fn enum_braces(reader: &mut Reader<'_>, levels: u8) -> Result<Items<Identifier>, Stop>
    ensures { Counts result (state reader.new) (nested levels enum_braces (state reader.old)) }
{
    if levels == 0 {
        return Err(reader.no_level(Kind::LeftBrace));
    }
    reader.take(Kind::LeftBrace)?;
    let labels = new_ids(reader, levels - 1)?;
    reader.take(Kind::RightBrace)?;
    Ok(labels)
}

#[cycle(types)]
fn record_braces(reader: &mut Reader<'_>, levels: u8) -> Result<Items<Parameter<TypeExpr>>, Stop>
    ensures { Counts result (state reader.new) (nested levels record_braces (state reader.old)) }
{
    if levels == 0 {
        return Err(reader.no_level(Kind::LeftBrace));
    }
    reader.take(Kind::LeftBrace)?;
    let fields = parameters(reader, levels - 1)?;
    reader.take(Kind::RightBrace)?;
    Ok(fields)
}

#[cycle(types)]
fn array(reader: &mut Reader<'_>, levels: u8) -> Result<TypeExpr, Stop>
    ensures { Counts result (state reader.new) (nested levels array (state reader.old)) }
{
    if levels == 0 {
        return Err(reader.no_level(Kind::LeftBracket));
    }
    let bracket = reader.take(Kind::LeftBracket)?;
    let index = ty(reader, levels - 1)?;
    reader.take(Kind::RightBracket)?;
    let element = ty(reader, levels - 1)?;
    let index = Boxed::new(reader.alloc, index)?;
    let element = Boxed::new(reader.alloc, element)?;
    Ok(TypeExpr::Array(bracket.place, index, element))
}

/// A name with its type. The name is declared.
#[cycle(types)]
pub fn parameter(reader: &mut Reader<'_>, levels: u8) -> Result<Parameter<TypeExpr>, Stop>
    ensures { Counts result (state reader.new) (form levels parameter (state reader.old)) }
{
    let identifier = reader.new_id()?;
    reader.take(Kind::Colon)?;
    let ty = ty(reader, levels)?;
    Ok(Parameter { identifier, ty })
}

#[cycle(types)]
pub(crate) fn parameters(
    reader: &mut Reader<'_>,
    levels: u8,
) -> Result<Items<Parameter<TypeExpr>>, Stop>
    ensures { Counts result (state reader.new) (form levels (listed parameter) (state reader.old)) }
{
    let first = parameter(reader, levels)?;
    let mut found = Items::new(reader.alloc);
    found.push(first)?;
    more_parameters(reader, levels, &mut found)?;
    Ok(found)
}

#[cycle(types)]
fn more_parameters(
    reader: &mut Reader<'_>,
    levels: u8,
    found: &mut Items<Parameter<TypeExpr>>,
) -> Result<(), Stop>
    ensures { Leaves found.new result (state reader.new) (with_front found.old (form levels (many (after Comma parameter)) (state reader.old))) }
{
    'turns: while reader.is_at(Kind::Comma) {
        reader.take(Kind::Comma)?;
        let next = parameter(reader, levels)?;
        found.push(next)?;
    }
    Ok(())
}
