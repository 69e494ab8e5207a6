//! Reads declarations of types.

ghost use Rattle.uc_forms.specs.Counted.{turned};
ghost use Rattle.uc_forms.specs.CountedGives.{Counts};
ghost use Rattle.uc_grammar.specs.Syntax.{type_declaration};
ghost use Rattle.uc_parser.specs.Parts.{own_type, imported_types, own_type_of};
ghost use Rattle.uc_parse_expressions.specs.Reading.{state, form};

use crate::behind::ty_before;
use uc_forms::Stop;
use uc_grammar::Kind;
use uc_lexer::Place;
use uc_parse_expressions::Reader;
use uc_syntax::{Decl, Identifier};

/// A declared type, behind its keyword, whose place is given.
fn own_type(reader: &mut Reader<'_>, levels: u8, place: Place) -> Result<Decl, Stop>
    ensures { Counts result (state reader.new) (turned (own_type_of place) (form levels own_type (state reader.old))) }
{
    let name = reader.new_id()?;
    if reader.is_at(Kind::Semicolon) {
        reader.take(Kind::Semicolon)?;
        return Ok(Decl::OpaqueType(place, name));
    }
    reader.take(Kind::Assign)?;
    let ty = ty_before(reader, levels, Kind::Semicolon)?;
    Ok(Decl::TypeAlias(place, name, ty))
}

/// The module whose types are taken over, behind the keyword.
fn imported_types(reader: &mut Reader<'_>, levels: u8) -> Result<Identifier, Stop>
    ensures { Counts result (state reader.new) (form levels imported_types (state reader.old)) }
{
    reader.take(Kind::Star)?;
    reader.take(Kind::Assign)?;
    let module = reader.id()?;
    reader.take(Kind::Dot)?;
    reader.take(Kind::Star)?;
    reader.take(Kind::Semicolon)?;
    Ok(module)
}

/// A declaration that begins with `type`.
#[tactic(auto, unfolding(uc_grammar::specs::Syntax::type_declaration))]
pub(crate) fn type_declaration(reader: &mut Reader<'_>, levels: u8) -> Result<Decl, Stop>
    ensures { Counts result (state reader.new) (form levels type_declaration (state reader.old)) }
{
    let word = reader.take(Kind::KwType)?;
    if reader.is_at_name() {
        return own_type(reader, levels, word.place);
    }
    let module = imported_types(reader, levels)?;
    Ok(Decl::TypeImport(word.place, module))
}
