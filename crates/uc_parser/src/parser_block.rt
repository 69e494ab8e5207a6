//! Reads the declarations that have a block: procedures, `init`, `next` and `control`.

ghost use Rattle.uc_forms.specs.CountedGives.{Counts};
ghost use Rattle.uc_parser.specs.Parts.{procedure_declaration, init, next, control};
ghost use Rattle.uc_parse_expressions.specs.Reading.{state, form};

use crate::procedure::procedure;
use crate::{control_braces, statements};
use uc_forms::Stop;
use uc_grammar::Kind;
use uc_parse_expressions::Reader;
use uc_syntax::Decl;

pub(crate) fn procedure_declaration(reader: &mut Reader<'_>, levels: u8) -> Result<Decl, Stop>
    ensures { Counts result (state reader.new) (form levels procedure_declaration (state reader.old)) }
{
    let word = reader.take(Kind::KwProcedure)?;
    let declared = procedure(reader, levels)?;
    Ok(Decl::Procedure(word.place, declared))
}

pub(crate) fn init(reader: &mut Reader<'_>, levels: u8) -> Result<Decl, Stop>
    ensures { Counts result (state reader.new) (form levels init (state reader.old)) }
{
    let word = reader.take(Kind::KwInit)?;
    let block = statements(reader, levels)?;
    Ok(Decl::Init(word.place, block))
}

pub(crate) fn next(reader: &mut Reader<'_>, levels: u8) -> Result<Decl, Stop>
    ensures { Counts result (state reader.new) (form levels next (state reader.old)) }
{
    let word = reader.take(Kind::KwNext)?;
    let block = statements(reader, levels)?;
    Ok(Decl::Next(word.place, block))
}

pub(crate) fn control(reader: &mut Reader<'_>, levels: u8) -> Result<Decl, Stop>
    ensures { Counts result (state reader.new) (form levels control (state reader.old)) }
{
    let word = reader.take(Kind::KwControl)?;
    let commands = control_braces(reader, levels)?;
    Ok(Decl::Control(word.place, commands))
}
