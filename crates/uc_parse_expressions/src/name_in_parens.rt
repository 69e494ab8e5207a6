//! A name in parentheses.

ghost use Rattle.uc_forms.specs.CountedGives.{Counts};
ghost use Rattle.uc_grammar.specs.Syntax as syntax;
ghost use Rattle.uc_parse_expressions.specs.Reading.{state, nested};

use crate::Reader;
use uc_forms::Stop;
use uc_grammar::Kind;
use uc_syntax::Identifier;

/// `( Id )`
pub fn in_name(reader: &mut Reader<'_>, levels: u8) -> Result<Identifier, Stop>
    ensures { Counts result (state reader.new) (nested levels syntax.in_name (state reader.old)) }
{
    if levels == 0 {
        return Err(reader.no_level(Kind::LeftParen));
    }
    reader.take(Kind::LeftParen)?;
    let name = reader.id()?;
    reader.take(Kind::RightParen)?;
    Ok(name)
}
