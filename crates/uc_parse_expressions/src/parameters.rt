//! Parameters in parentheses.

ghost use Rattle.uc_forms.specs.CountedGives.{Counts};
ghost use Rattle.uc_grammar.specs.Syntax.{params, results, typed_name};
ghost use Rattle.uc_parse_expressions.specs.Reading.{state, nested};

use crate::Reader;
use crate::types::{parameter, parameters};
use uc_forms::Stop;
use uc_grammar::Kind;
use uc_items::Items;
use uc_syntax::{Parameter, TypeExpr};

/// Parentheses with any number of parameters.
pub fn params(reader: &mut Reader<'_>, levels: u8) -> Result<Items<Parameter<TypeExpr>>, Stop>
    ensures { Counts result (state reader.new) (nested levels params (state reader.old)) }
{
    if levels == 0 {
        return Err(reader.no_level(Kind::LeftParen));
    }
    reader.take(Kind::LeftParen)?;
    if reader.is_at(Kind::RightParen) {
        reader.take(Kind::RightParen)?;
        return Ok(Items::new(reader.alloc));
    }
    let found = parameters(reader, levels - 1)?;
    reader.take(Kind::RightParen)?;
    Ok(found)
}

/// Parentheses with one parameter or more: what a procedure gives back.
pub fn results(reader: &mut Reader<'_>, levels: u8) -> Result<Items<Parameter<TypeExpr>>, Stop>
    ensures { Counts result (state reader.new) (nested levels results (state reader.old)) }
{
    if levels == 0 {
        return Err(reader.no_level(Kind::LeftParen));
    }
    reader.take(Kind::LeftParen)?;
    let found = parameters(reader, levels - 1)?;
    reader.take(Kind::RightParen)?;
    Ok(found)
}

/// Parentheses with one parameter.
pub fn typed_name(reader: &mut Reader<'_>, levels: u8) -> Result<Parameter<TypeExpr>, Stop>
    ensures { Counts result (state reader.new) (nested levels typed_name (state reader.old)) }
{
    if levels == 0 {
        return Err(reader.no_level(Kind::LeftParen));
    }
    reader.take(Kind::LeftParen)?;
    let found = parameter(reader, levels - 1)?;
    reader.take(Kind::RightParen)?;
    Ok(found)
}
