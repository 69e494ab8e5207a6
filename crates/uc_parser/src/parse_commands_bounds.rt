//! What runs have in parentheses: a number, or maybe none.

ghost use Rattle.std.specs.Prelude.{◌≡◌};
ghost use Rattle.uc_forms.specs.Counted.{turned};
ghost use Rattle.uc_forms.specs.Form.{deep};
ghost use Rattle.uc_forms.specs.CountedGives.{Counts};
ghost use Rattle.uc_grammar.specs.Syntax.{in_number, maybe_number, optional, flat};
ghost use Rattle.uc_parse_expressions.specs.Reading.{state, form, nested};

use uc_forms::Stop;
use uc_grammar::Kind;
use uc_parse_expressions::{Reader, value_of};

/// A number of any value.
const NUMBER: Kind = Kind::Number(0);

/// `(` number `)`
pub(crate) fn in_number(reader: &mut Reader<'_>, levels: u8) -> Result<u128, Stop>
    ensures { Counts result (state reader.new) (nested levels in_number (state reader.old)) }
{
    if levels == 0 {
        return Err(reader.no_level(Kind::LeftParen));
    }
    reader.take(Kind::LeftParen)?;
    let number = reader.take(NUMBER)?;
    reader.take(Kind::RightParen)?;
    Ok(value_of(number.kind))
}

/// `(` [number] `)`
fn maybe_number(reader: &mut Reader<'_>, levels: u8) -> Result<Option<u128>, Stop>
    ensures { Counts result (state reader.new) (nested levels maybe_number (state reader.old)) }
{
    if levels == 0 {
        return Err(reader.no_level(Kind::LeftParen));
    }
    reader.take(Kind::LeftParen)?;
    if reader.is_at(Kind::RightParen) {
        reader.take(Kind::RightParen)?;
        return Ok(None);
    }
    let number = reader.take(NUMBER)?;
    reader.take(Kind::RightParen)?;
    Ok(Some(value_of(number.kind)))
}

/// [`(` [number] `)`]
pub(crate) fn optional_number(reader: &mut Reader<'_>, levels: u8) -> Result<Option<u128>, Stop>
    ensures { Counts result (state reader.new) (turned flat (form levels (optional (deep maybe_number)) (state reader.old))) }
{
    if reader.is_at(Kind::LeftParen) {
        return maybe_number(reader, levels);
    }
    Ok(None)
}
