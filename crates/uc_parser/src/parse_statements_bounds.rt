//! The bounds of a loop.

ghost use Rattle.uc_forms.specs.CountedGives.{Counts};
ghost use Rattle.uc_grammar.specs.Syntax.{bound, negative_bound, range_bounds};
ghost use Rattle.uc_parse_expressions.specs.Reading.{state, form, nested};

use uc_forms::Stop;
use uc_grammar::Kind;
use uc_parse_expressions::{Reader, value_of, width_of};
use uc_syntax::RangeBound;

const NUMBER: Kind = Kind::Number(0);

const BITS_LITERAL: Kind = Kind::BvLit(0, 0);

/// Two bounds in parentheses.
pub(crate) fn range_bounds(
    reader: &mut Reader<'_>,
    levels: u8,
) -> Result<(RangeBound, RangeBound), Stop>
    ensures { Counts result (state reader.new) (nested levels range_bounds (state reader.old)) }
{
    if levels == 0 {
        return Err(reader.no_level(Kind::LeftParen));
    }
    reader.take(Kind::LeftParen)?;
    let low = bound(reader, levels - 1)?;
    reader.take(Kind::Comma)?;
    let high = bound(reader, levels - 1)?;
    reader.take(Kind::RightParen)?;
    Ok((low, high))
}

/// A number, maybe with a minus before it, or a bit-vector literal.
#[tactic(auto, unfolding(uc_grammar::specs::Syntax::bound))]
fn bound(reader: &mut Reader<'_>, levels: u8) -> Result<RangeBound, Stop>
    ensures { Counts result (state reader.new) (form levels bound (state reader.old)) }
{
    if reader.is_at(Kind::Minus) {
        return negative_bound(reader, levels);
    }
    if reader.is_at(NUMBER) {
        let number = reader.take(NUMBER)?;
        return Ok(RangeBound::Number(number.place, false, value_of(number.kind)));
    }
    let literal = reader.take(BITS_LITERAL)?;
    Ok(RangeBound::BitsLiteral(
        literal.place,
        value_of(literal.kind),
        width_of(literal.kind),
    ))
}

fn negative_bound(reader: &mut Reader<'_>, levels: u8) -> Result<RangeBound, Stop>
    ensures { Counts result (state reader.new) (nested levels negative_bound (state reader.old)) }
{
    if levels == 0 {
        return Err(reader.no_level(Kind::Minus));
    }
    let minus = reader.take(Kind::Minus)?;
    let number = reader.take(NUMBER)?;
    Ok(RangeBound::Number(minus.place, true, value_of(number.kind)))
}
