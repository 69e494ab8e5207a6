//! Reads the paths that a counterexample prints.

ghost use Rattle.std.specs.Prelude.{◌≡◌, ◌∷◌, []};
ghost use Rattle.uc_forms.specs.Counted.{turns, with_front};
ghost use Rattle.uc_forms.specs.CountedGives.{Counts, Leaves};
ghost use Rattle.uc_forms.specs.Form.{after, deep};
ghost use Rattle.uc_grammar.specs.Code.{code_of};
ghost use Rattle.uc_grammar.specs.declared.word.Kind.TheVariants.{Comma, Dot};
ghost use Rattle.uc_grammar.specs.Syntax.{words, id, listed, paths, optional, counterexample};
ghost use Rattle.uc_parser.specs.ParseCommandsParts.{path};
ghost use Rattle.uc_parse_expressions.specs.Reading.{state, form, nested};

use uc_forms::Stop;
use uc_grammar::Kind;
use uc_items::Items;
use uc_parse_expressions::Reader;
use uc_syntax::Identifier;

/// The name of the command, whatever its number is.
pub(crate) const PRINT_CEX: Kind = Kind::PrintCex(0);

/// Puts the names behind the dots that follow behind those found before.
fn more_names(
    reader: &mut Reader<'_>,
    levels: u8,
    found: &mut Items<Identifier>,
) -> Result<(), Stop>
    ensures { Leaves found.new result (state reader.new) (with_front found.old (turns words (code_of Dot ∷ []) (form levels (after Dot id)) (state reader.old))) }
{
    'turns: while reader.is_at(Kind::Dot) {
        reader.take(Kind::Dot)?;
        let next = reader.id()?;
        found.push(next)?;
    }
    Ok(())
}

/// Names with dots between them.
fn path(reader: &mut Reader<'_>, levels: u8) -> Result<Items<Identifier>, Stop>
    ensures { Counts result (state reader.new) (form levels path (state reader.old)) }
{
    let first = reader.id()?;
    let mut found = Items::new(reader.alloc);
    found.push(first)?;
    more_names(reader, levels, &mut found)?;
    Ok(found)
}

/// Puts the paths behind the commas that follow behind those found before.
fn more_paths(
    reader: &mut Reader<'_>,
    levels: u8,
    found: &mut Items<Items<Identifier>>,
) -> Result<(), Stop>
    ensures { Leaves found.new result (state reader.new) (with_front found.old (turns words (code_of Comma ∷ []) (form levels (after Comma path)) (state reader.old))) }
{
    'turns: while reader.is_at(Kind::Comma) {
        reader.take(Kind::Comma)?;
        let next = path(reader, levels)?;
        found.push(next)?;
    }
    Ok(())
}

/// Paths with commas between them.
fn listed_paths(reader: &mut Reader<'_>, levels: u8) -> Result<Items<Items<Identifier>>, Stop>
    ensures { Counts result (state reader.new) (form levels (listed path) (state reader.old)) }
{
    let first = path(reader, levels)?;
    let mut found = Items::new(reader.alloc);
    found.push(first)?;
    more_paths(reader, levels, &mut found)?;
    Ok(found)
}

/// Paths with commas between them, and maybe none, in parentheses.
fn paths(reader: &mut Reader<'_>, levels: u8) -> Result<Items<Items<Identifier>>, Stop>
    ensures { Counts result (state reader.new) (nested levels paths (state reader.old)) }
{
    if levels == 0 {
        return Err(reader.no_level(Kind::LeftParen));
    }
    reader.take(Kind::LeftParen)?;
    if reader.is_at(Kind::RightParen) {
        reader.take(Kind::RightParen)?;
        return Ok(Items::new(reader.alloc));
    }
    let found = listed_paths(reader, levels - 1)?;
    reader.take(Kind::RightParen)?;
    Ok(found)
}

/// Paths in parentheses, where there are parentheses.
pub(crate) fn optional_paths(
    reader: &mut Reader<'_>,
    levels: u8,
) -> Result<Option<Items<Items<Identifier>>>, Stop>
    ensures { Counts result (state reader.new) (form levels (optional (deep paths)) (state reader.old)) }
{
    if reader.is_at(Kind::LeftParen) {
        let found = paths(reader, levels)?;
        return Ok(Some(found));
    }
    Ok(None)
}

/// The command for the values of a counterexample, up to its semicolon.
#[tactic(auto, unfolding(uc_grammar::specs::Syntax::counterexample))]
pub(crate) fn counterexample(
    reader: &mut Reader<'_>,
    levels: u8,
) -> Result<Option<Items<Items<Identifier>>>, Stop>
    ensures { Counts result (state reader.new) (form levels counterexample (state reader.old)) }
{
    reader.take(PRINT_CEX)?;
    let found = optional_paths(reader, levels)?;
    reader.take(Kind::Semicolon)?;
    Ok(found)
}
