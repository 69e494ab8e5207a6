//! What assignments and calls write.

ghost use Rattle.std.specs.Prelude.{◌≡◌, ◌∷◌, []};
ghost use Rattle.uc_forms.specs.Form.{after, many, word};
ghost use Rattle.uc_forms.specs.Reading.{is_at};
ghost use Rattle.uc_forms.specs.Counted.{with_front};
ghost use Rattle.uc_forms.specs.CountedGives.{Counts, Leaves};
ghost use Rattle.uc_grammar.specs.Code.{code_of};
ghost use Rattle.uc_grammar.specs.declared.word.Kind.TheVariants.{Comma, Prime, Dot, LeftBracket};
ghost use Rattle.uc_grammar.specs.Syntax.{words, listed, optional, has, target, targets, target_part, target_index, call_targets};
ghost use Rattle.uc_parse_expressions.specs.Reading.{state, form, nested};

use uc_forms::Stop;
use uc_grammar::{Kind, Word};
use uc_items::Items;
use uc_parse_expressions::{Reader, expr_before, name_of};
use uc_syntax::{Target, TargetPart};

/// One target or more.
pub(crate) fn targets(reader: &mut Reader<'_>, levels: u8) -> Result<Items<Target>, Stop>
    ensures { Counts result (state reader.new) (form levels targets (state reader.old)) }
{
    let first = target(reader, levels)?;
    let mut found = Items::new(reader.alloc);
    found.push(first)?;
    more_targets(reader, levels, &mut found)?;
    Ok(found)
}

fn more_targets(reader: &mut Reader<'_>, levels: u8, found: &mut Items<Target>) -> Result<(), Stop>
    ensures { Leaves found.new result (state reader.new) (with_front found.old (form levels (many (after Comma target)) (state reader.old))) }
{
    'turns: while reader.is_at(Kind::Comma) {
        reader.take(Kind::Comma)?;
        let next = target(reader, levels)?;
        found.push(next)?;
    }
    Ok(())
}

/// Parentheses with any number of targets.
pub(crate) fn call_targets(reader: &mut Reader<'_>, levels: u8) -> Result<Items<Target>, Stop>
    ensures { Counts result (state reader.new) (nested levels call_targets (state reader.old)) }
{
    if levels == 0 {
        return Err(reader.no_level(Kind::LeftParen));
    }
    reader.take(Kind::LeftParen)?;
    if reader.is_at(Kind::RightParen) {
        reader.take(Kind::RightParen)?;
        return Ok(Items::new(reader.alloc));
    }
    let found = targets(reader, levels - 1)?;
    reader.take(Kind::RightParen)?;
    Ok(found)
}

#[tactic(auto, unfolding(uc_grammar::specs::Syntax::target))]
fn target(reader: &mut Reader<'_>, levels: u8) -> Result<Target, Stop>
    ensures { Counts result (state reader.new) (form levels target (state reader.old)) }
{
    let name = reader.take_name()?;
    let prime = optional_prime(reader, levels)?;
    let parts = target_parts(reader, levels)?;
    Ok(Target {
        place: name.place,
        name: name_of(name.kind),
        is_primed: is_there(prime),
        parts,
    })
}

/// A prime, where one comes next.
pub(crate) fn optional_prime(reader: &mut Reader<'_>, levels: u8) -> Result<Option<Word>, Stop>
    ensures { Counts result (state reader.new) (form levels (optional (word Prime)) (state reader.old)) }
{
    if reader.is_at(Kind::Prime) {
        let prime = reader.take(Kind::Prime)?;
        return Ok(Some(prime));
    }
    Ok(None)
}

/// Whether an optional word was read.
pub(crate) fn is_there(word: Option<Word>) -> bool
    ensures { result ≡ has word }
{
    word.is_some()
}

fn target_parts(reader: &mut Reader<'_>, levels: u8) -> Result<Items<TargetPart>, Stop>
    ensures { Counts result (state reader.new) (form levels (many target_part) (state reader.old)) }
{
    let mut found = Items::new(reader.alloc);
    'turns: while is_at_part(reader) {
        let next = target_part(reader, levels)?;
        found.push(next)?;
    }
    Ok(found)
}

fn is_at_part(reader: &Reader<'_>) -> bool
    ensures { result ≡ is_at words (code_of Dot ∷ code_of LeftBracket ∷ []) reader.now.rest.now }
{
    match reader.rest {
        [] => false,
        [word, ..] => matches!(word.kind, Kind::Dot | Kind::LeftBracket),
    }
}

#[tactic(auto, unfolding(uc_grammar::specs::Syntax::target_part))]
fn target_part(reader: &mut Reader<'_>, levels: u8) -> Result<TargetPart, Stop>
    ensures { Counts result (state reader.new) (form levels target_part (state reader.old)) }
{
    if reader.is_at(Kind::Dot) {
        let dot = reader.take(Kind::Dot)?;
        let field = reader.id()?;
        return Ok(TargetPart::Field(dot.place, field));
    }
    target_index(reader, levels)
}

fn target_index(reader: &mut Reader<'_>, levels: u8) -> Result<TargetPart, Stop>
    ensures { Counts result (state reader.new) (nested levels target_index (state reader.old)) }
{
    if levels == 0 {
        return Err(reader.no_level(Kind::LeftBracket));
    }
    let bracket = reader.take(Kind::LeftBracket)?;
    let index = expr_before(reader, levels - 1, Kind::RightBracket)?;
    Ok(TargetPart::Element(bracket.place, index))
}
