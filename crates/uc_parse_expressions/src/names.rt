//! Names with commas between them.

ghost use Rattle.std.specs.Prelude.{◌≡◌};
ghost use Rattle.uc_forms.specs.Form.{after, many};
ghost use Rattle.uc_forms.specs.Counted.{with_front};
ghost use Rattle.uc_forms.specs.CountedGives.{Counts, Leaves};
ghost use Rattle.uc_grammar.specs.declared.word.Kind.TheVariants.{Comma};
ghost use Rattle.uc_grammar.specs.Syntax.{listed, id, new_id};
ghost use Rattle.uc_parse_expressions.specs.Reading.{state, form};

use crate::Reader;
use uc_forms::Stop;
use uc_grammar::Kind;
use uc_items::Items;
use uc_syntax::Identifier;

/// One name or more. No name is nested, so any number of levels will do.
pub fn ids(reader: &mut Reader<'_>, levels: u8) -> Result<Items<Identifier>, Stop>
    ensures { Counts result (state reader.new) (form levels (listed id) (state reader.old)) }
{
    let first = reader.id()?;
    let mut found = Items::new(reader.alloc);
    found.push(first)?;
    more_ids(reader, levels, &mut found)?;
    Ok(found)
}

fn more_ids(reader: &mut Reader<'_>, levels: u8, found: &mut Items<Identifier>) -> Result<(), Stop>
    ensures { Leaves found.new result (state reader.new) (with_front found.old (form levels (many (after Comma id)) (state reader.old))) }
{
    'turns: while reader.is_at(Kind::Comma) {
        reader.take(Kind::Comma)?;
        let next = reader.id()?;
        found.push(next)?;
    }
    Ok(())
}

/// One name or more, each declared. No name is nested, so any number of levels will do.
pub fn new_ids(reader: &mut Reader<'_>, levels: u8) -> Result<Items<Identifier>, Stop>
    ensures { Counts result (state reader.new) (form levels (listed new_id) (state reader.old)) }
{
    let first = reader.new_id()?;
    let mut found = Items::new(reader.alloc);
    found.push(first)?;
    more_new_ids(reader, levels, &mut found)?;
    Ok(found)
}

fn more_new_ids(
    reader: &mut Reader<'_>,
    levels: u8,
    found: &mut Items<Identifier>,
) -> Result<(), Stop>
    ensures { Leaves found.new result (state reader.new) (with_front found.old (form levels (many (after Comma new_id)) (state reader.old))) }
{
    'turns: while reader.is_at(Kind::Comma) {
        reader.take(Kind::Comma)?;
        let next = reader.new_id()?;
        found.push(next)?;
    }
    Ok(())
}
