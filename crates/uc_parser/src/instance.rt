//! Reads instances and what they bind.

ghost use Rattle.std.specs.Prelude.{◌∷◌, []};
ghost use Rattle.uc_forms.specs.Counted.{turns, with_front};
ghost use Rattle.uc_forms.specs.CountedGives.{Counts, Leaves};
ghost use Rattle.uc_forms.specs.Form.{after};
ghost use Rattle.uc_grammar.specs.Code.{code_of};
ghost use Rattle.uc_grammar.specs.declared.word.Kind.TheVariants.{Comma};
ghost use Rattle.uc_grammar.specs.Syntax.{words, listed, binds, bind_value};
ghost use Rattle.uc_parser.specs.Parts.{bind, instance};
ghost use Rattle.uc_parse_expressions.specs.Reading.{state, form, nested};

use uc_forms::Stop;
use uc_grammar::Kind;
use uc_items::Items;
use uc_parse_expressions::{Reader, expr_before};
use uc_syntax::{Binding, Decl, Expr};

/// `(` expression `)`
fn bind_value(reader: &mut Reader<'_>, levels: u8) -> Result<Expr, Stop>
    ensures { Counts result (state reader.new) (nested levels bind_value (state reader.old)) }
{
    if levels == 0 {
        return Err(reader.no_level(Kind::LeftParen));
    }
    reader.take(Kind::LeftParen)?;
    let value = expr_before(reader, levels - 1, Kind::RightParen)?;
    Ok(value)
}

/// A name, and what is bound to it.
fn bind(reader: &mut Reader<'_>, levels: u8) -> Result<Binding, Stop>
    ensures { Counts result (state reader.new) (form levels bind (state reader.old)) }
{
    let identifier = reader.id()?;
    reader.take(Kind::Colon)?;
    let expression = bind_value(reader, levels)?;
    Ok(Binding {
        identifier,
        expression,
    })
}

/// Puts the bindings behind the commas that follow behind those found before.
fn more_binds(reader: &mut Reader<'_>, levels: u8, found: &mut Items<Binding>) -> Result<(), Stop>
    ensures { Leaves found.new result (state reader.new) (with_front found.old (turns words (code_of Comma ∷ []) (form levels (after Comma bind)) (state reader.old))) }
{
    'turns: while reader.is_at(Kind::Comma) {
        reader.take(Kind::Comma)?;
        let next = bind(reader, levels)?;
        found.push(next)?;
    }
    Ok(())
}

/// Bindings with commas between them.
fn listed_binds(reader: &mut Reader<'_>, levels: u8) -> Result<Items<Binding>, Stop>
    ensures { Counts result (state reader.new) (form levels (listed bind) (state reader.old)) }
{
    let first = bind(reader, levels)?;
    let mut found = Items::new(reader.alloc);
    found.push(first)?;
    more_binds(reader, levels, &mut found)?;
    Ok(found)
}

/// Bindings with commas between them, and maybe none, in parentheses.
fn binds(reader: &mut Reader<'_>, levels: u8) -> Result<Items<Binding>, Stop>
    ensures { Counts result (state reader.new) (nested levels binds (state reader.old)) }
{
    if levels == 0 {
        return Err(reader.no_level(Kind::LeftParen));
    }
    reader.take(Kind::LeftParen)?;
    if reader.is_at(Kind::RightParen) {
        reader.take(Kind::RightParen)?;
        return Ok(Items::new(reader.alloc));
    }
    let found = listed_binds(reader, levels - 1)?;
    reader.take(Kind::RightParen)?;
    Ok(found)
}

/// An instance, up to its semicolon.
pub(crate) fn instance(reader: &mut Reader<'_>, levels: u8) -> Result<Decl, Stop>
    ensures { Counts result (state reader.new) (form levels instance (state reader.old)) }
{
    let word = reader.take(Kind::KwInstance)?;
    let name = reader.new_id()?;
    reader.take(Kind::Colon)?;
    let module = reader.id()?;
    let bound = binds(reader, levels)?;
    reader.take(Kind::Semicolon)?;
    Ok(Decl::Instance(word.place, name, module, bound))
}
