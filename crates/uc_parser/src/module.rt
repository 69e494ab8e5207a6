//! Reads modules.

ghost use Rattle.std.specs.Prelude.{◌∷◌, []};
ghost use Rattle.uc_forms.specs.Counted.{turned};
ghost use Rattle.uc_forms.specs.CountedGives.{Counts};
ghost use Rattle.uc_forms.specs.Form.{until, word};
ghost use Rattle.uc_grammar.specs.declared.word.Kind.TheVariants.{RightBrace};
ghost use Rattle.uc_grammar.specs.Syntax.{declaration, module_braces, module_form, text};
ghost use Rattle.uc_parse_expressions.specs.Reading.{state, form, nested};

use crate::declaration::declaration;
use uc_forms::Stop;
use uc_grammar::Kind;
use uc_items::Items;
use uc_parse_expressions::{Reader, name_of};
use uc_syntax::{Decl, Module};

/// The declarations up to the closing brace.
fn declarations(reader: &mut Reader<'_>, levels: u8) -> Result<Items<Decl>, Stop>
    ensures { Counts result (state reader.new) (turned (λ x. x.0) (form levels (until declaration (word RightBrace)) (state reader.old))) }
{
    let mut found = Items::new(reader.alloc);
    'turns: while !reader.is_at(Kind::RightBrace) {
        let next = declaration(reader, levels)?;
        found.push(next)?;
    }
    reader.take(Kind::RightBrace)?;
    Ok(found)
}

/// The declarations of a module, with the braces.
fn module_braces(reader: &mut Reader<'_>, levels: u8) -> Result<Items<Decl>, Stop>
    ensures { Counts result (state reader.new) (nested levels module_braces (state reader.old)) }
{
    if levels == 0 {
        return Err(reader.no_level(Kind::LeftBrace));
    }
    reader.take(Kind::LeftBrace)?;
    declarations(reader, levels - 1)
}

/// A module.
#[tactic(auto, unfolding(uc_grammar::specs::Syntax::module_form))]
fn module_form(reader: &mut Reader<'_>, levels: u8) -> Result<Module, Stop>
    ensures { Counts result (state reader.new) (form levels module_form (state reader.old)) }
{
    let word = reader.restart(Kind::KwModule)?;
    let name = reader.take_name()?;
    let decls = module_braces(reader, levels)?;
    Ok(Module {
        place: word.place,
        name: name_of(name.kind),
        decls,
    })
}

/// The modules at the front of the words.
pub(crate) fn modules(reader: &mut Reader<'_>, levels: u8) -> Result<Items<Module>, Stop>
    ensures { Counts result (state reader.new) (form levels text (state reader.old)) }
{
    let mut found = Items::new(reader.alloc);
    'turns: while reader.is_at(Kind::KwModule) {
        let next = module_form(reader, levels)?;
        found.push(next)?;
    }
    Ok(found)
}
