//! A type with a word behind it.

ghost use Rattle.uc_forms.specs.CountedGives.{Counts};
ghost use Rattle.uc_forms.specs.Form.{before};
ghost use Rattle.uc_grammar.specs.Syntax as syntax;
ghost use Rattle.uc_parse_expressions.specs.Reading.{state, form};

use uc_forms::Stop;
use uc_grammar::Kind;
use uc_items::beside;
use uc_parse_expressions::{Reader, ty};
use uc_syntax::TypeExpr;

/// A type, with a word of this kind behind it.
pub(crate) fn ty_before(reader: &mut Reader<'_>, levels: u8, kind: Kind) -> Result<TypeExpr, Stop>
    ensures { Counts result (state reader.new) (form levels (before syntax.ty kind) (state reader.old)) }
{
    let tree = ty(reader, levels)?;
    let (tree, _) = beside(tree, reader.take(kind))?;
    Ok(tree)
}
