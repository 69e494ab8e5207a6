//! Reads declarations.

ghost use Rattle.uc_forms.specs.CountedGives.{Counts};
ghost use Rattle.uc_grammar.specs.Syntax.{declaration};
ghost use Rattle.uc_parser.specs.Parts.{behavior, property};
ghost use Rattle.uc_parse_expressions.specs.Reading.{state, form};

use crate::instance::instance;
use crate::parser_block::{control, init, next, procedure_declaration};
use crate::property::{axiom_declaration, hyper, invariant};
use crate::type_declaration::type_declaration;
use crate::variable::{define, function, is_at_variables, variables};
use uc_forms::Stop;
use uc_grammar::Kind;
use uc_parse_expressions::Reader;
use uc_syntax::Decl;

/// A declaration.
#[tactic(auto, unfolding(uc_grammar::specs::Syntax::declaration, uc_grammar::specs::Syntax::type_declaration))]
pub(crate) fn declaration(reader: &mut Reader<'_>, levels: u8) -> Result<Decl, Stop>
    ensures { Counts result (state reader.new) (form levels declaration (state reader.old)) }
{
    if reader.is_at(Kind::KwType) {
        return type_declaration(reader, levels);
    }
    if is_at_variables(reader) {
        return variables(reader, levels);
    }
    if reader.is_at(Kind::KwFunction) {
        return function(reader, levels);
    }
    if reader.is_at(Kind::KwDefine) {
        return define(reader, levels);
    }
    behavior(reader, levels)
}

/// A declaration of what happens, or a property of it.
fn behavior(reader: &mut Reader<'_>, levels: u8) -> Result<Decl, Stop>
    ensures { Counts result (state reader.new) (form levels behavior (state reader.old)) }
{
    if reader.is_at(Kind::KwProcedure) {
        return procedure_declaration(reader, levels);
    }
    if reader.is_at(Kind::KwInstance) {
        return instance(reader, levels);
    }
    if reader.is_at(Kind::KwInit) {
        return init(reader, levels);
    }
    if reader.is_at(Kind::KwNext) {
        return next(reader, levels);
    }
    property(reader, levels)
}

/// A property, or the control block.
fn property(reader: &mut Reader<'_>, levels: u8) -> Result<Decl, Stop>
    ensures { Counts result (state reader.new) (form levels property (state reader.old)) }
{
    if reader.is_at(Kind::KwInvariant) {
        return invariant(reader, levels);
    }
    if reader.is_at(Kind::KwAxiom) {
        return axiom_declaration(reader, levels);
    }
    if reader.is_at(Kind::KwHyperinvariant) || reader.is_at(Kind::KwHyperaxiom) {
        return hyper(reader, levels);
    }
    control(reader, levels)
}
