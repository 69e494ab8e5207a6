//! Statements and blocks.

ghost use Rattle.std.specs.Prelude.{◌≡◌, ◌∷◌, []};
ghost use Rattle.uc_forms.specs.Form.{after, both, deep, until, word};
ghost use Rattle.uc_forms.specs.Reading.{is_at};
ghost use Rattle.uc_forms.specs.Counted.{with_head};
ghost use Rattle.uc_forms.specs.CountedGives.{Counts};
ghost use Rattle.uc_grammar.specs.Code.{code_of};
ghost use Rattle.uc_grammar.specs.declared.word.Kind.TheVariants.{RightBrace, Colon, KwIn, KwDefault, KwEsac, Range};
ghost use Rattle.uc_grammar.specs.Syntax.{words, block, statements, statement, arm, if_statement, case_statement, for_statement, range_bounds};
ghost use Rattle.uc_parser.specs.ParseStatementsParts.{nested_block, conditions, branching, else_branches, case_arm, case_arms, default_arm, loop_variable};
ghost use Rattle.uc_parse_expressions.specs.Reading.{state, form, nested};

use crate::parse_statements_bounds::range_bounds;
use crate::simple::{assertion, assumption, changes, havoc, local, skip};
use uc_forms::Stop;
use uc_grammar::{Kind, Word};
use uc_items::{Items, beside};
use uc_parse_expressions::{Reader, expr, typed_name};
use uc_syntax::{Arm, Identifier, Place, RangeBound, Stmt, TypeExpr};

const RANGE: Kind = Kind::Range(0);

/// A block, with the place of its brace.
#[cycle(statements)]
pub fn block(reader: &mut Reader<'_>, levels: u8) -> Result<(Place, Items<Stmt>), Stop>
    ensures { Counts result (state reader.new) (nested levels block (state reader.old)) }
{
    if levels == 0 {
        return Err(reader.no_level(Kind::LeftBrace));
    }
    let brace = reader.take(Kind::LeftBrace)?;
    let (found, _) = up_to_brace(reader, levels - 1)?;
    Ok((brace.place, found))
}

/// The statements up to the closing brace, and that brace.
#[cycle(statements)]
fn up_to_brace(reader: &mut Reader<'_>, levels: u8) -> Result<(Items<Stmt>, Word), Stop>
    ensures { Counts result (state reader.new) (form levels (until statement (word RightBrace)) (state reader.old)) }
{
    let mut found = Items::new(reader.alloc);
    'turns: while !reader.is_at(Kind::RightBrace) {
        let next = statement(reader, levels)?;
        found.push(next)?;
    }
    let brace = reader.take(Kind::RightBrace)?;
    Ok((found, brace))
}

/// The statements of a block.
#[cycle(statements)]
pub fn statements(reader: &mut Reader<'_>, levels: u8) -> Result<Items<Stmt>, Stop>
    ensures { Counts result (state reader.new) (form levels statements (state reader.old)) }
{
    let (_, found) = block(reader, levels)?;
    Ok(found)
}

#[cycle(statements)]
pub fn statement(reader: &mut Reader<'_>, levels: u8) -> Result<Stmt, Stop>
    ensures { Counts result (state reader.new) (form levels statement (state reader.old)) }
{
    if reader.is_at(Kind::KwVar) {
        return local(reader, levels);
    }
    if reader.is_at(Kind::KwSkip) {
        return skip(reader, levels);
    }
    if reader.is_at(Kind::LeftBrace) {
        return nested_block(reader, levels);
    }
    conditions(reader, levels)
}

#[cycle(statements)]
#[tactic(auto, unfolding(crate::specs::ParseStatementsParts::nested_block))]
fn nested_block(reader: &mut Reader<'_>, levels: u8) -> Result<Stmt, Stop>
    ensures { Counts result (state reader.new) (form levels nested_block (state reader.old)) }
{
    let (place, found) = block(reader, levels)?;
    Ok(Stmt::Block(place, found))
}

/// A condition or a havoc, or what contains blocks, or a change.
#[cycle(statements)]
fn conditions(reader: &mut Reader<'_>, levels: u8) -> Result<Stmt, Stop>
    ensures { Counts result (state reader.new) (form levels conditions (state reader.old)) }
{
    if reader.is_at(Kind::KwAssert) {
        return assertion(reader, levels);
    }
    if reader.is_at(Kind::KwAssume) {
        return assumption(reader, levels);
    }
    if reader.is_at(Kind::KwHavoc) {
        return havoc(reader, levels);
    }
    branching(reader, levels)
}

/// What contains blocks, or a change.
#[cycle(statements)]
fn branching(reader: &mut Reader<'_>, levels: u8) -> Result<Stmt, Stop>
    ensures { Counts result (state reader.new) (form levels branching (state reader.old)) }
{
    if reader.is_at(Kind::KwIf) {
        return if_statement(reader, levels);
    }
    if reader.is_at(Kind::KwCase) {
        return case_statement(reader, levels);
    }
    if reader.is_at(Kind::KwFor) {
        return for_statement(reader, levels);
    }
    changes(reader, levels)
}

#[cycle(statements)]
#[tactic(auto, unfolding(uc_grammar::specs::Syntax::if_statement))]
fn if_statement(reader: &mut Reader<'_>, levels: u8) -> Result<Stmt, Stop>
    ensures { Counts result (state reader.new) (form levels if_statement (state reader.old)) }
{
    let word = reader.take(Kind::KwIf)?;
    let first = arm(reader, levels)?;
    let (arms, otherwise) = else_branches(reader, levels, first)?;
    Ok(Stmt::If(word.place, arms, otherwise))
}

/// The condition and the block behind `if`.
#[cycle(statements)]
fn arm(reader: &mut Reader<'_>, levels: u8) -> Result<Arm<Stmt>, Stop>
    ensures { Counts result (state reader.new) (form levels arm (state reader.old)) }
{
    let condition = expr(reader, levels)?;
    let (condition, body) = beside(condition, statements(reader, levels))?;
    Ok(Arm { condition, body })
}

/// The first arm and those behind `else if`, and the block of the last `else`.
#[cycle(statements)]
fn else_branches(
    reader: &mut Reader<'_>,
    levels: u8,
    first: Arm<Stmt>,
) -> Result<(Items<Arm<Stmt>>, Option<Items<Stmt>>), Stop>
    ensures { Counts result (state reader.new) (with_head (first ∷ []) (form levels else_branches (state reader.old))) }
{
    let mut found = Items::new(reader.alloc);
    found.push(first)?;
    'turns: while reader.is_at(Kind::KwElse) {
        reader.take(Kind::KwElse)?;
        if !reader.is_at(Kind::KwIf) {
            let otherwise = statements(reader, levels)?;
            return Ok((found, Some(otherwise)));
        }
        reader.take(Kind::KwIf)?;
        let next = arm(reader, levels)?;
        found.push(next)?;
    }
    Ok((found, None))
}

#[cycle(statements)]
#[tactic(auto, unfolding(uc_grammar::specs::Syntax::case_statement))]
fn case_statement(reader: &mut Reader<'_>, levels: u8) -> Result<Stmt, Stop>
    ensures { Counts result (state reader.new) (form levels case_statement (state reader.old)) }
{
    let word = reader.take(Kind::KwCase)?;
    let (arms, default) = case_arms(reader, levels)?;
    Ok(Stmt::Case(word.place, arms, default))
}

/// The arms up to `esac`, and the block of `default`.
#[cycle(statements)]
fn case_arms(
    reader: &mut Reader<'_>,
    levels: u8,
) -> Result<(Items<Arm<Stmt>>, Option<Items<Stmt>>), Stop>
    ensures { Counts result (state reader.new) (form levels case_arms (state reader.old)) }
{
    let mut found = Items::new(reader.alloc);
    'turns: while !is_at_case_end(reader) {
        let next = case_arm(reader, levels)?;
        found.push(next)?;
    }
    let default = default_arm(reader, levels)?;
    Ok((found, default))
}

fn is_at_case_end(reader: &Reader<'_>) -> bool
    ensures { result ≡ is_at words (code_of KwDefault ∷ code_of KwEsac ∷ []) reader.now.rest.now }
{
    match reader.rest {
        [] => false,
        [word, ..] => matches!(word.kind, Kind::KwDefault | Kind::KwEsac),
    }
}

#[cycle(statements)]
fn case_arm(reader: &mut Reader<'_>, levels: u8) -> Result<Arm<Stmt>, Stop>
    ensures { Counts result (state reader.new) (form levels case_arm (state reader.old)) }
{
    let condition = expr(reader, levels)?;
    let (condition, body) = beside(condition, case_body(reader, levels))?;
    Ok(Arm { condition, body })
}

/// The block behind the colon of an arm.
#[cycle(statements)]
fn case_body(reader: &mut Reader<'_>, levels: u8) -> Result<Items<Stmt>, Stop>
    ensures { Counts result (state reader.new) (form levels (after Colon statements) (state reader.old)) }
{
    reader.take(Kind::Colon)?;
    let body = statements(reader, levels)?;
    Ok(body)
}

/// The block of `default`, if there is one, and `esac`.
#[cycle(statements)]
fn default_arm(reader: &mut Reader<'_>, levels: u8) -> Result<Option<Items<Stmt>>, Stop>
    ensures { Counts result (state reader.new) (form levels default_arm (state reader.old)) }
{
    if reader.is_at(Kind::KwDefault) {
        reader.take(Kind::KwDefault)?;
        let body = case_body(reader, levels)?;
        reader.take(Kind::KwEsac)?;
        return Ok(Some(body));
    }
    reader.take(Kind::KwEsac)?;
    Ok(None)
}

#[cycle(statements)]
#[tactic(auto, unfolding(uc_grammar::specs::Syntax::for_statement))]
fn for_statement(reader: &mut Reader<'_>, levels: u8) -> Result<Stmt, Stop>
    ensures { Counts result (state reader.new) (form levels for_statement (state reader.old)) }
{
    let word = reader.take(Kind::KwFor)?;
    let (variable, ty) = loop_variable(reader, levels)?;
    let (ty, ((low, high), body)) = beside(ty, loop_body(reader, levels))?;
    Ok(Stmt::For(word.place, variable, ty, low, high, body))
}

/// The bounds of a loop and its block.
#[cycle(statements)]
fn loop_body(
    reader: &mut Reader<'_>,
    levels: u8,
) -> Result<((RangeBound, RangeBound), Items<Stmt>), Stop>
    ensures { Counts result (state reader.new) (form levels (after KwIn (after (Range 0) (both (deep range_bounds) statements))) (state reader.old)) }
{
    reader.take(Kind::KwIn)?;
    reader.take(RANGE)?;
    let bounds = range_bounds(reader, levels)?;
    let body = statements(reader, levels)?;
    Ok((bounds, body))
}

/// The variable of a loop, with its type if it is written. It is declared.
fn loop_variable(
    reader: &mut Reader<'_>,
    levels: u8,
) -> Result<(Identifier, Option<TypeExpr>), Stop>
    ensures { Counts result (state reader.new) (form levels loop_variable (state reader.old)) }
{
    if reader.is_at(Kind::LeftParen) {
        let variable = typed_name(reader, levels)?;
        return Ok((variable.identifier, Some(variable.ty)));
    }
    let name = reader.new_id()?;
    Ok((name, None))
}
