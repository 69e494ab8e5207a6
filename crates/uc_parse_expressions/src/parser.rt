//! Reads expressions from words.

ghost use Rattle.std.specs.Prelude.{◌≡◌, ◌∷◌, [], List, Ok};
ghost use Rattle.uc_forms.specs.Counted.{with_front, turned, turns};
ghost use Rattle.uc_forms.specs.CountedGives.{Counts, Leaves};
ghost use Rattle.uc_forms.specs.Form.{before, both, word, one_of};
ghost use Rattle.uc_grammar.specs.Code.{code_of};
ghost use Rattle.uc_grammar.specs.declared.word.Kind.TheVariants.{Plus};
ghost use Rattle.uc_grammar.specs.Syntax as syntax;
ghost use Rattle.uc_grammar.specs.Syntax.{words, sum_sign};
ghost use Rattle.uc_parse_expressions.specs.Chains.{form_of, operand_form, sign_of, gathered};
ghost use Rattle.uc_parse_expressions.specs.Gives.{CountsAs};
ghost use Rattle.uc_parse_expressions.specs.Heads.{head_of};
ghost use Rattle.uc_parse_expressions.specs.Levels.{onward};
ghost use Rattle.uc_parse_expressions.specs.declared.level.Level.TheVariants as level_kinds;
ghost use Rattle.uc_parse_expressions.specs.Parts as parts;
ghost use Rattle.uc_parse_expressions.specs.Parts.{element_of};
ghost use Rattle.uc_parse_expressions.specs.Signs.{minus, sum_codes};
ghost use Rattle.uc_parse_expressions.specs.Reading.{state, form, nested};

use crate::chain::Chain;
use crate::head::Head;
use crate::level::{Level, next_level};
use crate::name_in_parens::in_name;
use crate::signs::{
    at_bounds, at_comparison, at_sign, at_sum_sign, comparison_of, no_level_for_sign, sum_sign_of,
    take_comparison, take_sign, take_sum_sign, unary_operator_of,
};
use crate::{Reader, name_of, value_of, width_of};
use uc_forms::Stop;
use uc_grammar::{Kind, Word};
use uc_items::{Boxed, Items, beside};
use uc_syntax::{Branch, Expr, Place, Primary, Selection, SumSign};

const NUMBER: Kind = Kind::Number(0);

const BITS_LITERAL: Kind = Kind::BvLit(0, 0);

/// An expression, with the place of its first word.
#[cycle(expressions)]
#[tactic(auto, unfolding(uc_grammar::specs::Syntax::expression))]
pub fn expression(reader: &mut Reader<'_>, levels: u8) -> Result<(Place, Expr), Stop>
    ensures { Counts result (state reader.new) (form levels syntax.expression (state reader.old)) }
{
    if reader.is_at(Kind::KwIf) {
        return if_expression(reader, levels);
    }
    level(reader, levels, Level::Chain(Chain::Iff))
}

/// An expression without its place.
#[cycle(expressions)]
pub fn expr(reader: &mut Reader<'_>, levels: u8) -> Result<Expr, Stop>
    ensures { Counts result (state reader.new) (form levels syntax.expr (state reader.old)) }
{
    let (_, tree) = expression(reader, levels)?;
    Ok(tree)
}

/// An expression, with a word of this kind behind it.
#[cycle(expressions)]
pub fn expr_before(reader: &mut Reader<'_>, levels: u8, kind: Kind) -> Result<Expr, Stop>
    ensures { Counts result (state reader.new) (form levels (before syntax.expr kind) (state reader.old)) }
{
    let tree = expr(reader, levels)?;
    let (tree, _) = beside(tree, reader.take(kind))?;
    Ok(tree)
}

/// One expression or more, with commas between them.
#[cycle(expressions)]
pub fn expressions(reader: &mut Reader<'_>, levels: u8) -> Result<Items<Expr>, Stop>
    ensures { Counts result (state reader.new) (form levels (syntax.listed syntax.expr) (state reader.old)) }
{
    let first = expr(reader, levels)?;
    let mut found = Items::new(reader.alloc);
    found.push(first)?;
    more_expressions(reader, levels, &mut found)?;
    Ok(found)
}

#[cycle(expressions)]
fn more_expressions(
    reader: &mut Reader<'_>,
    levels: u8,
    found: &mut Items<Expr>,
) -> Result<(), Stop>
    ensures { Leaves found.new result (state reader.new) (with_front found.old (form levels parts.more_expressions (state reader.old))) }
{
    'turns: while reader.is_at(Kind::Comma) {
        reader.take(Kind::Comma)?;
        let next = expr(reader, levels)?;
        found.push(next)?;
    }
    Ok(())
}

/// Expressions in parentheses, with commas between them; or none.
#[cycle(expressions)]
pub fn arguments(reader: &mut Reader<'_>, levels: u8) -> Result<Items<Expr>, Stop>
    ensures { Counts result (state reader.new) (nested levels syntax.arguments (state reader.old)) }
{
    if levels == 0 {
        return Err(reader.no_level(Kind::LeftParen));
    }
    reader.take(Kind::LeftParen)?;
    if reader.is_at(Kind::RightParen) {
        reader.take(Kind::RightParen)?;
        return Ok(Items::new(reader.alloc));
    }
    let found = expressions(reader, levels - 1)?;
    reader.take(Kind::RightParen)?;
    Ok(found)
}

#[cycle(expressions)]
fn parens(reader: &mut Reader<'_>, levels: u8) -> Result<(Place, Expr), Stop>
    ensures { Counts result (state reader.new) (nested levels syntax.parens (state reader.old)) }
{
    if levels == 0 {
        return Err(reader.no_level(Kind::LeftParen));
    }
    let opening = reader.take(Kind::LeftParen)?;
    let inner = expr_before(reader, levels - 1, Kind::RightParen)?;
    Ok((opening.place, inner))
}

#[cycle(expressions)]
#[tactic(auto, unfolding(uc_grammar::specs::Syntax::primary, crate::specs::Parts::named_primary))]
fn primary(reader: &mut Reader<'_>, levels: u8) -> Result<(Place, Head), Stop>
    ensures { CountsAs head_of result (state reader.new) (form levels syntax.primary (state reader.old)) }
{
    if reader.is_at(Kind::KwTrue) {
        let word = reader.take(Kind::KwTrue)?;
        return Ok((word.place, Head::Plain(Primary::Truth(true))));
    }
    if reader.is_at(Kind::KwFalse) {
        let word = reader.take(Kind::KwFalse)?;
        return Ok((word.place, Head::Plain(Primary::Truth(false))));
    }
    if reader.is_at(NUMBER) {
        let word = reader.take(NUMBER)?;
        let value = value_of(word.kind);
        return Ok((word.place, Head::Plain(Primary::Number(value))));
    }
    if reader.is_at(BITS_LITERAL) {
        let word = reader.take(BITS_LITERAL)?;
        let value = value_of(word.kind);
        let width = width_of(word.kind);
        return Ok((word.place, Head::Plain(Primary::BitsLiteral(value, width))));
    }
    if reader.is_at(Kind::KwOld) {
        let word = reader.take(Kind::KwOld)?;
        let name = in_name(reader, levels)?;
        return Ok((word.place, Head::Plain(Primary::Old(name))));
    }
    if reader.is_at(Kind::LeftParen) {
        let (place, inner) = parens(reader, levels)?;
        return Ok((place, Head::InParens(inner)));
    }
    let (place, name) = named(reader, levels)?;
    Ok((place, Head::Plain(name)))
}

/// A primary that begins with a name.
#[cycle(expressions)]
#[tactic(auto, unfolding(crate::specs::Parts::named_primary))]
fn named(reader: &mut Reader<'_>, levels: u8) -> Result<(Place, Primary<Expr>), Stop>
    ensures { CountsAs (λ x. syntax.head x.0 x.1) result (state reader.new) (form levels parts.named_primary (state reader.old)) }
{
    let word = reader.take_name()?;
    if reader.is_at(Kind::Prime) {
        reader.take(Kind::Prime)?;
        return Ok((word.place, Primary::Name(name_of(word.kind), true)));
    }
    if reader.is_at(Kind::LeftParen) {
        let given = arguments(reader, levels)?;
        return Ok((word.place, applied(word.kind, given)));
    }
    Ok((word.place, Primary::Name(name_of(word.kind), false)))
}

/// The application of a name.
fn applied(kind: Kind, given: Items<Expr>) -> Primary<Expr>
    ensures { result ≡ syntax.applied kind given }
{
    match kind {
        Kind::OnBits(function, _) => Primary::OnBits(function, given),
        _ => Primary::Apply(name_of(kind), given),
    }
}

#[cycle(expressions)]
#[tactic(auto, unfolding(uc_grammar::specs::Syntax::selection))]
fn selection(reader: &mut Reader<'_>, levels: u8) -> Result<Selection<Expr>, Stop>
    ensures { Counts result (state reader.new) (form levels syntax.selection (state reader.old)) }
{
    if reader.is_at(Kind::Dot) {
        let dot = reader.take(Kind::Dot)?;
        if reader.is_at_name() {
            let field = reader.id()?;
            return Ok(Selection::Field(dot.place, field));
        }
        let copy = reader.take(NUMBER)?;
        return Ok(Selection::Copy(dot.place, value_of(copy.kind)));
    }
    brackets(reader, levels)
}

#[cycle(expressions)]
fn brackets(reader: &mut Reader<'_>, levels: u8) -> Result<Selection<Expr>, Stop>
    ensures { Counts result (state reader.new) (nested levels syntax.brackets (state reader.old)) }
{
    if levels == 0 {
        return Err(reader.no_level(Kind::LeftBracket));
    }
    let opening = reader.take(Kind::LeftBracket)?;
    if at_bounds(reader) {
        let high = reader.take(NUMBER)?;
        reader.take(Kind::Colon)?;
        let low = reader.take(NUMBER)?;
        reader.take(Kind::RightBracket)?;
        let high = value_of(high.kind);
        let low = value_of(low.kind);
        return Ok(Selection::Extract(opening.place, high, low));
    }
    element(reader, levels - 1, opening.place)
}

/// An index, and maybe a value that is put there.
#[cycle(expressions)]
#[tactic(auto, unfolding(crate::specs::Parts::element))]
fn element(reader: &mut Reader<'_>, levels: u8, place: Place) -> Result<Selection<Expr>, Stop>
    ensures { Counts result (state reader.new) (turned (element_of place) (form levels parts.element (state reader.old))) }
{
    let index = expr(reader, levels)?;
    if reader.is_at(Kind::RightBracket) {
        let (index, _) = beside(index, reader.take(Kind::RightBracket))?;
        return Ok(Selection::Element(place, index));
    }
    let (index, value) = beside(index, new_value(reader, levels))?;
    Ok(Selection::Update(place, index, value))
}

/// The value that is put at an index, up to the closing bracket.
#[cycle(expressions)]
#[tactic(auto, unfolding(crate::specs::Parts::new_value))]
fn new_value(reader: &mut Reader<'_>, levels: u8) -> Result<Expr, Stop>
    ensures { Counts result (state reader.new) (form levels parts.new_value (state reader.old)) }
{
    reader.take(Kind::Arrow)?;
    let value = expr_before(reader, levels, Kind::RightBracket)?;
    Ok(value)
}

#[cycle(expressions)]
#[tactic(auto, unfolding(crate::specs::Parts::selections, uc_grammar::specs::Syntax::selection))]
fn selections(reader: &mut Reader<'_>, levels: u8) -> Result<Items<Selection<Expr>>, Stop>
    ensures { Counts result (state reader.new) (form levels parts.selections (state reader.old)) }
{
    let mut found = Items::new(reader.alloc);
    'turns: while reader.is_at(Kind::Dot) || reader.is_at(Kind::LeftBracket) {
        let next = selection(reader, levels)?;
        found.push(next)?;
    }
    Ok(found)
}

/// A primary with its selections.
#[cycle(expressions)]
#[tactic(auto, unfolding(crate::specs::Parts::selected, crate::specs::Parts::selections))]
fn selected(reader: &mut Reader<'_>, levels: u8) -> Result<(Place, Expr), Stop>
    ensures { Counts result (state reader.new) (form levels parts.selected (state reader.old)) }
{
    let (place, head) = primary(reader, levels)?;
    let (head, found) = beside(head, selections(reader, levels))?;
    match head {
        Head::Plain(primary) => Ok((place, Expr::Selected(place, primary, found))),
        Head::InParens(inner) => {
            if found.is_empty() {
                return Ok((place, inner));
            }
            let grouped = Primary::Grouped(Boxed::new(reader.alloc, inner)?);
            Ok((place, Expr::Selected(place, grouped, found)))
        }
    }
}

#[cycle(expressions)]
fn sign_operand(reader: &mut Reader<'_>, levels: u8) -> Result<(Place, Expr), Stop>
    ensures { Counts result (state reader.new) (nested levels syntax.sign_operand (state reader.old)) }
{
    if levels == 0 {
        return Err(no_level_for_sign(reader));
    }
    let sign = take_sign(reader)?;
    let (_, operand) = unary(reader, levels - 1)?;
    let operand = Boxed::new(reader.alloc, operand)?;
    let tree = Expr::Unary(sign.place, unary_operator_of(sign.kind), operand);
    Ok((sign.place, tree))
}

#[cycle(expressions)]
#[tactic(auto, unfolding(uc_grammar::specs::Syntax::unary, crate::specs::Parts::selected))]
fn unary(reader: &mut Reader<'_>, levels: u8) -> Result<(Place, Expr), Stop>
    ensures { Counts result (state reader.new) (form levels syntax.unary (state reader.old)) }
{
    if at_sign(reader) {
        return sign_operand(reader, levels);
    }
    selected(reader, levels)
}

/// An expression of a level.
///
/// The first operand is read at once, and then each operator that comes next tells the level at which it is read on.
#[cycle(expressions)]
fn level(reader: &mut Reader<'_>, levels: u8, top: Level) -> Result<(Place, Expr), Stop>
    ensures { Counts result (state reader.new) (form levels (form_of top) (state reader.old)) }
{
    let mut found = unary(reader, levels)?;
    let mut reached = Level::Unary;
    let mut next = next_level(reader);
    'turns: while reached.height() < next.height() && next.height() <= top.height() {
        found = rest(reader, levels, next, found)?;
        reached = next;
        next = next_level(reader);
    }
    Ok(found)
}

/// The rest of a level behind its first operand.
#[cycle(expressions)]
fn rest(
    reader: &mut Reader<'_>,
    levels: u8,
    level: Level,
    first: (Place, Expr),
) -> Result<(Place, Expr), Stop>
    ensures { Counts result (state reader.new) (onward levels level (Ok (first, state reader.old))) }
{
    match level {
        Level::Unary => Ok(first),
        Level::Sum => sum(reader, levels, first),
        Level::Comparison => comparison(reader, levels, first),
        Level::Chain(level) => chain(reader, levels, level, first),
    }
}

/// The rest of a chain of one level.
#[cycle(expressions)]
fn chain(
    reader: &mut Reader<'_>,
    levels: u8,
    level: Chain,
    first: (Place, Expr),
) -> Result<(Place, Expr), Stop>
    ensures { Counts result (state reader.new) (onward levels (level_kinds.Chain level) (Ok (first, state reader.old))) }
{
    if !reader.is_at(level.sign()) {
        return Ok(first);
    }
    let (place, first) = first;
    let mut operands = Items::new(reader.alloc);
    let mut places = Items::new(reader.alloc);
    operands.push(first)?;
    more_operands(reader, levels, level, &mut operands, &mut places)?;
    Ok((place, level.node(place, operands, places)))
}

/// The operands behind the first, and the places of the operators before them.
#[cycle(expressions)]
fn more_operands(
    reader: &mut Reader<'_>,
    levels: u8,
    chain: Chain,
    operands: &mut Items<Expr>,
    places: &mut Items<Place>,
) -> Result<(), Stop>
    ensures { Leaves (operands.new, places.new) result (state reader.new) (turned (gathered (λ (w : Word). w.place) operands.old places.old) (turns words (code_of (sign_of chain) ∷ []) (form levels (both (word (sign_of chain)) (operand_form chain))) (state reader.old))) }
{
    'turns: while reader.is_at(chain.sign()) {
        let sign = reader.take(chain.sign())?;
        let (_, next) = level(reader, levels, chain.operand())?;
        operands.push(next)?;
        places.push(sign.place)?;
    }
    Ok(())
}

/// The rest of a sum.
#[cycle(expressions)]
fn sum(reader: &mut Reader<'_>, levels: u8, first: (Place, Expr)) -> Result<(Place, Expr), Stop>
    ensures { Counts result (state reader.new) (onward levels level_kinds.Sum (Ok (first, state reader.old))) }
{
    if !at_sum_sign(reader) {
        return Ok(first);
    }
    let (place, first) = first;
    let mut terms = Items::new(reader.alloc);
    let mut signs = Items::new(reader.alloc);
    terms.push(first)?;
    more_terms(reader, levels, &mut terms, &mut signs)?;
    Ok((place, Expr::Sum(place, terms, signs)))
}

/// The terms behind the first, and the signs before them.
#[cycle(expressions)]
fn more_terms(
    reader: &mut Reader<'_>,
    levels: u8,
    terms: &mut Items<Expr>,
    signs: &mut Items<SumSign>,
) -> Result<(), Stop>
    ensures { Leaves (terms.new, signs.new) result (state reader.new) (turned (gathered sum_sign terms.old signs.old) (turns words sum_codes (form levels (both (one_of Plus minus) syntax.product)) (state reader.old))) }
{
    'turns: while at_sum_sign(reader) {
        let sign = take_sum_sign(reader)?;
        let (_, next) = level(reader, levels, Level::Chain(Chain::Product))?;
        terms.push(next)?;
        signs.push(sum_sign_of(sign))?;
    }
    Ok(())
}

/// The rest of a comparison.
#[cycle(expressions)]
fn comparison(
    reader: &mut Reader<'_>,
    levels: u8,
    first: (Place, Expr),
) -> Result<(Place, Expr), Stop>
    ensures { Counts result (state reader.new) (onward levels level_kinds.Comparison (Ok (first, state reader.old))) }
{
    if !at_comparison(reader) {
        return Ok(first);
    }
    let (place, left) = first;
    let left = Boxed::new(reader.alloc, left)?;
    let sign = take_comparison(reader)?;
    let (_, right) = level(reader, levels, Level::Chain(Chain::BitOr))?;
    let right = Boxed::new(reader.alloc, right)?;
    let operator = comparison_of(sign.kind);
    Ok((
        place,
        Expr::Compare(place, operator, sign.place, left, right),
    ))
}

#[cycle(expressions)]
fn if_expression(reader: &mut Reader<'_>, levels: u8) -> Result<(Place, Expr), Stop>
    ensures { Counts result (state reader.new) (nested levels syntax.if_expression (state reader.old)) }
{
    if levels == 0 {
        return Err(reader.no_level(Kind::KwIf));
    }
    let first = if_branch(reader, levels - 1)?;
    let place = first.place;
    let mut branches = Items::new(reader.alloc);
    branches.push(first)?;
    more_branches(reader, levels - 1, &mut branches)?;
    let (_, otherwise) = level(reader, levels - 1, Level::Chain(Chain::Iff))?;
    let otherwise = Boxed::new(reader.alloc, otherwise)?;
    Ok((place, Expr::If(place, branches, otherwise)))
}

#[cycle(expressions)]
fn more_branches(
    reader: &mut Reader<'_>,
    levels: u8,
    found: &mut Items<Branch<Expr>>,
) -> Result<(), Stop>
    ensures { Leaves found.new result (state reader.new) (with_front found.old (form levels parts.more_branches (state reader.old))) }
{
    'turns: while reader.is_at(Kind::KwIf) {
        let next = if_branch(reader, levels)?;
        found.push(next)?;
    }
    Ok(())
}

#[cycle(expressions)]
#[tactic(auto, unfolding(uc_grammar::specs::Syntax::branch))]
fn if_branch(reader: &mut Reader<'_>, levels: u8) -> Result<Branch<Expr>, Stop>
    ensures { Counts result (state reader.new) (form levels syntax.branch (state reader.old)) }
{
    let opening = reader.take(Kind::KwIf)?;
    let condition = expr_before(reader, levels, Kind::KwThen)?;
    let (condition, value) = beside(condition, expr_before(reader, levels, Kind::KwElse))?;
    Ok(Branch {
        place: opening.place,
        condition,
        value,
    })
}
