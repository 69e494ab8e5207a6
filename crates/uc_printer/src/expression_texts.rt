//! The words of expressions.

ghost use Rattle.std.specs.Prelude.{◌≡◌, map, OnOk};
ghost use Rattle.uc_grammar.specs.declared.word.Kind.TheVariants.{Comma};
ghost use Rattle.uc_print_laws.specs.Text.{written};
ghost use Rattle.uc_print_laws.specs.Printed.{each, joined};
ghost use Rattle.uc_print_laws.specs.Expressions.{leveled, printed_expr, sum_words};
ghost use Rattle.uc_printer.specs.PrintExpressionsParts.{operand, shown_branch, shown_selection};

use crate::operators::{
    comparison_sign, height, put_primed_name, sum_sign, truth_sign, unary_sign,
};
use std::alloc::AllocError;
use uc_grammar::Kind;
use uc_print_laws::{Page, put_name, put_sign};
use uc_syntax::{Branch, Expr, Names, Primary, Selection, SumSign};

/// Puts an expression without parentheses around it.
#[cycle(print_expressions)]
#[tactic(auto, using(crate::proofs::ExpressionWords::if_text, crate::proofs::ExpressionWords::iff_text, crate::proofs::ExpressionWords::implies_text, crate::proofs::ExpressionWords::or_text, crate::proofs::ExpressionWords::and_text, crate::proofs::ExpressionWords::compare_text, crate::proofs::ExpressionWords::bit_or_text, crate::proofs::ExpressionWords::bit_xor_text, crate::proofs::ExpressionWords::bit_and_text, crate::proofs::ExpressionWords::concat_text, crate::proofs::ExpressionWords::sum_text, crate::proofs::ExpressionWords::product_text, crate::proofs::ExpressionWords::unary_text, crate::proofs::ExpressionWords::selected_text, crate::proofs::ExpressionWords::truth_text, crate::proofs::ExpressionWords::apply_text, crate::proofs::ExpressionWords::on_bits_text, crate::proofs::ExpressionWords::grouped_text))]
pub fn put_expression(page: &mut Page, names: &Names, expression: &Expr) -> Result<(), AllocError>
    ensures { OnOk result (page.new ≡ written names.now page.old (printed_expr expression.now).words) }
{
    match expression {
        Expr::If(_, branches, otherwise) => {
            put_branches(page, names, branches.as_slice())?;
            put_operand(page, names, otherwise.get(), 11)
        }
        Expr::Iff(_, operands, _) => put_chain(page, names, operands.as_slice(), Kind::Iff, 10),
        Expr::Implies(_, operands, _) => {
            put_chain(page, names, operands.as_slice(), Kind::Implies, 9)
        }
        Expr::Or(_, operands, _) => put_chain(page, names, operands.as_slice(), Kind::Or, 8),
        Expr::And(_, operands, _) => put_chain(page, names, operands.as_slice(), Kind::And, 7),
        Expr::Compare(_, comparison, _, left, right) => {
            put_operand(page, names, left.get(), 6)?;
            put_sign(page, comparison_sign(*comparison))?;
            put_operand(page, names, right.get(), 6)
        }
        Expr::BitOr(_, operands, _) => put_chain(page, names, operands.as_slice(), Kind::Bar, 5),
        Expr::BitXor(_, operands, _) => put_chain(page, names, operands.as_slice(), Kind::Caret, 4),
        Expr::BitAnd(_, operands, _) => {
            put_chain(page, names, operands.as_slice(), Kind::Ampersand, 3)
        }
        Expr::Concat(_, operands, _) => put_chain(
            page,
            names,
            operands.as_slice(),
            Kind::Concat,
            2,
        ),
        Expr::Sum(_, operands, signs) => {
            put_sum(page, names, operands.as_slice(), signs.as_slice())
        }
        Expr::Product(_, operands, _) => put_chain(page, names, operands.as_slice(), Kind::Star, 0),
        Expr::Unary(_, operator, operand) => {
            put_sign(page, unary_sign(*operator))?;
            put_operand(page, names, operand.get(), 0)
        }
        Expr::Selected(_, primary, selections) => {
            match primary {
                Primary::Truth(truth) => {
                    put_sign(page, truth_sign(*truth))?;
                }
                Primary::Number(number) => {
                    put_sign(page, Kind::Number(*number))?;
                }
                Primary::BitsLiteral(value, width) => {
                    put_sign(page, Kind::BvLit(*value, *width))?;
                }
                Primary::Name(name, is_primed) => {
                    put_primed_name(page, names, *name, *is_primed)?;
                }
                Primary::Apply(name, arguments) => {
                    put_name(page, names, *name)?;
                    put_sign(page, Kind::LeftParen)?;
                    put_expressions(page, names, arguments.as_slice())?;
                    put_sign(page, Kind::RightParen)?;
                }
                Primary::OnBits(function, arguments) => {
                    put_sign(page, Kind::OnBits(*function, 0))?;
                    put_sign(page, Kind::LeftParen)?;
                    put_expressions(page, names, arguments.as_slice())?;
                    put_sign(page, Kind::RightParen)?;
                }
                Primary::Old(name) => {
                    put_sign(page, Kind::KwOld)?;
                    put_sign(page, Kind::LeftParen)?;
                    put_name(page, names, name.name)?;
                    put_sign(page, Kind::RightParen)?;
                }
                Primary::Grouped(grouped) => {
                    put_sign(page, Kind::LeftParen)?;
                    put_expression(page, names, grouped.get())?;
                    put_sign(page, Kind::RightParen)?;
                }
            }
            put_selections(page, names, selections.as_slice())?;
            Ok(())
        }
    }
}

/// Puts an expression where one of at most this height may stand: others get parentheses.
#[cycle(print_expressions)]
#[tactic(auto, using(crate::proofs::ExpressionWords::low_text, crate::proofs::ExpressionWords::parens_text))]
fn put_operand(
    page: &mut Page,
    names: &Names,
    expression: &Expr,
    most: u8,
) -> Result<(), AllocError>
    ensures { OnOk result (page.new ≡ written names.now page.old (operand most expression.now).words) }
{
    if height(expression) <= most {
        return put_expression(page, names, expression);
    }
    put_sign(page, Kind::LeftParen)?;
    put_expression(page, names, expression)?;
    put_sign(page, Kind::RightParen)
}

/// Puts the operands of a chain, with its sign between neighbours.
#[cycle(print_expressions)]
fn put_chain(
    page: &mut Page,
    names: &Names,
    operands: &[Expr],
    sign: Kind,
    below: u8,
) -> Result<(), AllocError>
    ensures { OnOk result (page.new ≡ written names.now page.old (joined sign (operand below) operands.now).words) }
{
    let Some((first, rest)) = operands.split_first() else {
        return Ok(());
    };
    put_operand(page, names, first, below)?;
    'rest: for one in rest {
        put_sign(page, sign)?;
        put_operand(page, names, one, below)?;
    }
    Ok(())
}

/// Puts the operands of a sum, each but the first behind its sign.
#[cycle(print_expressions)]
fn put_sum(
    page: &mut Page,
    names: &Names,
    operands: &[Expr],
    signs: &[SumSign],
) -> Result<(), AllocError>
    ensures { OnOk result (page.new ≡ written names.now page.old (sum_words signs.now (map leveled operands.now)).words) }
{
    let Some((first, rest)) = operands.split_first() else {
        return Ok(());
    };
    put_operand(page, names, first, 1)?;
    let mut left = signs;
    'rest: for one in rest {
        let Some((sign, more)) = left.split_first() else {
            return Ok(());
        };
        put_sign(page, sum_sign(*sign))?;
        put_operand(page, names, one, 1)?;
        left = more;
    }
    Ok(())
}

/// Puts expressions with commas between neighbours.
#[cycle(print_expressions)]
pub fn put_expressions(
    page: &mut Page,
    names: &Names,
    expressions: &[Expr],
) -> Result<(), AllocError>
    ensures { OnOk result (page.new ≡ written names.now page.old (joined Comma printed_expr expressions.now).words) }
{
    let Some((first, rest)) = expressions.split_first() else {
        return Ok(());
    };
    put_expression(page, names, first)?;
    'rest: for one in rest {
        put_sign(page, Kind::Comma)?;
        put_expression(page, names, one)?;
    }
    Ok(())
}

/// Puts the arms of a conditional.
#[cycle(print_expressions)]
fn put_branches(page: &mut Page, names: &Names, branches: &[Branch<Expr>]) -> Result<(), AllocError>
    ensures { OnOk result (page.new ≡ written names.now page.old (each shown_branch branches.now).words) }
{
    'branches: for one in branches {
        put_sign(page, Kind::KwIf)?;
        put_expression(page, names, &one.condition)?;
        put_sign(page, Kind::KwThen)?;
        put_expression(page, names, &one.value)?;
        put_sign(page, Kind::KwElse)?;
    }
    Ok(())
}

/// Puts what stands behind a primary.
#[cycle(print_expressions)]
fn put_selections(
    page: &mut Page,
    names: &Names,
    selections: &[Selection<Expr>],
) -> Result<(), AllocError>
    ensures { OnOk result (page.new ≡ written names.now page.old (each shown_selection selections.now).words) }
{
    'selections: for one in selections {
        match one {
            Selection::Field(_, name) => {
                put_sign(page, Kind::Dot)?;
                put_name(page, names, name.name)?;
            }
            Selection::Copy(_, number) => {
                put_sign(page, Kind::Dot)?;
                put_sign(page, Kind::Number(*number))?;
            }
            Selection::Element(_, index) => {
                put_sign(page, Kind::LeftBracket)?;
                put_expression(page, names, index)?;
                put_sign(page, Kind::RightBracket)?;
            }
            Selection::Update(_, index, value) => {
                put_sign(page, Kind::LeftBracket)?;
                put_expression(page, names, index)?;
                put_sign(page, Kind::Arrow)?;
                put_expression(page, names, value)?;
                put_sign(page, Kind::RightBracket)?;
            }
            Selection::Extract(_, high, low) => {
                put_sign(page, Kind::LeftBracket)?;
                put_sign(page, Kind::Number(*high))?;
                put_sign(page, Kind::Colon)?;
                put_sign(page, Kind::Number(*low))?;
                put_sign(page, Kind::RightBracket)?;
            }
        }
    }
    Ok(())
}
