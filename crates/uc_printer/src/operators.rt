//! The words of operators, and how loosely expressions bind.

ghost use Rattle.std.specs.Prelude.{◌≡◌, OnOk};
ghost use Rattle.uc_print_laws.specs.Text.{written};
ghost use Rattle.uc_printer.specs.PrintExpressionsParts.{truth_kind};
ghost use Rattle.uc_print_laws.specs.Piece as pieces;
ghost use Rattle.uc_print_laws.specs.Printed.{piece, ◌<+>◌};
ghost use Rattle.uc_print_laws.specs.Expressions.{comparison_kind, leveled, prime, sum_kind, unary_kind};

use std::alloc::AllocError;
use uc_grammar::Kind;
use uc_print_laws::{Page, put_name, put_sign};
use uc_syntax::{Comparison, Expr, Names, SumSign, UnaryOperator};

/// How loosely an expression binds: unary forms and selections are lowest, `if` is highest.
pub fn height(expression: &Expr) -> u8
    ensures { result ≡ (leveled expression.now).height }
{
    match expression {
        Expr::If(..) => 12,
        Expr::Iff(..) => 11,
        Expr::Implies(..) => 10,
        Expr::Or(..) => 9,
        Expr::And(..) => 8,
        Expr::Compare(..) => 7,
        Expr::BitOr(..) => 6,
        Expr::BitXor(..) => 5,
        Expr::BitAnd(..) => 4,
        Expr::Concat(..) => 3,
        Expr::Sum(..) => 2,
        Expr::Product(..) => 1,
        Expr::Unary(..) | Expr::Selected(..) => 0,
    }
}

pub fn unary_sign(operator: UnaryOperator) -> Kind
    ensures { result ≡ unary_kind operator }
{
    match operator {
        UnaryOperator::Not => Kind::Not,
        UnaryOperator::Negate => Kind::Minus,
        UnaryOperator::Complement => Kind::Tilde,
    }
}

pub fn comparison_sign(comparison: Comparison) -> Kind
    ensures { result ≡ comparison_kind comparison }
{
    match comparison {
        Comparison::Equal => Kind::Equal,
        Comparison::Unequal => Kind::NotEqual,
        Comparison::Less => Kind::Less,
        Comparison::AtMost => Kind::LessEqual,
        Comparison::Greater => Kind::Greater,
        Comparison::AtLeast => Kind::GreaterEqual,
        Comparison::LessUnsigned => Kind::LessUnsigned,
        Comparison::AtMostUnsigned => Kind::LessEqualUnsigned,
        Comparison::GreaterUnsigned => Kind::GreaterUnsigned,
        Comparison::AtLeastUnsigned => Kind::GreaterEqualUnsigned,
    }
}

pub fn sum_sign(sign: SumSign) -> Kind
    ensures { result ≡ sum_kind sign }
{
    if sign.is_minus {
        Kind::Minus
    } else {
        Kind::Plus
    }
}

pub fn truth_sign(truth: bool) -> Kind
    ensures { result ≡ truth_kind truth }
{
    if truth { Kind::KwTrue } else { Kind::KwFalse }
}

/// Puts a name, and a prime where there is one.
pub fn put_primed_name(
    page: &mut Page,
    names: &Names,
    name: u32,
    is_primed: bool,
) -> Result<(), AllocError>
    ensures { OnOk result (page.new ≡ written names.now page.old (piece (pieces.name name) <+> prime is_primed).words) }
{
    put_name(page, names, name)?;
    if is_primed {
        put_sign(page, Kind::Prime)?;
    }
    Ok(())
}
