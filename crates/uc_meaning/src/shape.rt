//! Expressions by their parts.

ghost use Rattle.uc_meaning.specs.Shapes.{HasShape};

use uc_syntax::{Branch, Comparison, Expr, Primary, Selection, SumSign, UnaryOperator};

/// The operator of a chain of operands.
#[derive(Clone, Copy)]
pub enum Chain<'a> {
    Iff,
    Implies,
    Or,
    And,
    BitOr,
    BitXor,
    BitAnd,
    Concat,
    Sum(&'a [SumSign]),
    Product,
}

/// An expression by its parts.
#[derive(Clone, Copy)]
pub enum Shape<'a> {
    Chosen(&'a [Branch<Expr>], &'a Expr),
    Chained(Chain<'a>, &'a [Expr]),
    Compared(Comparison, &'a Expr, &'a Expr),
    Applied(UnaryOperator, &'a Expr),
    Selected(&'a Primary<Expr>, &'a [Selection<Expr>]),
}

/// The shape of an expression.
pub fn shape_of(e: &Expr) -> Shape<'_>
    ensures { HasShape e.now result }
{
    match e {
        Expr::If(_, branches, otherwise) => Shape::Chosen(branches.as_slice(), otherwise.get()),
        Expr::Iff(_, operands, _) => Shape::Chained(Chain::Iff, operands.as_slice()),
        Expr::Implies(_, operands, _) => Shape::Chained(Chain::Implies, operands.as_slice()),
        Expr::Or(_, operands, _) => Shape::Chained(Chain::Or, operands.as_slice()),
        Expr::And(_, operands, _) => Shape::Chained(Chain::And, operands.as_slice()),
        Expr::Compare(_, how, _, a, b) => Shape::Compared(*how, a.get(), b.get()),
        Expr::BitOr(_, operands, _) => Shape::Chained(Chain::BitOr, operands.as_slice()),
        Expr::BitXor(_, operands, _) => Shape::Chained(Chain::BitXor, operands.as_slice()),
        Expr::BitAnd(_, operands, _) => Shape::Chained(Chain::BitAnd, operands.as_slice()),
        Expr::Concat(_, operands, _) => Shape::Chained(Chain::Concat, operands.as_slice()),
        Expr::Sum(_, operands, signs) => {
            Shape::Chained(Chain::Sum(signs.as_slice()), operands.as_slice())
        }
        Expr::Product(_, operands, _) => Shape::Chained(Chain::Product, operands.as_slice()),
        Expr::Unary(_, operator, a) => Shape::Applied(*operator, a.get()),
        Expr::Selected(_, primary, selections) => {
            Shape::Selected(primary, selections.as_slice())
        }
    }
}
