//! The chains of one level.

ghost use Rattle.std.specs.Prelude.{◌≡◌};
ghost use Rattle.uc_parse_expressions.specs.Chains.{sign_of, node_of, operand_level};

use crate::level::Level;
use uc_grammar::Kind;
use uc_items::Items;
use uc_syntax::{Expr, Place};

/// The levels at which one operator stands between all operands, from the tightest on.
#[derive(Clone, Copy, Debug, PartialEq, Eq)]
pub enum Chain {
    Product,
    Concat,
    BitAnd,
    BitXor,
    BitOr,
    And,
    Or,
    Implies,
    Iff,
}

impl Chain {
    /// The operator.
    pub(crate) fn sign(self) -> Kind
        ensures { result ≡ sign_of self }
    {
        match self {
            Chain::Product => Kind::Star,
            Chain::Concat => Kind::Concat,
            Chain::BitAnd => Kind::Ampersand,
            Chain::BitXor => Kind::Caret,
            Chain::BitOr => Kind::Bar,
            Chain::And => Kind::And,
            Chain::Or => Kind::Or,
            Chain::Implies => Kind::Implies,
            Chain::Iff => Kind::Iff,
        }
    }

    /// The level of the operands.
    pub(crate) fn operand(self) -> Level
        ensures { result ≡ operand_level self }
    {
        match self {
            Chain::Product => Level::Unary,
            Chain::Concat => Level::Sum,
            Chain::BitAnd => Level::Chain(Chain::Concat),
            Chain::BitXor => Level::Chain(Chain::BitAnd),
            Chain::BitOr => Level::Chain(Chain::BitXor),
            Chain::And => Level::Comparison,
            Chain::Or => Level::Chain(Chain::And),
            Chain::Implies => Level::Chain(Chain::Or),
            Chain::Iff => Level::Chain(Chain::Implies),
        }
    }

    pub(crate) fn node(self, place: Place, operands: Items<Expr>, places: Items<Place>) -> Expr
        ensures { result ≡ node_of self place operands places }
    {
        match self {
            Chain::Product => Expr::Product(place, operands, places),
            Chain::Concat => Expr::Concat(place, operands, places),
            Chain::BitAnd => Expr::BitAnd(place, operands, places),
            Chain::BitXor => Expr::BitXor(place, operands, places),
            Chain::BitOr => Expr::BitOr(place, operands, places),
            Chain::And => Expr::And(place, operands, places),
            Chain::Or => Expr::Or(place, operands, places),
            Chain::Implies => Expr::Implies(place, operands, places),
            Chain::Iff => Expr::Iff(place, operands, places),
        }
    }
}
