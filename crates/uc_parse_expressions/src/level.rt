//! The levels of expressions, by how tightly their operators bind.

ghost use Rattle.std.specs.Prelude.{◌≡◌};
ghost use Rattle.uc_parse_expressions.specs.Levels.{height, level_of, level_here};

use crate::Reader;
use crate::chain::Chain;
use uc_grammar::Kind;

/// A level reads an operand of the level below, and goes on with operators of its own.
#[derive(Clone, Copy, Debug)]
pub enum Level {
    /// No operator between operands.
    Unary,
    /// One operator between all operands.
    Chain(Chain),
    /// `+` and `-`
    Sum,
    /// At most one sign of a comparison.
    Comparison,
}

impl Level {
    /// The level with this operator, or `Unary` where words of this kind stand between no operands.
    fn of(kind: Kind) -> Level
        ensures { result ≡ level_of kind }
    {
        match kind {
            Kind::Star => Level::Chain(Chain::Product),
            Kind::Plus | Kind::Minus => Level::Sum,
            Kind::Concat => Level::Chain(Chain::Concat),
            Kind::Ampersand => Level::Chain(Chain::BitAnd),
            Kind::Caret => Level::Chain(Chain::BitXor),
            Kind::Bar => Level::Chain(Chain::BitOr),
            Kind::Equal
            | Kind::NotEqual
            | Kind::Less
            | Kind::LessEqual
            | Kind::Greater
            | Kind::GreaterEqual
            | Kind::LessUnsigned
            | Kind::LessEqualUnsigned
            | Kind::GreaterUnsigned
            | Kind::GreaterEqualUnsigned => Level::Comparison,
            Kind::And => Level::Chain(Chain::And),
            Kind::Or => Level::Chain(Chain::Or),
            Kind::Implies => Level::Chain(Chain::Implies),
            Kind::Iff => Level::Chain(Chain::Iff),
            _ => Level::Unary,
        }
    }

    /// How many levels bind tighter.
    pub(crate) fn height(self) -> u8
        ensures { result ≡ height self }
    {
        match self {
            Level::Unary => 0,
            Level::Chain(Chain::Product) => 1,
            Level::Sum => 2,
            Level::Chain(Chain::Concat) => 3,
            Level::Chain(Chain::BitAnd) => 4,
            Level::Chain(Chain::BitXor) => 5,
            Level::Chain(Chain::BitOr) => 6,
            Level::Comparison => 7,
            Level::Chain(Chain::And) => 8,
            Level::Chain(Chain::Or) => 9,
            Level::Chain(Chain::Implies) => 10,
            Level::Chain(Chain::Iff) => 11,
        }
    }
}

/// The level with the operator that comes next, or `Unary` where none does.
pub(crate) fn next_level(reader: &Reader<'_>) -> Level
    ensures { result ≡ level_here reader.now.rest.now }
{
    match reader.rest {
        [] => Level::Unary,
        [word, ..] => Level::of(word.kind),
    }
}
