//! Words of one of several kinds: operators of one level.

ghost use Rattle.std.specs.Prelude.{◌≡◌, ◌∷◌, []};
ghost use Rattle.uc_forms.specs.Form.{member, quiet};
ghost use Rattle.uc_forms.specs.Gives.{stop_deep};
ghost use Rattle.uc_forms.specs.Reading.{is_at, is_at_two};
ghost use Rattle.uc_forms.specs.Counted.{count_any};
ghost use Rattle.uc_forms.specs.CountedGives.{Counts};
ghost use Rattle.uc_grammar.specs.Code.{code_of};
ghost use Rattle.uc_grammar.specs.Syntax.{words, comparison, sum_sign, unary_operator};
ghost use Rattle.uc_grammar.specs.declared.word.Kind.TheVariants.{Plus, Equal, Not, Number, Colon};
ghost use Rattle.uc_parse_expressions.specs.Signs.{minus, orders, further_signs, sum_codes, order_codes, sign_codes};
ghost use Rattle.uc_parse_expressions.specs.Reading.{state};

use crate::Reader;
use uc_forms::{Fault, Stop};
use uc_grammar::{Kind, Word};
use uc_syntax::{Comparison, SumSign, UnaryOperator};

/// Whether `+` or `-` comes next.
pub(crate) fn at_sum_sign(reader: &Reader<'_>) -> bool
    ensures { result ≡ is_at words sum_codes reader.now.rest.now }
{
    match reader.rest {
        [] => false,
        [word, ..] => is_sum_sign(word.kind),
    }
}

/// Takes `+` or `-`.
pub(crate) fn take_sum_sign(reader: &mut Reader<'_>) -> Result<Word, Stop>
    ensures { Counts result (state reader.new) (count_any words quiet Plus minus (state reader.old)) }
{
    match reader.rest {
        [word, rest @ ..] if is_sum_sign(word.kind) => {
            reader.rest = rest;
            Ok(*word)
        }
        _ => Err(Stop::At(Fault::Syntax)),
    }
}

pub(crate) fn sum_sign_of(word: Word) -> SumSign
    ensures { result ≡ sum_sign word }
{
    SumSign {
        place: word.place,
        is_minus: matches!(word.kind, Kind::Minus),
    }
}

fn is_sum_sign(kind: Kind) -> bool
    ensures { result ≡ member (code_of kind) sum_codes }
{
    matches!(kind, Kind::Plus | Kind::Minus)
}

/// Whether a sign of a comparison comes next.
pub(crate) fn at_comparison(reader: &Reader<'_>) -> bool
    ensures { result ≡ is_at words order_codes reader.now.rest.now }
{
    match reader.rest {
        [] => false,
        [word, ..] => is_comparison(word.kind),
    }
}

/// Takes the sign of a comparison.
pub(crate) fn take_comparison(reader: &mut Reader<'_>) -> Result<Word, Stop>
    ensures { Counts result (state reader.new) (count_any words quiet Equal orders (state reader.old)) }
{
    match reader.rest {
        [word, rest @ ..] if is_comparison(word.kind) => {
            reader.rest = rest;
            Ok(*word)
        }
        _ => Err(Stop::At(Fault::Syntax)),
    }
}

pub(crate) fn comparison_of(kind: Kind) -> Comparison
    ensures { result ≡ comparison kind }
{
    match kind {
        Kind::NotEqual => Comparison::Unequal,
        Kind::Less => Comparison::Less,
        Kind::LessEqual => Comparison::AtMost,
        Kind::Greater => Comparison::Greater,
        Kind::GreaterEqual => Comparison::AtLeast,
        Kind::LessUnsigned => Comparison::LessUnsigned,
        Kind::LessEqualUnsigned => Comparison::AtMostUnsigned,
        Kind::GreaterUnsigned => Comparison::GreaterUnsigned,
        Kind::GreaterEqualUnsigned => Comparison::AtLeastUnsigned,
        _ => Comparison::Equal,
    }
}

fn is_comparison(kind: Kind) -> bool
    ensures { result ≡ member (code_of kind) order_codes }
{
    matches!(
        kind,
        Kind::Equal
            | Kind::NotEqual
            | Kind::Less
            | Kind::LessEqual
            | Kind::Greater
            | Kind::GreaterEqual
            | Kind::LessUnsigned
            | Kind::LessEqualUnsigned
            | Kind::GreaterUnsigned
            | Kind::GreaterEqualUnsigned
    )
}

/// Whether a sign that stands before its operand comes next.
pub(crate) fn at_sign(reader: &Reader<'_>) -> bool
    ensures { result ≡ is_at words sign_codes reader.now.rest.now }
{
    match reader.rest {
        [] => false,
        [word, ..] => is_sign(word.kind),
    }
}

/// Takes a sign that stands before its operand.
pub(crate) fn take_sign(reader: &mut Reader<'_>) -> Result<Word, Stop>
    ensures { Counts result (state reader.new) (count_any words quiet Not further_signs (state reader.old)) }
{
    match reader.rest {
        [word, rest @ ..] if is_sign(word.kind) => {
            reader.rest = rest;
            Ok(*word)
        }
        _ => Err(Stop::At(Fault::Syntax)),
    }
}

/// Why a sign with its operand cannot be read where no level is left for it.
pub(crate) fn no_level_for_sign(reader: &Reader<'_>) -> Stop
    ensures { result ≡ stop_deep (is_at words sign_codes reader.now.rest.now) }
{
    if at_sign(reader) {
        Stop::At(Fault::TooDeep)
    } else {
        Stop::At(Fault::Syntax)
    }
}

pub(crate) fn unary_operator_of(kind: Kind) -> UnaryOperator
    ensures { result ≡ unary_operator kind }
{
    match kind {
        Kind::Minus => UnaryOperator::Negate,
        Kind::Tilde => UnaryOperator::Complement,
        _ => UnaryOperator::Not,
    }
}

fn is_sign(kind: Kind) -> bool
    ensures { result ≡ member (code_of kind) sign_codes }
{
    matches!(kind, Kind::Not | Kind::Minus | Kind::Tilde)
}

/// Whether a number and then a colon come next.
pub(crate) fn at_bounds(reader: &Reader<'_>) -> bool
    ensures { result ≡ is_at_two words (Number 0) [] Colon reader.now.rest.now }
{
    match reader.rest {
        [one, two, ..] => {
            one.kind.code() == Kind::Number(0).code() && two.kind.code() == Kind::Colon.code()
        }
        _ => false,
    }
}
