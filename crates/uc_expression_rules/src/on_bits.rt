//! Functions on bits.

ghost use Rattle.std.specs.Prelude.{◌≡◌, ◌&&◌, ◌∷◌};
ghost use Rattle.std.specs.Option.{is_some};
ghost use Rattle.uc_rules.specs.Expressions.{is_extension};
ghost use Rattle.uc_expression_rules.specs.Judging.{bits_outcome};

use uc_rules::{Outcome, Rule};
use uc_syntax::BitFunction;
use uc_type_names::{extended, shifted};
use uc_values::Ty;

/// What a function on bits gives, by the types of its arguments and by the number of the first one, where that is a plain number.
pub(crate) fn bits_outcome(
    function: BitFunction,
    number: Option<u128>,
    amount: Option<Ty>,
    others: &[Option<Ty>],
) -> Outcome
    ensures { result ≡ bits_outcome function number (amount ∷ others.now) }
{
    match others {
        [bits] => {
            if is_extension(function) {
                extended(number, &amount, bits)
            } else {
                shifted(&amount, bits)
            }
        }
        _ => Outcome::Breaks(Rule::WrongType),
    }
}

/// Whether the first argument is the number of an extension, which is judged by itself.
pub(crate) fn is_number_alone(function: BitFunction, number: Option<u128>) -> bool
    ensures { result ≡ (is_extension function && is_some number) }
{
    is_extension(function) && number.is_some()
}

/// Whether a function extends bits by a number.
fn is_extension(function: BitFunction) -> bool
    ensures { result ≡ is_extension function }
{
    match function {
        BitFunction::ZeroExtend => true,
        BitFunction::SignExtend => true,
        _ => false,
    }
}
