//! Functions on bits.

ghost use Rattle.std.specs.Prelude.{◌≡◌};
ghost use Rattle.uc_rules.specs.Expressions.{extended};
ghost use Rattle.uc_rules.specs.Rows.{pair};
ghost use Rattle.uc_type_names.specs.Numbers.{not_a_number};
ghost use Rattle.uc_rules.specs.declared.rows.Chain.TheVariants.{Bits};

use uc_rules::{Chain, Outcome, Rule, extended_type, joined};
use uc_values::Ty;

/// An extension by a number, where it is a plain one: else its first argument has this type.
pub fn extended(number: Option<u128>, ty: &Option<Ty>, bits: &Option<Ty>) -> Outcome
    ensures { result ≡ extended number ty.now bits.now }
{
    let Some(bits) = bits else {
        return Outcome::Unjudged;
    };
    match number {
        Some(number) => extended_type(number, bits),
        None => not_a_number(ty),
    }
}

fn not_a_number(ty: &Option<Ty>) -> Outcome
    ensures { result ≡ not_a_number ty.now }
{
    match ty {
        Some(_) => Outcome::Breaks(Rule::WrongType),
        None => Outcome::Unjudged,
    }
}

/// A shift: an amount and bits of one width.
pub fn shifted(amount: &Option<Ty>, bits: &Option<Ty>) -> Outcome
    ensures { result ≡ pair Bits amount.now bits.now }
{
    match amount {
        Some(amount) => match bits {
            Some(bits) => joined(Chain::Bits, amount, bits),
            None => Outcome::Unjudged,
        },
        None => Outcome::Unjudged,
    }
}
