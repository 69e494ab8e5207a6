//! Literals, widths and functions on bits.

ghost use Rattle.std.specs.Prelude.{◌≡◌};
ghost use Rattle.uc_rules.specs.Rows.{bits_literal, extended_type, number_literal, width_outcome};

use crate::outcome::Outcome;
use crate::rule::Rule;
use uc_values::Ty;

/// An integer literal.
pub fn number_literal(n: u128) -> Outcome
    ensures { result ≡ number_literal n }
{
    if n < 0x80000000000000000000000000000000 {
        Outcome::Has(Ty::Int)
    } else {
        Outcome::Breaks(Rule::WideLiteral)
    }
}

/// The width of a written type.
pub fn width_outcome(w: u32) -> Outcome
    ensures { result ≡ width_outcome w }
{
    if 0 < w && w < 65 {
        Outcome::Has(Ty::Bv(w as u8))
    } else {
        Outcome::Breaks(Rule::BadWidth)
    }
}

/// A bit-vector literal, by its value and its width.
pub fn bits_literal(n: u128, w: u32) -> Outcome
    ensures { result ≡ bits_literal n w }
{
    if 0 < w && w < 65 && n >> w == 0 {
        Outcome::Has(Ty::Bv(w as u8))
    } else {
        Outcome::Breaks(Rule::BadWidth)
    }
}

/// An extension by a number of bits.
pub fn extended_type(n: u128, t: &Ty) -> Outcome
    ensures { result ≡ extended_type n t.now }
{
    match t {
        Ty::Bv(w) => {
            let w = *w;
            if n > 64 || 64 < w as u128 + n {
                Outcome::Breaks(Rule::BadWidth)
            } else {
                Outcome::Has(Ty::Bv(w + n as u8))
            }
        }
        _ => Outcome::Breaks(Rule::WrongType),
    }
}
