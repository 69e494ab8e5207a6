//! How often a loop turns.

ghost use Rattle.std.specs.Prelude.{◌≡◌, ◌+◌, ◌-◌, ◌^◌, length, min};
ghost use Rattle.uc_meaning.specs.Code.{turns};
ghost use Rattle.uc_written_once.specs.Bounds.{is_negative, size_of};

use uc_syntax::RangeBound;

/// How many turns a loop between two bounds has, or 2^128 - 1 where there are more.
#[tactic(auto, using(crate::proofs::Bounds::above_zero, crate::proofs::Bounds::below_zero, crate::proofs::Bounds::across_zero, crate::proofs::Bounds::from_above))]
pub fn turn_count(from: RangeBound, to: RangeBound) -> u128
    ensures { result ≡ min (length (turns from to)) (2 ^ 128 - 1) }
{
    match (is_negative(from), is_negative(to)) {
        (false, false) => span(size_of(from), size_of(to)),
        (true, true) => span(size_of(to), size_of(from)),
        (true, false) => across(size_of(from), size_of(to)),
        (false, true) => down(size_of(from), size_of(to)),
    }
}

/// How many numbers there are from one up to another.
fn span(low: u128, high: u128) -> u128
    ensures { result ≡ min (high + 1 - low) (2 ^ 128 - 1) }
{
    if low <= high {
        (high - low).saturating_add(1)
    } else {
        0
    }
}

/// How many numbers there are from the negative of one size up to another size.
fn across(below: u128, above: u128) -> u128
    ensures { result ≡ min (below + above + 1) (2 ^ 128 - 1) }
{
    below.saturating_add(above).saturating_add(1)
}

/// How many numbers there are from a size up to the negative of another one: zero alone, or none.
fn down(above: u128, below: u128) -> u128
    ensures { result ≡ 1 - (above + below) }
{
    if above == 0 && below == 0 { 1 } else { 0 }
}

fn is_negative(bound: RangeBound) -> bool
    ensures { result ≡ is_negative bound }
{
    match bound {
        RangeBound::Number(_, is_negative, _) => is_negative,
        RangeBound::BitsLiteral(..) => false,
    }
}

fn size_of(bound: RangeBound) -> u128
    ensures { result ≡ size_of bound }
{
    match bound {
        RangeBound::Number(_, _, size) => size,
        RangeBound::BitsLiteral(_, size, _) => size,
    }
}
