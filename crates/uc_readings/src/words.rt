//! Which values are bit-vectors that the operators take.

ghost use Rattle.std.specs.Prelude.{◌≡◌, ◌≤◌, ◌<◌, ◌^◌, ◌↔◌, IsTrue, All, OnOk, IfOk};
ghost use Rattle.uc_values.specs.Values.{width_in};
ghost use Rattle.uc_meaning.specs.Expressions.{width};
ghost use Rattle.uc_operators.specs.Words.{IsWord, total_width};
ghost use Rattle.uc_meaning.specs.Shapes.{widths};

use std::alloc::AllocError;
use uc_values::{Ty, Value};

/// Whether a value is no bit-vector, or one of at most 64 bits that its width holds.
pub(crate) fn is_word(value: &Value) -> bool
    ensures { IsTrue result ↔ IsWord value.now }
{
    match value {
        Value::Bv(width, bits) => fits_width(*width, *bits),
        _ => true,
    }
}

fn fits_width(width: u8, bits: u64) -> bool
    ensures { IsTrue result ↔ ((width ≤ 64) × (bits < 2 ^ width)) }
{
    width <= 64 && u128::from(bits) < 1u128 << width
}

/// Answers want of memory where a value is none that the operators take.
pub(crate) fn check_word(value: &Value) -> Result<(), AllocError>
    ensures { OnOk result (IsWord value.now) }
{
    if is_word(value) {
        Ok(())
    } else {
        Err(AllocError)
    }
}

/// The same for several values.
pub(crate) fn check_words(values: &[Value]) -> Result<(), AllocError>
    ensures { OnOk result (All IsWord values.now) }
{
    for place in 0..values.len() {
        if !is_word(&values[place]) {
            return Err(AllocError);
        }
    }
    Ok(())
}

/// Answers want of memory where some values have more than 64 bits together.
#[tactic(auto, unfolding(uc_operators::specs::Words::total_width))]
pub(crate) fn check_total(values: &[Value]) -> Result<(), AllocError>
    ensures { OnOk result (total_width values.now ≤ 64) }
{
    let mut total: u8 = 0;
    for value in values {
        let width = width_in(value);
        if width > 64 - total {
            return Err(AllocError);
        }
        total += width;
    }
    Ok(())
}

/// The width of a bit-vector, and 0 for another value.
pub(crate) fn width_in(value: &Value) -> u8
    ensures { result ≡ width_in value.now }
{
    match value {
        Value::Bv(width, _) => *width,
        _ => 0,
    }
}

/// How many bits some types have together. More than 255 are want of memory.
#[tactic(auto, unfolding(uc_meaning::specs::Shapes::widths))]
pub(crate) fn widths(types: &[Ty]) -> Result<u8, AllocError>
    ensures { IfOk result (λ n. n ≡ widths types.now) }
{
    let mut total: u8 = 0;
    for ty in types {
        let width = width(ty);
        if width > u8::MAX - total {
            return Err(AllocError);
        }
        total += width;
    }
    Ok(total)
}

/// The width of a type of bit-vectors, and 0 for another type.
pub(crate) fn width(ty: &Ty) -> u8
    ensures { result ≡ width ty.now }
{
    match ty {
        Ty::Bv(width) => *width,
        _ => 0,
    }
}
