//! The functions on bits.

ghost use Rattle.std.specs.Prelude.{◌≡◌, ◌≤◌, ◌+◌, IfOk, length};
ghost use Rattle.uc_values.specs.Values.{width_in};
ghost use Rattle.uc_meaning.specs.Operators.{on_bits};
ghost use Rattle.uc_meaning.specs.Expressions.{reads, on_bits_type, extension};
ghost use Rattle.uc_operators.specs.Words.{IsWord};
ghost use Rattle.uc_readings.specs.Readings.{reading_of, on_bits_said, natural, extended_type};

use crate::said::{Said, truth};
use crate::words::{is_word, width, width_in};
use std::alloc::{AllocError, Global};
use uc_syntax::BitFunction;
use uc_values::{Ty, Value, copy_ty};

/// What a function on bits says of arguments of these types and values: a number or an amount, and the bits.
pub fn on_bits(
    alloc: Global,
    function: BitFunction,
    types: &[Ty],
    values: &[Value],
) -> Result<Said, AllocError>
    ensures { IfOk result (λ r. reading_of r ≡ on_bits_said function types.now values.now) }
{
    if types.len() != 2 || values.len() != 2 {
        return Ok(truth(false));
    }
    on_two(alloc, function, &values[0], &types[1], &values[1])
}

#[tactic(auto, using(crate::proofs::Extended::extended_word))]
fn on_two(
    alloc: Global,
    function: BitFunction,
    number: &Value,
    ty: &Ty,
    value: &Value,
) -> Result<Said, AllocError>
    ensures { IfOk result (λ r. reading_of r ≡ reads (on_bits_type function number.now ty.now) (on_bits function number.now value.now)) }
{
    let more = extension(number)?;
    if !is_word(value) || width_in(value) > 64 || more > 64 - width_in(value) {
        return Err(AllocError);
    }
    let ty = on_bits_type(alloc, function, more, ty)?;
    let value = uc_operators::on_bits(function, number, value);
    Ok(Said { ty, value })
}

/// By how many bits a number extends; by none where it is negative or no number. More than 255 are want of memory.
fn extension(number: &Value) -> Result<u8, AllocError>
    ensures { IfOk result (λ n. n ≡ extension number.now) }
{
    match number {
        Value::Int(number) => whole_extension(*number),
        _ => Ok(0),
    }
}

fn whole_extension(number: i128) -> Result<u8, AllocError>
    ensures { IfOk result (λ n. n ≡ natural number) }
{
    if number < 0 {
        return Ok(0);
    }
    match u8::try_from(number) {
        Ok(more) => Ok(more),
        Err(_) => Err(AllocError),
    }
}

/// The type of what a function on bits gives.
fn on_bits_type(alloc: Global, function: BitFunction, more: u8, ty: &Ty) -> Result<Ty, AllocError>
    ensures { IfOk result (λ t. t ≡ extended_type function more ty.now) }
{
    match function {
        BitFunction::ZeroExtend | BitFunction::SignExtend => {
            if more > u8::MAX - width(ty) {
                return Err(AllocError);
            }
            Ok(Ty::Bv(width(ty) + more))
        }
        _ => copy_ty(alloc, ty),
    }
}
