//! The turns of a loop.

ghost use Rattle.std.specs.Prelude.{◌≡◌, ◌+◌, ◌+ℤ◌, ◌-ℤ◌, ◌≤ℤ◌, pos, nat_abs, map, IfOk};
ghost use Rattle.uc_values.specs.declared.value.Value.TheVariants.{Bv as word};
ghost use Rattle.uc_meaning.specs.Code.{bound_number, counted_up, turn_type, turn_value, turns};

use std::alloc::{AllocError, Global};
use uc_syntax::RangeBound;
use uc_values::{Ty, Value};

/// The type of a loop's variable. A width past 255 is want of memory.
pub fn turn_type(from: RangeBound) -> Result<Ty, AllocError>
    ensures { IfOk result (λ t. t ≡ turn_type from) }
{
    match from {
        RangeBound::Number(_, _, _) => Ok(Ty::Int),
        RangeBound::BitsLiteral(_, _, width) => match u8::try_from(width) {
            Ok(width) => Ok(Ty::Bv(width)),
            Err(_) => Err(AllocError),
        },
    }
}

/// The values that a loop's variable takes, in order. Bounds past 127 bits, bits past 64 and a width past 255 are want of memory.
#[tactic(auto, using(crate::proofs::Counting::no_numbers, crate::proofs::Counting::numbers_between))]
pub fn turns(alloc: Global, from: RangeBound, to: RangeBound) -> Result<Vec<Value>, AllocError>
    ensures { IfOk result (λ vs. vs.items ≡ turns from to) }
{
    let first = bound_number(from)?;
    let last = bound_number(to)?;
    if last < first {
        return Ok(Vec::new(alloc));
    }
    values_between(alloc, from, first, last)
}

/// The values at the numbers from the first to the last.
fn values_between(
    alloc: Global,
    from: RangeBound,
    first: i128,
    last: i128,
) -> Result<Vec<Value>, AllocError>
    requires { first ≤ℤ last }
    ensures { IfOk result (λ vs. vs.items ≡ map (turn_value from) (counted_up (nat_abs (last -ℤ first) + 1) first)) }
{
    let Ok(steps) = u64::try_from(last.abs_diff(first)) else {
        return Err(AllocError);
    };
    if steps == u64::MAX {
        return Err(AllocError);
    }
    let mut values = Vec::new(alloc);
    for step in 0..steps + 1 {
        let value = turn_value(from, first, step)?;
        values.push(value)?;
    }
    Ok(values)
}

fn bound_number(bound: RangeBound) -> Result<i128, AllocError>
    ensures { IfOk result (λ n. n ≡ bound_number bound) }
{
    match bound {
        RangeBound::Number(_, is_negative, size) => {
            let number = whole(size)?;
            if is_negative { Ok(-number) } else { Ok(number) }
        }
        RangeBound::BitsLiteral(_, bits, _) => whole(bits),
    }
}

fn whole(size: u128) -> Result<i128, AllocError>
    ensures { IfOk result (λ n. n ≡ pos size) }
{
    match i128::try_from(size) {
        Ok(number) => Ok(number),
        Err(_) => Err(AllocError),
    }
}

/// The value of a loop's variable behind so many turns.
fn turn_value(from: RangeBound, first: i128, step: u64) -> Result<Value, AllocError>
    ensures { IfOk result (λ v. v ≡ turn_value from (first +ℤ pos step)) }
{
    match first.checked_add(i128::from(step)) {
        Some(number) => value_at(from, number),
        None => Err(AllocError),
    }
}

fn value_at(from: RangeBound, number: i128) -> Result<Value, AllocError>
    ensures { IfOk result (λ v. v ≡ turn_value from number) }
{
    match from {
        RangeBound::Number(_, _, _) => Ok(Value::Int(number)),
        RangeBound::BitsLiteral(_, _, width) => bits(width, number),
    }
}

fn bits(width: u32, number: i128) -> Result<Value, AllocError>
    ensures { IfOk result (λ v. v ≡ word width (nat_abs number)) }
{
    let Ok(width) = u8::try_from(width) else {
        return Err(AllocError);
    };
    let Ok(bits) = u64::try_from(number.unsigned_abs()) else {
        return Err(AllocError);
    };
    Ok(Value::Bv(width, bits))
}
