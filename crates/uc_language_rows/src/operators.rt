//! What operators give.

ghost use Rattle.std.specs.Prelude.{◌≡◌, ◌+◌, All, IfOk};
ghost use Rattle.uc_values.specs.Values.{width_in};
ghost use Rattle.uc_operators.specs.Words.{IsWord, total_width};

use std::alloc::Global;
use std::process::Abort;
use uc_items::Items;
use uc_meaning::{Wide, WideOp};
use uc_operators::{BitOperator, EvalError, bitwise, concatenated, multiplied, summed};
use uc_syntax::{Place, SumSign};
use uc_values::Value;

#[tactic(auto, using(crate::proofs::Pairs::both_words, crate::proofs::Pairs::both_widths))]
fn two(alloc: Global, first: Value, second: Value) -> Result<Items<Value>, EvalError>
    requires first { IsWord first }
    requires second { IsWord second }
    ensures words { IfOk result (All IsWord) }
    ensures width { IfOk result (λ vs. total_width vs ≡ width_in first + width_in second) }
{
    let mut values = Items::new(alloc);
    values.push(first)?;
    values.push(second)?;
    Ok(values)
}

fn sign(is_minus: bool) -> SumSign {
    let place = Place {
        file: 0,
        line: 1,
        col: 1,
    };
    SumSign { place, is_minus }
}

fn difference(alloc: Global) -> Result<Value, EvalError> {
    let numbers = two(alloc, Value::Int(5), Value::Int(7))?;
    summed(alloc, &[sign(true)], numbers.as_slice())
}

/// The words 12 and 10 of 4 bits.
fn words(alloc: Global) -> Result<Items<Value>, EvalError>
    ensures words { IfOk result (All IsWord) }
    ensures width { IfOk result (λ vs. total_width vs ≡ 8) }
{
    two(alloc, Value::Bv(4, 12), Value::Bv(4, 10))
}

fn is_number(value: Value, number: i128) -> bool {
    value == Value::Int(number)
}

fn is_word(value: Value, width: u8, bits: u64) -> bool {
    value == Value::Bv(width, bits)
}

fn check_words(rt: &impl Abort, alloc: Global, words: &[Value]) -> Result<(), EvalError>
    requires words { All IsWord words.now }
    requires width { total_width words.now ≡ 8 }
{
    assert!(rt; is_word(multiplied(alloc, words)?, 4, 8));
    assert!(rt; is_word(concatenated(alloc, words)?, 8, 202));
    assert!(rt; is_word(bitwise(alloc, BitOperator::Xor, words)?, 4, 6));
    Ok(())
}

#[test]
fn operators_give_the_defined_values(rt: HostRuntime) -> Result<(), EvalError> {
    let alloc = rt.alloc();
    assert!(rt; is_number(difference(alloc)?, -2));
    let words = words(alloc)?;
    check_words(&rt, alloc, words.as_slice())
}

#[test]
fn a_sum_that_leaves_128_bits_is_told(rt: HostRuntime) -> Result<(), EvalError> {
    let alloc = rt.alloc();
    let numbers = two(alloc, Value::Int(i128::MAX), Value::Int(1))?;
    let too_wide = EvalError::Wide(Wide {
        op: WideOp::Add,
        a: i128::MAX,
        b: 1,
    });
    let Err(error) = summed(alloc, &[sign(false)], numbers.as_slice()) else {
        assert!(rt; false);
        return Ok(());
    };
    assert!(rt; error == too_wide);
    Ok(())
}
