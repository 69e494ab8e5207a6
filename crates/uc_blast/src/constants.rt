//! The words of constants.

ghost use Rattle.std.specs.Prelude.{IfOk};
ghost use Rattle.uc_blast.specs.Constants.{IsPlain, StandsForValue};

use std::alloc::{AllocError, Global};
use uc_circuit::{Signal, constant};
use uc_items::Items;
use uc_values::Value;

/// The word of a boolean or of a bit-vector.
pub(crate) fn constant_word(alloc: Global, value: &Value) -> Result<Items<Signal>, AllocError>
    requires { IsPlain value.now }
    ensures { IfOk result (StandsForValue value.now) }
{
    match value {
        Value::Bool(truth) => truth_word(alloc, *truth),
        Value::Bv(width, number) => number_word(alloc, *width, *number),
        _ => unreachable!(),
    }
}

fn truth_word(alloc: Global, truth: bool) -> Result<Items<Signal>, AllocError>
    ensures { IfOk result (StandsForValue (Value.Bool truth)) }
{
    Items::from_slice(alloc, &[Signal::Constant(truth)])
}

fn number_word(alloc: Global, width: u8, number: u64) -> Result<Items<Signal>, AllocError>
    requires { IsPlain (Value.Bv width number) }
    ensures { IfOk result (StandsForValue (Value.Bv width number)) }
{
    let bits = constant(alloc, width, number)?;
    Ok(Items::from_vec(bits))
}
