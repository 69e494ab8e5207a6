//! What an expression says, and what literals say.

ghost use Rattle.std.specs.Prelude.{◌≡◌, pos, IfOk};
ghost use Rattle.uc_values.specs.declared.ty.Ty.TheVariants.{Int as integer_type, Bv as bits_type};
ghost use Rattle.uc_values.specs.declared.value.Value.TheVariants.{Int as whole, Bv as word};
ghost use Rattle.uc_meaning.specs.Expressions.{reads, reads_truth};
ghost use Rattle.uc_readings.specs.Readings.{reading_of};

use std::alloc::AllocError;
use uc_values::{Ty, Value};

/// The type and the value of an expression.
#[derive(Drop)]
pub struct Said {
    pub ty: Ty,
    pub value: Value,
}

/// A truth value.
pub fn truth(holds: bool) -> Said
    ensures { reading_of result ≡ reads_truth holds }
{
    Said {
        ty: Ty::Bool,
        value: Value::Bool(holds),
    }
}

/// A whole number. One past 127 bits is want of memory.
pub fn number(value: u128) -> Result<Said, AllocError>
    ensures { IfOk result (λ r. reading_of r ≡ reads integer_type (whole (pos value))) }
{
    match i128::try_from(value) {
        Ok(value) => Ok(Said {
            ty: Ty::Int,
            value: Value::Int(value),
        }),
        Err(_) => Err(AllocError),
    }
}

/// A bit-vector by its value and its width. Those past the range of a bit-vector are want of memory.
pub fn bits_literal(value: u128, width: u32) -> Result<Said, AllocError>
    ensures { IfOk result (λ r. reading_of r ≡ reads (bits_type width) (word width value)) }
{
    match u64::try_from(value) {
        Ok(value) => match u8::try_from(width) {
            Ok(width) => Ok(Said {
                ty: Ty::Bv(width),
                value: Value::Bv(width, value),
            }),
            Err(_) => Err(AllocError),
        },
        Err(_) => Err(AllocError),
    }
}
