//! The operations of copies.

ghost use Rattle.std.specs.Prelude.{◌≡◌, IfOk};
ghost use Rattle.uc_compose.specs.Copies.{moved, moved_op};

use std::alloc::{AllocError, Global};
use uc_ops::copy_op;
use uc_terms::Op;
use uc_values::copy_ty;

/// The operation of the copy.
pub(crate) fn moved_op(alloc: Global, op: &Op, shared: u32, by: u32) -> Result<Op, AllocError>
    ensures { IfOk result (λ o. o ≡ moved_op shared by op.now) }
{
    match op {
        Op::Symbol(number, ty) => {
            let number = moved(*number, shared, by)?;
            Ok(Op::Symbol(number, copy_ty(alloc, ty)?))
        }
        other => copy_op(alloc, other),
    }
}

/// The number of a symbol in the copy.
fn moved(number: u32, shared: u32, by: u32) -> Result<u32, AllocError>
    ensures { IfOk result (λ n. n ≡ moved shared by number) }
{
    if number < shared {
        return Ok(number);
    }
    match number.checked_add(by) {
        Some(after) => Ok(after),
        None => Err(AllocError),
    }
}
