//! Constants.

ghost use Rattle.std.specs.Prelude.{◌≤◌, ◌<◌, ◌^◌, IfOk};
ghost use Rattle.uc_circuit.specs.Meanings.{AreConstant};

use crate::Signal;
use std::alloc::{AllocError, Global};

/// The signals of a number, from its lowest bit.
pub fn constant(alloc: Global, width: u8, number: u64) -> Result<Vec<Signal>, AllocError>
    requires width { width ≤ 64 }
    requires number { number < 2 ^ width }
    ensures { IfOk result (λ r. AreConstant width number r.items) }
{
    let mut bits = Vec::with_capacity(alloc, usize::from(width))?;
    let mut rest = number;
    for _bit in 0..width {
        bits.push(Signal::Constant(rest % 2 == 1))?;
        rest /= 2;
    }
    Ok(bits)
}
