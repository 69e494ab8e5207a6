//! Whole numbers at the end of a text.

ghost use Rattle.std.specs.Prelude.{◌≡◌, ◌++◌, OnOk};
ghost use Rattle.std.specs.Fmt.{signed_decimal};

use crate::put;
use itoa::Buffer;
use std::alloc::AllocError;

/// Puts a whole number, with a sign where it is below 0.
pub(crate) fn put_integer(out: &mut Vec<u8>, z: i128) -> Result<(), AllocError>
    ensures { OnOk result (out.new.items ≡ out.old.items ++ signed_decimal z) }
{
    let mut buffer = Buffer::new();
    put(out, buffer.format(z).as_bytes())
}
