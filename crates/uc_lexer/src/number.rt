//! Numbers and bit-vector literals.

ghost use Rattle.std.specs.Prelude.{◌≡◌, ◌≤◌, ◌^◌, length, true};
ghost use Rattle.std.specs.List.{take_while};
ghost use Rattle.uc_lexer.specs.Bytes as byte;
ghost use Rattle.uc_lexer.specs.Bytes.{AreAll, value_of};
ghost use Rattle.uc_lexer.specs.Reading.{behind_bv, width_digits, below};

/// The length of the longest front of digits.
pub(crate) fn digits_end(text: &[u8]) -> usize
    ensures { result ≡ length (take_while byte.is_digit text.now) }
{
    text.iter().take_while(|c| c.is_ascii_digit()).count()
}

/// What comes after `bv`, or nothing.
pub(crate) fn after_bv(text: &[u8]) -> &[u8]
    ensures value { result.now ≡ behind_bv text.now }
    ensures within { length result.now ≤ length text.now }
{
    match text.strip_prefix(b"bv") {
        Some(rest) => rest,
        None => &[],
    }
}

/// The digits of a width, given what is behind the value: none where this is no literal.
pub(crate) fn width_digits(rest: &[u8]) -> &[u8]
    ensures value { result.now ≡ width_digits rest.now }
    ensures digits { AreAll byte.is_digit result.now }
    ensures within { length result.now ≤ length rest.now }
{
    let digits = after_bv(rest);
    &digits[..digits_end(digits)]
}

/// The value of digits, where it is below 2^128.
pub(crate) fn value(digits: &[u8]) -> Option<u128>
    requires { AreAll byte.is_digit digits.now }
    ensures { result ≡ below (2 ^ 128) (value_of digits.now) }
{
    let mut value = 0;
    for digit in digits {
        value = with_digit(value, *digit)?;
    }
    Some(value)
}

/// The value with one more digit, where it is below 2^128.
#[inline(always)]
fn with_digit(value: u128, digit: u8) -> Option<u128>
    requires { byte.is_digit digit ≡ true }
    ensures { result ≡ below (2 ^ 128) (byte.with_digit value digit) }
{
    value.checked_mul(10)?.checked_add(u128::from(digit - b'0'))
}

/// The value of digits, where it is below 2^32.
pub(crate) fn width(digits: &[u8]) -> Option<u32>
    requires { AreAll byte.is_digit digits.now }
    ensures { result ≡ below (2 ^ 32) (value_of digits.now) }
{
    u32::try_from(value(digits)?).ok()
}
