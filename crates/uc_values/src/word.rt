//! Operators on the numbers that bit-vectors of a width stand for.

ghost use Rattle.std.specs.Prelude.{◌≡◌, ◌+◌, ◌≤◌, ◌<◌, ◌^◌, ◌%◌};
ghost use Rattle.uc_values.specs.Operators.{added, subtracted, multiplied, negated, complemented, is_low, signed, shifted_left, shifted_right, shifted_right_signed, concatenated, extracted, sign_extended};

/// The lowest bits.
fn low_bits(width: u8, number: u128) -> u64
    requires { width ≤ 64 }
    ensures { result ≡ number % 2 ^ width }
{
    (number % (1u128 << width)) as u64
}

/// The sum.
pub fn add(width: u8, a: u64, b: u64) -> u64
    requires { width ≤ 64 }
    ensures { result ≡ added width a b }
{
    low_bits(width, u128::from(a) + u128::from(b))
}

/// The difference.
pub fn subtract(width: u8, a: u64, b: u64) -> u64
    requires width { width ≤ 64 }
    requires b { b < 2 ^ width }
    ensures { result ≡ subtracted width a b }
{
    low_bits(width, u128::from(a) + ((1u128 << width) - u128::from(b)))
}

/// The product.
pub fn multiply(width: u8, a: u64, b: u64) -> u64
    requires { width ≤ 64 }
    ensures { result ≡ multiplied width a b }
{
    low_bits(width, u128::from(a) * u128::from(b))
}

/// 0 minus the number.
pub fn negate(width: u8, a: u64) -> u64
    requires width { width ≤ 64 }
    requires a { a < 2 ^ width }
    ensures { result ≡ negated width a }
{
    low_bits(width, (1u128 << width) - u128::from(a))
}

/// The number with each bit turned.
pub fn complement(width: u8, a: u64) -> u64
    requires width { width ≤ 64 }
    requires a { a < 2 ^ width }
    ensures { result ≡ complemented width a }
{
    ((1u128 << width) - 1 - u128::from(a)) as u64
}

/// Whether the highest bit is 0.
fn is_low(width: u8, a: u64) -> bool
    requires { width ≤ 64 }
    ensures { result ≡ is_low width a }
{
    u128::from(a) < 1u128 << width.saturating_sub(1)
}

/// The whole number that the bits stand for in two's complement.
pub fn signed(width: u8, a: u64) -> i128
    requires { width ≤ 64 }
    ensures { result ≡ signed width a }
{
    if is_low(width, a) {
        i128::from(a)
    } else {
        i128::from(a) - (1i128 << width)
    }
}

/// The shift to the left, which fills with 0.
pub fn shift_left(width: u8, a: u64, amount: u64) -> u64
    requires { width ≤ 64 }
    ensures { result ≡ shifted_left width a amount }
{
    if amount >= u64::from(width) {
        return 0;
    }
    low_bits(width, u128::from(a) << amount)
}

/// The shift to the right, which fills with 0.
pub fn shift_right(a: u64, amount: u64) -> u64
    ensures { result ≡ shifted_right a amount }
{
    if amount >= 64 {
        return 0;
    }
    a >> amount
}

/// The shift to the right, which fills with the highest bit.
pub fn shift_right_signed(width: u8, a: u64, amount: u64) -> u64
    requires width { width ≤ 64 }
    requires a { a < 2 ^ width }
    ensures { result ≡ shifted_right_signed width a amount }
{
    if is_low(width, a) {
        return shift_right(a, amount);
    }
    complement(width, shift_right(complement(width, a), amount))
}

/// The bits of two numbers, the first being the high part.
pub fn concat(high_width: u8, high: u64, low_width: u8, low: u64) -> u64
    requires widths { high_width + low_width ≤ 64 }
    requires high { high < 2 ^ high_width }
    requires low { low < 2 ^ low_width }
    ensures { result ≡ concatenated low_width high low }
{
    if low_width == 64 {
        return low;
    }
    (high << low_width) + low
}

/// The bits from high down to low, both included.
pub fn extract(high: u8, low: u8, a: u64) -> u64
    requires low { low ≤ high }
    requires high { high < 64 }
    ensures { result ≡ extracted high low a }
{
    low_bits(high - low + 1, u128::from(a >> low))
}

/// The number of `width + more` bits that stands for the same whole number.
pub fn sign_extend(width: u8, more: u8, a: u64) -> u64
    requires widths { width + more ≤ 64 }
    requires a { a < 2 ^ width }
    ensures { result ≡ sign_extended width more a }
{
    if is_low(width, a) {
        return a;
    }
    (u128::from(a) + ((1u128 << (width + more)) - (1u128 << width))) as u64
}
