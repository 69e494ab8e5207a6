//! The greatest common divisor of coefficients, and quotients by it.

ghost use Rattle.std.specs.Prelude.{◌≡◌, ◌<◌, ◌≤◌, ◌^◌, map};
ghost use Rattle.std.specs.Int.{IsGcd};
ghost use Rattle.uc_linear.specs.Tightening.{IsGreatestDivisor, IsCeiling, over, toward_zero};

/// The greatest common divisor of the coefficients; 0 where there are none.
pub(crate) fn greatest_divisor(pairs: &[(u32, i128)]) -> u128
    ensures { IsGreatestDivisor result pairs.now }
{
    let mut divisor = 0u128;
    for (_, coefficient) in pairs {
        divisor = gcd(divisor, coefficient.unsigned_abs());
        if divisor == 1 {
            return 1;
        }
    }
    divisor
}

fn gcd(a: u128, b: u128) -> u128
    ensures { IsGcd a b result }
{
    let mut x = a;
    let mut y = b;
    'divide: while y != 0 {
        let rest = x % y;
        x = y;
        y = rest;
    }
    x
}

/// The quotient, rounded toward 0.
fn toward_zero(number: i128, divisor: u128) -> i128
    requires { 1 < divisor }
    ensures { result ≡ toward_zero number divisor }
{
    let size = (number.unsigned_abs() / divisor) as i128;
    if number < 0 { -size } else { size }
}

/// The quotient, rounded up.
pub(crate) fn ceiling(number: i128, divisor: u128) -> i128
    requires { 1 < divisor }
    ensures { IsCeiling number divisor result }
{
    let size = number.unsigned_abs();
    if number < 0 {
        -((size / divisor) as i128)
    } else {
        size.div_ceil(divisor) as i128
    }
}

/// Divides the coefficients in their places.
pub(crate) fn divide(pairs: &mut Vec<(u32, i128)>, divisor: u128)
    requires { 1 < divisor }
    ensures { pairs.new.items ≡ map (over divisor) pairs.old.items }
{
    for place in 0..pairs.len() {
        let (variable, coefficient) = pairs[place];
        pairs[place] = (variable, toward_zero(coefficient, divisor));
    }
}
