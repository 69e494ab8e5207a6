//! Sums, differences and products that fit 128 signed bits, or the operation that does not.

ghost use Rattle.std.specs.Prelude.{◌≡◌, ◌+ℤ◌, ◌-ℤ◌, ◌*ℤ◌, IfOk, OnErr};
ghost use Rattle.uc_linear.specs.Exact.{IsWideOf, IsNarrow};

use std::alloc::{AllocError, AllocFailed};

/// An operation on whole numbers.
#[derive(Clone, Copy, Debug, PartialEq, Eq)]
pub enum WideOp {
    Add,
    Sub,
    Mul,
}

/// An operation on two numbers whose exact result leaves 128 signed bits.
#[derive(Clone, Copy, Debug, PartialEq, Eq)]
pub struct Wide {
    pub op: WideOp,
    pub a: i128,
    pub b: i128,
}

/// Why an exact result is not given.
#[derive(Debug, Drop)]
pub enum LinearError {
    NoMemory,
    Wide(Wide),
}

impl From<AllocError> for LinearError {
    ghost use Rattle.std.specs.Prelude.{◌≡◌};
    ghost use Rattle.uc_linear.specs.declared.exact.LinearError.TheVariants.{NoMemory};

    ghost from_gives = { λ _ error. error ≡ NoMemory };

    fn from(_: AllocError) -> LinearError {
        LinearError::NoMemory
    }
}

impl<T: Drop> From<AllocFailed<T>> for LinearError {
    ghost use Rattle.std.specs.Prelude.{◌≡◌};
    ghost use Rattle.uc_linear.specs.declared.exact.LinearError.TheVariants.{NoMemory};

    ghost from_gives = { λ _ error. error ≡ NoMemory };

    fn from(_: AllocFailed<T>) -> LinearError {
        LinearError::NoMemory
    }
}

/// `a + b`, or that operation where the result leaves 128 signed bits.
pub fn sum(a: i128, b: i128) -> Result<i128, LinearError>
    ensures ok { IfOk result (λ z. z ≡ a +ℤ b) }
    ensures narrow { IfOk result (λ _. IsNarrow (a +ℤ b)) }
    ensures err { OnErr result (IsWideOf result WideOp.Add a b) }
{
    a.checked_add(b).ok_or(LinearError::Wide(Wide {
        op: WideOp::Add,
        a,
        b,
    }))
}

/// `a - b`, or that operation where the result leaves 128 signed bits.
pub fn difference(a: i128, b: i128) -> Result<i128, LinearError>
    ensures ok { IfOk result (λ z. z ≡ a -ℤ b) }
    ensures narrow { IfOk result (λ _. IsNarrow (a -ℤ b)) }
    ensures err { OnErr result (IsWideOf result WideOp.Sub a b) }
{
    a.checked_sub(b).ok_or(LinearError::Wide(Wide {
        op: WideOp::Sub,
        a,
        b,
    }))
}

/// `a * b`, or that operation where the result leaves 128 signed bits.
pub fn product(a: i128, b: i128) -> Result<i128, LinearError>
    ensures ok { IfOk result (λ z. z ≡ a *ℤ b) }
    ensures narrow { IfOk result (λ _. IsNarrow (a *ℤ b)) }
    ensures err { OnErr result (IsWideOf result WideOp.Mul a b) }
{
    a.checked_mul(b).ok_or(LinearError::Wide(Wide {
        op: WideOp::Mul,
        a,
        b,
    }))
}
