//! Why a design is refused.

ghost use Rattle.std.specs.Prelude.{◌≡◌};
ghost use Rattle.uc_order.specs.declared.error.OrderError.TheVariants.{NoMemory};

use std::alloc::AllocError;
use uc_rules::Fault;

/// Why a design has no order.
#[derive(Clone, Copy, Debug, PartialEq, Eq)]
pub enum OrderError {
    NoMemory,
    /// A rule on order or sizes is broken: the first fault of the design.
    Fault(Fault),
}

impl From<AllocError> for OrderError {
    ghost from_gives = { λ _ e. e ≡ NoMemory };

    fn from(_: AllocError) -> OrderError {
        OrderError::NoMemory
    }
}
