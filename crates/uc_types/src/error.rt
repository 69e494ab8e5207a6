//! Why a design is refused.

ghost use Rattle.std.specs.Prelude.{◌≡◌};
ghost use Rattle.uc_types.specs.declared.error.TypeError.TheVariants.{NoMemory};

use std::alloc::AllocError;
use uc_rules::Fault;

/// Why a design has no types.
#[derive(Clone, Copy, Debug, PartialEq, Eq)]
pub enum TypeError {
    NoMemory,
    /// A rule is broken: the first fault of the design.
    Fault(Fault),
}

impl From<AllocError> for TypeError {
    ghost from_gives = { λ _ e. e ≡ NoMemory };

    fn from(_: AllocError) -> TypeError {
        TypeError::NoMemory
    }
}
