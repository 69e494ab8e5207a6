//! Why a function of a parser stopped.

ghost use Rattle.std.specs.Prelude.{◌≡◌};
ghost use Rattle.uc_forms.specs.declared.stop.Stop.TheVariants.{Memory};

use crate::fault::Fault;
use std::alloc::{AllocError, AllocFailed};

/// Why a function of a parser stopped. At a fault the words that are left begin with the faulty one.
#[derive(Clone, Copy, Debug, PartialEq, Eq)]
pub enum Stop {
    /// There was no memory.
    Memory,
    /// The next word is at fault.
    At(Fault),
}

impl From<AllocError> for Stop {
    ghost from_gives = { λ _ e. e ≡ Memory };

    fn from(_e: AllocError) -> Stop {
        Stop::Memory
    }
}

impl<T: Drop> From<AllocFailed<T>> for Stop {
    ghost from_gives = { λ _ e. e ≡ Memory };

    fn from(_e: AllocFailed<T>) -> Stop {
        Stop::Memory
    }
}
