//! Lines with their verdicts.

use std::alloc::AllocError;
use uc_flat_copies::FlatCopies;
use uc_linear::LinearError;

/// Why a line is not decided.
#[derive(Clone, Copy, Drop)]
pub enum FlatWhy {
    /// Memory was wanted, the goal is not finite, or a number left 128 bits.
    Memory,
    /// The search spent all entries of the budget.
    Budget,
}

impl From<AllocError> for FlatWhy {
    ghost use Rattle.std.specs.Prelude.{◌≡◌};
    ghost use Rattle.uc_flat_lines.specs.declared.line.FlatWhy.TheVariants.{Memory};

    ghost from_gives = { λ _ e. e ≡ Memory };

    fn from(_error: AllocError) -> FlatWhy {
        FlatWhy::Memory
    }
}

/// A number that leaves 128 bits counts as want of memory.
impl From<LinearError> for FlatWhy {
    ghost use Rattle.std.specs.Prelude.{◌≡◌};
    ghost use Rattle.uc_flat_lines.specs.declared.line.FlatWhy.TheVariants.{Memory};

    ghost from_gives = { λ _ e. e ≡ Memory };

    fn from(_error: LinearError) -> FlatWhy {
        FlatWhy::Memory
    }
}

/// What was found of a formula after so many steps.
#[derive(Drop)]
pub enum FlatVerdict {
    /// No trace refutes the formula.
    Passed,
    /// A trace that refutes it.
    Failed(FlatCopies),
    /// It is not known whether there is one.
    Undef(FlatWhy),
}

/// The verdict on a formula, by its number, after so many steps.
#[derive(Drop)]
pub struct FlatLine {
    pub steps: u32,
    pub formula: u32,
    pub verdict: FlatVerdict,
}
