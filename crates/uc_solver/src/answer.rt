//! What a solver answers.

use std::alloc::AllocError;
use uc_blast::BlastError;
use uc_learner::LearnError;
use uc_log::Log;
use uc_terms::Model;

/// What a solver answers to a goal.
#[derive(Drop)]
pub enum Answer {
    /// A model under which the goal is true.
    Model(Model),
    /// A log that is accepted for the opened problem: no model makes the goal true.
    Refuted(Log),
}

/// Why there is no answer.
#[derive(Clone, Copy, Debug, PartialEq, Eq, Drop)]
pub enum SolveError {
    NoMemory,
    Budget,
}

impl From<AllocError> for SolveError {
    ghost use Rattle.std.specs.Prelude.{◌≡◌};
    ghost use Rattle.uc_solver.specs.declared.answer.SolveError.TheVariants.{NoMemory};

    ghost from_gives = { λ _ e. e ≡ NoMemory };

    fn from(_error: AllocError) -> SolveError {
        SolveError::NoMemory
    }
}

/// `blast` fails for want of memory alone: no goal with integers reaches it.
impl From<BlastError> for SolveError {
    ghost use Rattle.std.specs.Prelude.{◌≡◌};
    ghost use Rattle.uc_solver.specs.declared.answer.SolveError.TheVariants.{NoMemory};

    ghost from_gives = { λ _ e. e ≡ NoMemory };

    fn from(_error: BlastError) -> SolveError {
        SolveError::NoMemory
    }
}

impl From<LearnError> for SolveError {
    ghost use Rattle.uc_solver.specs.Causes.{IsOf};

    ghost from_gives = { λ cause e. IsOf cause e };

    fn from(error: LearnError) -> SolveError {
        match error {
            LearnError::NoMemory => SolveError::NoMemory,
            LearnError::Budget => SolveError::Budget,
        }
    }
}
