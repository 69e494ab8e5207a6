//! The design over numbered cells of a design of one module, and the laws that both do the same: the code of its `next` block, its initial
//! states and its steps.

ghost use Rattle.uc_flat_design.specs.Laws.{InitialLaw, StepLaw};
ghost use Rattle.uc_flat_design.specs.Next.{StepFitsLaw, StepFoundLaw, StepIsLaw};

/// Each step of a `next` block is one of the code over the cells of both states of its statements, or of its slices, in some
/// order, run in this order, where no way through them writes a part of a cell after it was written there, or read in the new state.
pub fn next_found()
    ensures { StepFoundLaw }
{}

/// Each step of that code over cells is one of the block, under the same condition.
pub fn next_asks()
    ensures { StepIsLaw }
{}

/// That code over cells leads to fitting cells.
pub fn next_fits()
    ensures { StepFitsLaw }
{}

/// Both designs have the same initial states, with the same choices.
pub fn initial_states()
    ensures { InitialLaw }
{}

/// Both have the same steps.
pub fn steps()
    ensures { StepLaw }
{}
