//! The blocks of the instances below a root: what each does, and which of them are stepped.

ghost use Rattle.uc_step_cycles.specs.StepLaw.{StepsAreFollowed};

/// A law of the definitions: the blocks that are stepped in a tree are those at the paths of the definitions.
pub fn steps_are_followed()
    ensures { StepsAreFollowed }
{}
