//! Laws on what the blocks of a root write and read: each statement by its path, and what it reads through the conditions around it.

ghost use Rattle.uc_step_cycles.specs.Stepping.{DependencesAreReached, WritingsAreReached};

/// A law of the definitions: the statements that may write are those of the blocks that are stepped, at their places and with their cells.
pub fn writings_are_reached()
    ensures { WritingsAreReached }
{}

/// A law of the definitions: a cell depends on those that a statement that writes it reads primed itself, or through the conditions around it and
/// around the steps that lead to its block.
pub fn dependences_are_reached()
    ensures { DependencesAreReached }
{}
