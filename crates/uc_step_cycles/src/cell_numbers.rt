//! A law on the cells of a tree of instances: their numbers stand for the cells of the design, and names are followed to the same cells.

ghost use Rattle.uc_step_cycles.specs.CellNumbersNumbers.{CellsAreNumbered};

/// A law of the definitions: each cell that a name stands for has a number of its own in the table, and a name of a node stands for that of the cell
/// for which it stands in the design.
pub fn cells_are_numbered()
    ensures { CellsAreNumbered }
{}
