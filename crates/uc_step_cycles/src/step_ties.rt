//! Laws that tie the graph of a tree, whose nodes are numbers, to the design: a cell depends on itself exactly where its number lies on a cycle.

ghost use Rattle.uc_step_cycles.specs.Ties.{CyclesAreNumbered, GraphsAreTied};

/// A law of the definitions: the graph of the numbers of a tree has exactly the edges that are asked of a graph of statements, conditions and cells
/// by their paths, and of a graph of uses.
pub fn graphs_are_tied()
    ensures { GraphsAreTied }
{}

/// A law of the definitions: a cell of a root depends on itself in a step exactly where its number lies on a cycle of the graph.
pub fn cycles_are_numbered()
    ensures { CyclesAreNumbered }
{}
