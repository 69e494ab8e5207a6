//! A law on graphs of the statements and conditions of the blocks that a root steps: they carry the dependence of cells.

ghost use Rattle.uc_step_cycles.specs.Graphs.{GraphsCarrySteps};

/// A law of the definitions: a graph with a node for each statement that may write and for each condition, in which one edge leads to what each
/// reads primed itself and one to the condition around it, leads from cell to cell exactly as cells depend on each other, and a cell depends on
/// itself exactly where its node lies on a cycle.
pub fn graphs_carry_steps()
    ensures { GraphsCarrySteps }
{}
