//! A law on graphs that have the uses of a tree as nodes: from a bound input they lead to the cells that it reads.

ghost use Rattle.uc_step_cycles.specs.InputWays.{InputsLeadToCells};

/// A law of the definitions: in a graph in which edges lead from each use to what it uses and to the cells that it names itself, passages lead
/// from a bound input to exactly the cells that it reads.
pub fn inputs_lead_to_cells()
    ensures { InputsLeadToCells }
{}
