//! A law on graphs some of whose first nodes stand for things, while those behind them stand between: what depends on itself lies on a cycle.

ghost use Rattle.uc_order_rules.specs.Passages.{CyclesArePassed};

/// A law of the definitions: where a graph carries a relation between things through nodes between them, a thing is led back to itself by
/// the relation, in as many steps as there are things, exactly where its node lies on a cycle of the graph.
pub fn cycles_are_passed()
    ensures { CyclesArePassed }
{}
