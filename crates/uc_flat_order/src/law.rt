//! The law of the order.

ghost use Rattle.uc_flat_order.specs.Laws.{OrderLaw};

/// An arranged block has the statements of the block, or its slices; it can be run where either can be run in some order; and it
/// is the block itself where this can be run.
pub fn any_order()
    ensures { OrderLaw }
{}
