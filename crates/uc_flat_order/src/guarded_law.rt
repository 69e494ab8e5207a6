//! The law of slices.

ghost use Rattle.uc_flat_order.specs.GuardedLaws.{SlicesLaw};

/// The slices of code ask what the code asks.
pub fn slices_ask()
    ensures { SlicesLaw }
{}
