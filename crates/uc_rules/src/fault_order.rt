//! Laws on the first of several faults: it is the same in whatever order, and however often, the faults are noted.

ghost use Rattle.uc_rules.specs.AnyOrder.{AnyOrder, NotedAgain};

/// A law of the definitions: of the faults of two lists the first one is the same, whichever list is noted first.
#[tactic(auto, using(crate::proofs::Swaps::any_order))]
pub fn faults_in_any_order()
    ensures { AnyOrder }
{}

/// A law of the definitions: faults that are noted again change nothing.
#[tactic(auto, using(crate::proofs::Swaps::noted_again))]
pub fn faults_noted_again()
    ensures { NotedAgain }
{}
