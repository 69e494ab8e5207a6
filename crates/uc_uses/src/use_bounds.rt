//! Laws on how far ways of uses and calls, and instances below a root, are followed.

ghost use Rattle.uc_uses.specs.BoundLaw.{UsesAreFollowed};
ghost use Rattle.uc_uses.specs.JudgedLaw.{JudgedInstancesAreAll};

/// A law of the definitions: where modules and instances have names of their own and no module has itself as an instance, the bound on how
/// many uses are followed is never felt.
pub fn uses_are_followed()
    ensures { UsesAreFollowed }
{}

/// A law of the definitions: in a root that is judged the bound on chains of instances is never felt: the instances through 32 modules are
/// all instances.
pub fn judged_instances_are_all()
    ensures { JudgedInstancesAreAll }
{}
