//! A law on designs that keep the static rules.

ghost use Rattle.uc_uses.specs.KeptLaw.{RulesKeepInstances};

/// A law of the definitions: in a design that keeps the static rules modules and instances have names of their own, and no module has
/// itself as an instance.
pub fn rules_keep_instances()
    ensures { RulesKeepInstances }
{}
