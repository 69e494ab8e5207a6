//! A law on designs that keep the static rules.

ghost use Rattle.uc_uses.specs.KeptModules.{RulesKeepModules};

/// A law of the definitions: in a design that keeps the static rules the module of each instance is there.
pub fn rules_keep_modules()
    ensures { RulesKeepModules }
{}
