//! A law on what a bound input reads: the cells that the expression bound to it names, and those of all that it uses.

ghost use Rattle.uc_order_rules.specs.Reading.{InputsReadUses};

/// A law of the definitions: a bound input reads the cells that it names itself and those that the defines and bound inputs name to which ways of
/// uses lead from it. So the bound on how far uses are read is never felt.
pub fn inputs_read_uses()
    ensures { InputsReadUses }
{}
