//! Expressions over cells say what the expressions of a design say.

ghost use Rattle.uc_flat_design.specs.FlatMeaningLaws.{FlatLaw};

/// What the expression over cells of an expression says.
pub fn flat_expressions()
    ensures { FlatLaw }
{}
