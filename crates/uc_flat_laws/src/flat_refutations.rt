//! Laws: a trace refutes a line of a design exactly where one refutes the formula over cells.

ghost use Rattle.uc_flat_laws.specs.FlatRefutationsLaws.{FoundLaw, LinesLaw, RefutedLaw};

/// The lines after so many steps are those of the formulas of one copy, in order.
pub fn lines()
    ensures { LinesLaw }
{}

/// For each trace that refutes a line there is one over cells.
pub fn found()
    ensures { FoundLaw }
{}

/// A trace over cells that refutes a formula is one that refutes its line.
pub fn refuted()
    ensures { RefutedLaw }
{}
