//! Traces that refute a formula, and runs on free values.

ghost use Rattle.uc_flat.specs.FlatTracesLaws.{FoundLaw, RefutesLaw};

/// Each trace that refutes a formula is a run on free values under which the formula is refuted.
pub fn refutations_found()
    ensures { FoundLaw }
{}

/// A run on free values under which a formula is refuted gives a trace that refutes it.
pub fn runs_refute()
    ensures { RefutesLaw }
{}
