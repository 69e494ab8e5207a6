//! What the answers of a run mean: texts denote at most one design, are never both accepted and refused, and are refused in one way;
//! and lines that passed say what holds in all runs.
#![tactic(auto)]

ghost use Rattle.uclid_laws.specs.Laws.{OneDesign, NeverBoth, OneRefusal, AcceptedRuns, RefusedRuns, TypedApart, RunningApart, EnoughBudget, PassedInduction, PassedUnroll, PassedVerify, CleanRun, FailedRun};

/// The texts of files denote at most one design.
pub fn one_design()
    ensures { OneDesign }
{}

/// No texts are both accepted and refused.
pub fn never_both()
    ensures { NeverBoth }
{}

/// No texts are refused in two ways.
pub fn one_refusal()
    ensures { OneRefusal }
{}

/// Where texts are accepted, a run on them reports their one design.
pub fn accepted_runs()
    ensures { AcceptedRuns }
{}

/// Where texts are refused, a run on them answers their one refusal.
pub fn refused_runs()
    ensures { RefusedRuns }
{}

/// A design that keeps the static rules has its instances apart.
pub fn typed_apart()
    ensures { TypedApart }
{}

/// A design that runs has its instances apart.
pub fn running_apart()
    ensures { RunningApart }
{}

/// A line whose budget covers all values of its free bits is not undecided by it.
pub fn enough_budget()
    ensures { EnoughBudget }
{}

/// Where all lines of an induction passed, everything holds in all runs.
pub fn passed_induction()
    ensures { PassedInduction }
{}

/// Where all lines of an unrolling passed, everything holds in all runs of at most so many steps.
pub fn passed_unroll()
    ensures { PassedUnroll }
{}

/// Where all lines of a verification passed, the procedure is correct.
pub fn passed_verify()
    ensures { PassedVerify }
{}

/// Where a run ends with status 0, its texts are accepted, and everything holds up to the depth of each unrolling.
pub fn clean_run()
    ensures { CleanRun }
{}

/// Where a run ends with status 1, its texts are accepted, and a trace refutes a line.
pub fn failed_run()
    ensures { FailedRun }
{}
