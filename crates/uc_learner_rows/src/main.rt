//! Worked rows of clause learning: how searches of small problems end, each refutation given to the checker, beside what a
//! plain search says that scans all clauses; and which literals the clauses of a learner watch.
#![tactic(auto)]

mod entries;
mod instances;
mod report;
mod scanning;
mod searching;
mod watching;

use crate::report::whole_report;
use std::test::Fail;

fn main(rt: HostRuntime) -> Result<(), Fail> {
    let report = whole_report(rt.alloc())?;
    print!(rt; "{}", report.text)?;
    Ok(())
}
