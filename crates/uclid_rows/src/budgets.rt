//! Lines that a budget leaves undecided.

use crate::in_memory::{file_of, print_ended};
use std::alloc::{AllocError, Global};
use std::io;
use uc_front::read_design;
use uc_io::MemTexts;
use uc_judge::{run_control, shown_design};
use uc_log::CountMeter;
use uc_report::{Verdict, cex_text, report_text, status_of};
use uc_runnable::Runnable;

/// Three pigeons do not fit into two holes: the first formula says it. The second one is false somewhere.
const PIGEONS: &[u8] =
    b"module main { var a, b, c, d, e, f : boolean; invariant crowded : !(a || b) || !(c || d) || !(e || f) || !(!a || !c) || !(!a || !e) || !(!c || !e) || !(!b || !d) || !(!b || !f) || !(!d || !f); invariant some : a || b; control { unroll(0); check; print_results; } }";

/// By a budget of one entry, and by 2 to the number of variables, which is enough.
pub(crate) fn print_budgets(rt: &HostRuntime) -> io::Result<()> {
    let alloc = rt.alloc();
    let mut files = Vec::new(alloc);
    files.push(file_of(alloc, "m.ucl", PIGEONS)?)?;
    let mut texts = MemTexts::new(files, 4096, Vec::new(alloc));
    match read_design(alloc, &mut texts, &["m.ucl"]) {
        Ok(design) => print_judged(rt, &design),
        Err(_) => println!(rt; "the design is refused"),
    }
}

fn print_judged(rt: &HostRuntime, design: &Runnable) -> io::Result<()> {
    for budget in [1, 64] {
        println!(rt; "# budget {budget}")?;
        let (status, text) = judged(rt.alloc(), design, budget)?;
        print_ended(rt, text.as_slice(), status)?;
    }
    Ok(())
}

/// The status and the report under a budget, and behind it the counterexample of each line that failed, which shows no cells.
fn judged(alloc: Global, design: &Runnable, budget: u64) -> Result<(u8, Vec<u8>), AllocError> {
    let mut meter = CountMeter::new();
    let report = run_control(alloc, design, budget.max(1), &mut meter)?;
    let shown = shown_design(design);
    let mut text = report_text(alloc, &shown, &report)?;
    for result in report.lines.as_slice() {
        if let Verdict::Failed(trace) = &result.verdict {
            let told = cex_text(alloc, &shown, &result.line, trace, &[])?;
            text.extend_from_slice(told.as_slice())?;
        }
    }
    Ok((status_of(&report), text))
}
