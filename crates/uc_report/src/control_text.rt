//! The text of a report.

ghost use Rattle.std.specs.Prelude.{◌≡◌, ◌++◌, OnOk, IfOk, slice_get, slice_range};
ghost use Rattle.std.specs.Option.{option_copied};
ghost use Rattle.std.specs.List.{flat_map};
ghost use Rattle.uc_report.specs.Described.{described};
ghost use Rattle.uc_report.specs.HeadsTables.{AreHeadTables};
ghost use Rattle.uc_report.specs.TraceTables.{AreCexTables, IsShown};
ghost use Rattle.uc_report.specs.Reports.{is_passed, is_failed, is_undecided};
ghost use Rattle.uc_report.specs.ControlText.{why_text, verdict_text, count_of, total_text, failed_text, numbered_text, line_text, totals_text, results_text, print_text, report_text};

use crate::report::{LineResult, Print, Report, Verdict, Why};
use crate::{
    CellRef, CexTables, DesignView, HeadTables, ShownDesign, put, put_between, put_cex, put_head,
    put_number,
};
use std::alloc::{AllocError, Global};
use uc_items::at;

/// The text of a report: that of its prints in order.
pub fn report_text(
    alloc: Global,
    d: &ShownDesign<'_>,
    report: &Report,
) -> Result<Vec<u8>, AllocError>
    requires { IsShown d.now }
    ensures { IfOk result (λ text. text.items ≡ report_text (described d.now.view) report.now) }
{
    let tables = CexTables::of(alloc, d)?;
    let mut text = Vec::new(alloc);
    for print in report.prints.as_slice() {
        put_print(&mut text, &d.view, &tables, report.lines.as_slice(), print)?;
    }
    Ok(text)
}

/// Puts what a command prints of these lines.
fn put_print(
    out: &mut Vec<u8>,
    d: &DesignView<'_>,
    tables: &CexTables<'_>,
    lines: &[LineResult],
    print: &Print,
) -> Result<(), AllocError>
    requires { AreCexTables (described d.now) tables.now }
    ensures { OnOk result (out.new.items ≡ out.old.items ++ print_text (described d.now) lines.now print.now) }
{
    match print {
        Print::Results { first, end } => {
            let lines = lines_between(lines, *first, *end);
            put_results(out, d, &tables.heads, lines)
        }
        Print::Cex {
            lines: numbers,
            paths,
        } => put_numbered(out, d, tables, lines, paths.as_slice(), numbers.as_slice()),
    }
}

/// Puts the counterexamples of the lines of these numbers.
fn put_numbered(
    out: &mut Vec<u8>,
    d: &DesignView<'_>,
    tables: &CexTables<'_>,
    lines: &[LineResult],
    paths: &[CellRef],
    numbers: &[u32],
) -> Result<(), AllocError>
    requires { AreCexTables (described d.now) tables.now }
    ensures { OnOk result (out.new.items ≡ out.old.items ++ flat_map (numbered_text (described d.now) lines.now paths.now) numbers.now) }
{
    for number in numbers {
        let line = at(lines, *number as usize);
        put_failed(out, d, tables, paths, line)?;
    }
    Ok(())
}

/// Puts the counterexample of a line, nothing where it has none.
fn put_failed(
    out: &mut Vec<u8>,
    d: &DesignView<'_>,
    tables: &CexTables<'_>,
    paths: &[CellRef],
    line: Option<&LineResult>,
) -> Result<(), AllocError>
    requires { AreCexTables (described d.now) tables.now }
    ensures { OnOk result (out.new.items ≡ out.old.items ++ failed_text (described d.now) paths.now (option_copied line.entry)) }
{
    match line {
        Some(
            LineResult {
                line,
                verdict: Verdict::Failed(trace),
                ..
            },
        ) => put_cex(out, d, tables, line, trace, paths),
        _ => Ok(()),
    }
}

/// Puts the totals of lines, and then the lines.
#[tactic(auto, unfolding(crate::specs::ControlText::results_text))]
fn put_results(
    out: &mut Vec<u8>,
    d: &DesignView<'_>,
    tables: &HeadTables<'_>,
    lines: &[LineResult],
) -> Result<(), AllocError>
    requires { AreHeadTables (described d.now) tables.now }
    ensures { OnOk result (out.new.items ≡ out.old.items ++ results_text (described d.now) lines.now) }
{
    put_totals(out, lines)?;
    for line in lines {
        put_line(out, d, tables, line)?;
    }
    Ok(())
}

#[tactic(auto, unfolding(crate::specs::ControlText::line_text))]
fn put_line(
    out: &mut Vec<u8>,
    d: &DesignView<'_>,
    tables: &HeadTables<'_>,
    line: &LineResult,
) -> Result<(), AllocError>
    requires { AreHeadTables (described d.now) tables.now }
    ensures { OnOk result (out.new.items ≡ out.old.items ++ line_text (described d.now) line.now) }
{
    put(out, b"  ")?;
    put_verdict(out, &line.verdict)?;
    put(out, b" -> ")?;
    put_head(out, d, tables, &line.line)?;
    put(out, b"\n")?;
    Ok(())
}

fn put_verdict(out: &mut Vec<u8>, verdict: &Verdict) -> Result<(), AllocError>
    ensures { OnOk result (out.new.items ≡ out.old.items ++ verdict_text verdict.now) }
{
    match verdict {
        Verdict::Passed => put(out, b"PASSED"),
        Verdict::Failed(_) => put(out, b"FAILED"),
        Verdict::Undef(why) => put_why(out, *why),
    }
}

#[tactic(auto, unfolding(crate::specs::ControlText::why_text))]
fn put_why(out: &mut Vec<u8>, why: Why) -> Result<(), AllocError>
    ensures { OnOk result (out.new.items ≡ out.old.items ++ why_text why) }
{
    match why {
        Why::Budget(budget) => put_between(out, b"UNDEF (budget ", budget, b")"),
        Why::Memory => put(out, b"UNDEF (memory)"),
    }
}

/// The lines of a print, as far as they are there.
fn lines_between(lines: &[LineResult], first: u32, end: u32) -> &[LineResult]
    ensures { result.now ≡ slice_range lines.now first end }
{
    let rest = &lines[lines.len().min(first as usize)..];
    let count = rest.len().min(end.saturating_sub(first) as usize);
    &rest[..count]
}

#[tactic(auto, unfolding(crate::specs::ControlText::total_text))]
fn put_total(out: &mut Vec<u8>, count: usize, word: &[u8]) -> Result<(), AllocError>
    ensures { OnOk result (out.new.items ≡ out.old.items ++ total_text count word.now) }
{
    put_number(out, count as u64)?;
    put(out, b" assertions ")?;
    put(out, word)?;
    put(out, b".\n")?;
    Ok(())
}

/// How many lines passed, failed and are undecided.
#[derive(Drop)]
struct Totals {
    passed: usize,
    failed: usize,
    undecided: usize,
}

fn totals_of(lines: &[LineResult]) -> Totals
    ensures passed { result.passed ≡ count_of is_passed lines.now }
    ensures failed { result.failed ≡ count_of is_failed lines.now }
    ensures undecided { result.undecided ≡ count_of is_undecided lines.now }
{
    let mut passed = 0;
    let mut failed = 0;
    let mut undecided = 0;
    for line in lines {
        match line.verdict {
            Verdict::Passed => passed += 1,
            Verdict::Failed(_) => failed += 1,
            Verdict::Undef(_) => undecided += 1,
        }
    }
    Totals {
        passed,
        failed,
        undecided,
    }
}

/// Puts how many lines have which verdict.
#[tactic(auto, unfolding(crate::specs::ControlText::totals_text))]
fn put_totals(out: &mut Vec<u8>, lines: &[LineResult]) -> Result<(), AllocError>
    ensures { OnOk result (out.new.items ≡ out.old.items ++ totals_text lines.now) }
{
    let totals = totals_of(lines);
    put_total(out, totals.passed, b"passed")?;
    put_total(out, totals.failed, b"failed")?;
    put_total(out, totals.undecided, b"indeterminate")?;
    Ok(())
}
