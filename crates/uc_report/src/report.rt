//! What a control block leads to.

ghost use Rattle.std.specs.Prelude.{◌≡◌};
ghost use Rattle.std.specs.List.{list_any};
ghost use Rattle.uc_report.specs.Reports.{status, is_passed, is_failed, is_undecided};

use crate::CellRef;
use uc_items::Items;
use uc_meaning::{Line, Trace};

/// Why a line is undecided.
#[derive(Clone, Copy, Debug, PartialEq, Eq)]
pub enum Why {
    /// The search spent all entries of this budget.
    Budget(u64),
    /// Memory was wanted.
    Memory,
}

/// What was found of a line.
#[derive(Drop)]
pub enum Verdict {
    /// No trace refutes the line.
    Passed,
    /// This one does.
    Failed(Trace),
    /// It is not known whether one does.
    Undef(Why),
}

/// A line with its verdict. The command is that of the line.
#[derive(Drop)]
pub struct LineResult {
    pub command: u32,
    pub line: Line,
    pub verdict: Verdict,
}

/// What a command prints.
#[derive(Drop)]
pub enum Print {
    /// The lines of the report from the place `first` on, up to `end` and without it.
    Results {
        first: u32,
        end: u32,
    },
    /// The counterexamples of the lines of these numbers, which failed, each with the values of these cells.
    Cex {
        lines: Items<u32>,
        paths: Items<CellRef>,
    },
}

/// The lines that are judged and the prints, both in the order of the commands.
#[derive(Drop)]
pub struct Report {
    pub lines: Items<LineResult>,
    pub prints: Items<Print>,
}

impl Verdict {
    pub fn is_passed(&self) -> bool
        ensures { result ≡ is_passed self.now }
    {
        matches!(self, Verdict::Passed)
    }

    pub fn is_failed(&self) -> bool
        ensures { result ≡ is_failed self.now }
    {
        matches!(self, Verdict::Failed(_))
    }

    pub fn is_undecided(&self) -> bool
        ensures { result ≡ is_undecided self.now }
    {
        match self {
            Verdict::Passed => false,
            Verdict::Failed(_) => false,
            Verdict::Undef(_) => true,
        }
    }
}

impl Report {
    fn has_failed_line(&self) -> bool
        ensures { result ≡ list_any (λ l. is_failed l.verdict) self.now.lines }
    {
        self.lines.as_slice().iter().any(|l| l.verdict.is_failed())
    }

    fn has_undecided_line(&self) -> bool
        ensures { result ≡ list_any (λ l. is_undecided l.verdict) self.now.lines }
    {
        self.lines
            .as_slice()
            .iter()
            .any(|l| l.verdict.is_undecided())
    }
}

/// The status of a program that wrote the report.
pub fn status_of(report: &Report) -> u8
    ensures { result ≡ status report.now }
{
    if report.has_failed_line() {
        1
    } else if report.has_undecided_line() {
        2
    } else {
        0
    }
}
