//! The report of a control block.

ghost use Rattle.std.specs.Prelude.{◌+◌, ◌*◌, ◌≤◌, ◌<◌, ◌^◌, length, IfOk};
ghost use Rattle.uc_report.specs.Verdicts.{out_of_budget};
ghost use Rattle.uc_judge.specs.Reports.{IsReport};

use crate::commands::{commands_of, count_followed};
use crate::judging::judge_commands;
use crate::walk::prints_of;
use std::alloc::{AllocError, Global};
use uc_log::Meter;
use uc_report::Report;
use uc_runnable::Runnable;

/// The report of the design's control block, with this budget of log entries for each line. Want of memory is answered too where a
/// report would have 2^32 lines, and where a run has 2^32 free values.
pub fn run_control<M: Meter>(
    alloc: Global,
    d: &Runnable,
    budget: u64,
    meter: &mut M,
) -> Result<Report, AllocError>
    requires some { 1 ≤ budget }
    requires total { M.total meter.old < 2 ^ 126 }
    ensures report { IfOk result (IsReport d.now budget) }
    ensures spent { IfOk result (λ r. M.total meter.old + budget * out_of_budget r.lines ≤ M.total meter.new) }
    ensures within { IfOk result (λ r. M.total meter.new ≤ M.total meter.old + budget * length r.lines) }
    ensures later { M.total meter.old ≤ M.total meter.new }
{
    let commands = commands_of(d);
    let count = count_followed(commands);
    let judged = judge_commands(alloc, d, commands, count, budget, meter)?;
    let prints = prints_of(
        alloc,
        d,
        commands,
        judged.lines.as_slice(),
        judged.counts.as_slice(),
    )?;
    Ok(Report {
        lines: judged.lines,
        prints,
    })
}
