//! The lines of commands, judged in order.

ghost use Rattle.std.specs.Prelude.{◌≡◌, ◌+◌, ◌≤◌, ◌<◌, ◌^◌, true, length, take, IfOk};
ghost use Rattle.std.specs.List.{list_all};
ghost use Rattle.uc_meaning.specs.declared.line.At.TheVariants.{Step};
ghost use Rattle.uc_meaning.specs.Fragment.{most_steps};
ghost use Rattle.uc_meaning.specs.Lines.{lines_at, lines_from, all_judged, step_sites, induction_lines, lines_of, command_lines};
ghost use Rattle.uc_flat_copies.specs.declared.trace.Start.TheVariants.{Initially};
ghost use Rattle.uc_runnable.specs.Commands.{is_judged, is_linked, runs};
ghost use Rattle.uc_judge.specs.Lines.{linked_by, at_moment, start_of};
ghost use Rattle.uc_judge.specs.Judged.{lines_in, AreCounts, AreJudged};

use crate::cells::word;
use crate::lines::{Moment, lines_as};
use std::alloc::{AllocError, Global};
use uc_flat_lines::{judge_flat, judge_linked};
use uc_items::Items;
use uc_log::Meter;
use uc_report::LineResult;
use uc_runnable::Runnable;
use uc_syntax::{Command, WrittenRun};

/// The lines of some commands, and how many of them stand in front of each command, and behind the last.
#[derive(Drop)]
pub(crate) struct Judged {
    pub lines: Items<LineResult>,
    pub counts: Items<u32>,
}

/// The lines of the first `count` commands, each judged once, with this budget of log entries for each.
pub(crate) fn judge_commands<M: Meter>(
    alloc: Global,
    d: &Runnable,
    commands: &[Command],
    count: usize,
    budget: u64,
    meter: &mut M,
) -> Result<Judged, AllocError>
    requires run { list_all runs commands.now ≡ true }
    requires within { count ≤ length commands.now }
    requires some { 1 ≤ budget }
    requires total { M.total meter.old < 2 ^ 126 }
    ensures judged { IfOk result (λ j. AreJudged d.now budget (M.total meter.old) (M.total meter.new) (lines_in d.now 0 (take count commands.now)) j.lines) }
    ensures counts { IfOk result (λ j. AreCounts d.now commands.now count j.counts) }
    ensures later { M.total meter.old ≤ M.total meter.new }
{
    let mut lines = Items::new(alloc);
    let mut counts = Items::new(alloc);
    counts.push(0)?;
    for number in 0..count {
        let _room = lines.len();
        let own = word(number)?;
        let more = judge_command(alloc, d, own, &commands[number], budget, meter)?;
        lines.append(more)?;
        let standing = lines.len();
        let passed = word(standing)?;
        counts.push(passed)?;
    }
    Ok(Judged { lines, counts })
}

/// The lines of the command of a number: none but for a run.
fn judge_command<M: Meter>(
    alloc: Global,
    d: &Runnable,
    number: u32,
    command: &Command,
    budget: u64,
    meter: &mut M,
) -> Result<Items<LineResult>, AllocError>
    requires runs { runs command.now ≡ true }
    requires some { 1 ≤ budget }
    requires total { M.total meter.old < 2 ^ 126 + 2 ^ 97 }
    ensures judged { IfOk result (AreJudged d.now budget (M.total meter.old) (M.total meter.new) (command_lines d.now number command.now)) }
    ensures later { M.total meter.old ≤ M.total meter.new }
{
    match command {
        Command::Run(_, _, run) => judge_run(alloc, d, number, *run, budget, meter),
        _ => Ok(Items::new(alloc)),
    }
}

fn judge_run<M: Meter>(
    alloc: Global,
    d: &Runnable,
    number: u32,
    run: WrittenRun,
    budget: u64,
    meter: &mut M,
) -> Result<Items<LineResult>, AllocError>
    requires judged { is_judged run ≡ true }
    requires some { 1 ≤ budget }
    requires total { M.total meter.old < 2 ^ 126 + 2 ^ 97 }
    ensures judged { IfOk result (AreJudged d.now budget (M.total meter.old) (M.total meter.new) (lines_of d.now number run)) }
    ensures later { M.total meter.old ≤ M.total meter.new }
{
    match run {
        WrittenRun::Unroll(depth) => {
            let steps = steps_of(depth);
            let lines = judge_runs(alloc, d, number, Moment::Unrolled, steps, budget, meter)?;
            Ok(lines)
        }
        WrittenRun::Induction(depth) => {
            let linked = linked_by(depth);
            let lines = judge_induction(alloc, d, number, linked, budget, meter)?;
            Ok(lines)
        }
        WrittenRun::Verify(_) => unreachable!(),
    }
}

/// The steps of an unrolling.
fn steps_of(depth: u128) -> u32
    requires { depth ≤ most_steps }
    ensures { result ≡ depth }
{
    depth as u32
}

/// How many states an induction links.
fn linked_by(depth: Option<u128>) -> u32
    requires { is_linked depth ≡ true }
    ensures linked { result ≡ linked_by depth }
    ensures some { 1 ≤ result }
{
    match depth {
        None => 1,
        Some(depth) => depth as u32,
    }
}

/// The lines of runs of 0, 1 and so on up to so many steps.
fn judge_runs<M: Meter>(
    alloc: Global,
    d: &Runnable,
    number: u32,
    moment: Moment,
    depth: u32,
    budget: u64,
    meter: &mut M,
) -> Result<Items<LineResult>, AllocError>
    requires start { start_of moment ≡ Initially }
    requires some { 1 ≤ budget }
    requires total { M.total meter.old < 2 ^ 126 + 2 ^ 97 }
    ensures judged { IfOk result (AreJudged d.now budget (M.total meter.old) (M.total meter.new) (lines_from d.now number (at_moment moment) 0 (depth + 1))) }
    ensures later { M.total meter.old ≤ M.total meter.new }
{
    let f = d.flat();
    let judged = judge_flat(alloc, f, depth, budget, meter)?;
    let lines = lines_as(alloc, f, number, moment, budget, judged)?;
    Ok(lines)
}

/// The lines after so many linked states.
fn judge_links<M: Meter>(
    alloc: Global,
    d: &Runnable,
    number: u32,
    depth: u32,
    budget: u64,
    meter: &mut M,
) -> Result<Items<LineResult>, AllocError>
    requires some { 1 ≤ budget }
    requires total { M.total meter.old < 2 ^ 126 + 2 ^ 98 }
    ensures judged { IfOk result (AreJudged d.now budget (M.total meter.old) (M.total meter.new) (lines_at number (Step depth) (all_judged d.now (step_sites d.now)))) }
    ensures later { M.total meter.old ≤ M.total meter.new }
{
    let f = d.flat();
    let judged = judge_linked(alloc, f, depth, budget, meter)?;
    let lines = lines_as(alloc, f, number, Moment::Linked, budget, judged)?;
    Ok(lines)
}

/// The lines of an induction: the base after fewer steps than states are linked, and then the step.
fn judge_induction<M: Meter>(
    alloc: Global,
    d: &Runnable,
    number: u32,
    depth: u32,
    budget: u64,
    meter: &mut M,
) -> Result<Items<LineResult>, AllocError>
    requires linked { 1 ≤ depth }
    requires some { 1 ≤ budget }
    requires total { M.total meter.old < 2 ^ 126 + 2 ^ 97 }
    ensures judged { IfOk result (AreJudged d.now budget (M.total meter.old) (M.total meter.new) (induction_lines d.now number depth)) }
    ensures later { M.total meter.old ≤ M.total meter.new }
{
    let mut lines = judge_runs(alloc, d, number, Moment::Based, depth - 1, budget, meter)?;
    let _room = lines.len();
    let step = judge_links(alloc, d, number, depth, budget, meter)?;
    lines.append(step)?;
    Ok(lines)
}
