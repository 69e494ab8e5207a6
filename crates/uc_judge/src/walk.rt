//! The prints of a control block, command by command.

ghost use Rattle.std.specs.Prelude.{◌≡◌, ◌++◌, ◌∷◌, [], ◌≤◌, true, length, take, map, OnOk, IfOk};
ghost use Rattle.std.specs.List.{list_all};
ghost use Rattle.uc_meaning.specs.Lines.{commands_of, all_lines};
ghost use Rattle.uc_runnable.specs.Commands.{are_own_paths, runs};
ghost use Rattle.uc_report.specs.declared.report.Print.TheVariants.{Cex};
ghost use Rattle.uc_report.specs.Prints.{failed_lines, cells_shown, prints_of};
ghost use Rattle.uc_judge.specs.Judged.{followed, AreCounts, count_at};
ghost use Rattle.uc_judge.specs.Prints.{first_after, end_after, printed};

use crate::cells::shown_refs;
use crate::failed::{failed_numbers, wanted_by};
use std::alloc::{AllocError, Global};
use uc_items::{Items, at};
use uc_report::{LineResult, Print};
use uc_runnable::Runnable;
use uc_syntax::{Command, Identifier};

/// Where the lines of the last `check` begin and end.
#[derive(Clone, Copy)]
struct Checked {
    first: u32,
    end: u32,
}

/// What the commands of a design print of its lines, by how many of these stand in front of each command that is judged.
pub(crate) fn prints_of(
    alloc: Global,
    d: &Runnable,
    commands: &[Command],
    lines: &[LineResult],
    counts: &[u32],
) -> Result<Items<Print>, AllocError>
    requires are { commands.now ≡ commands_of d.now }
    requires run { list_all runs commands.now ≡ true }
    requires counts { AreCounts d.now commands.now (followed commands.now) counts.now }
    ensures { IfOk result (λ prints. prints ≡ prints_of d.now lines.now) }
{
    let mut prints = Items::new(alloc);
    let mut checked = Checked { first: 0, end: 0 };
    for number in 0..commands.len() {
        let command = &commands[number];
        add_printed(alloc, &mut prints, d, commands, lines, checked, command)?;
        checked = checked_after(checked, counts, number, command);
    }
    Ok(prints)
}

/// Where the lines of the last `check` begin and end behind the command of a number.
fn checked_after(checked: Checked, counts: &[u32], number: usize, command: &Command) -> Checked
    ensures first { result.first ≡ first_after checked.first checked.end command.now }
    ensures end { result.end ≡ end_after checked.end (count_at counts.now number) command.now }
{
    match command {
        Command::Check(_) => Checked {
            first: checked.end,
            end: count_at(counts, number),
        },
        _ => checked,
    }
}

/// How many lines stand in front of the command of a number, and 0 where that is not known.
fn count_at(counts: &[u32], number: usize) -> u32
    ensures { result ≡ count_at counts.now number }
{
    match at(counts, number) {
        Some(count) => *count,
        None => 0,
    }
}

/// Adds what a command prints.
fn add_printed(
    alloc: Global,
    prints: &mut Items<Print>,
    d: &Runnable,
    commands: &[Command],
    lines: &[LineResult],
    checked: Checked,
    command: &Command,
) -> Result<(), AllocError>
    requires are { commands.now ≡ commands_of d.now }
    requires runs { runs command.now ≡ true }
    ensures { OnOk result (prints.new ≡ prints.old ++ printed d.now lines.now checked.first checked.end command.now) }
{
    match command {
        Command::PrintResults(_) => prints.push(Print::Results {
            first: checked.first,
            end: checked.end,
        }),
        Command::PrintCounterexamples(_, name, paths) => {
            let print = counterexamples(alloc, d, commands, lines, checked, *name, paths)?;
            prints.push(print)
        }
        _ => Ok(()),
    }
}

/// The counterexamples of the failed lines of the command of a name, or of those of the last `check`.
fn counterexamples(
    alloc: Global,
    d: &Runnable,
    commands: &[Command],
    lines: &[LineResult],
    checked: Checked,
    name: Option<Identifier>,
    paths: &Option<Items<Items<Identifier>>>,
) -> Result<Print, AllocError>
    requires are { commands.now ≡ commands_of d.now }
    requires own { are_own_paths paths.now ≡ true }
    ensures { IfOk result (λ print. print ≡ Cex (failed_lines d.now lines.now checked.first checked.end name) (cells_shown d.now paths.now)) }
{
    d.keeps();
    let wanted = wanted_by(commands, checked.first, checked.end, name);
    let lines = failed_numbers(alloc, lines, wanted)?;
    let paths = shown_refs(alloc, d.declarations(), paths)?;
    Ok(Print::Cex { lines, paths })
}
