//! The failed lines that a `print_cex` prints.

ghost use Rattle.std.specs.Prelude.{◌≡◌, ◌++◌, ◌&&◌, nat_le, nat_lt, OnOk, IfOk};
ghost use Rattle.std.specs.List.{position_from};
ghost use Rattle.uc_report.specs.Prints.{is_run_named, is_of_command, failed_where};
ghost use Rattle.uc_judge.specs.Prints.{is_wanted, failed_at, wanted_by};

use crate::cells::word;
use std::alloc::{AllocError, Global};
use uc_items::Items;
use uc_report::LineResult;
use uc_syntax::{Command, Identifier};

/// Of which lines those that failed are wanted.
#[derive(Clone, Copy)]
pub(crate) enum Wanted {
    /// Of those from the first number on, up to the second and without it.
    Between(u32, u32),
    /// Of those of the command of this number, if there is one.
    OfCommand(Option<usize>),
}

/// The lines of the command of a name, or those of the last `check`, which go from `first` to `end`.
pub(crate) fn wanted_by(
    commands: &[Command],
    first: u32,
    end: u32,
    name: Option<Identifier>,
) -> Wanted
    ensures { result ≡ wanted_by commands.now first end name }
{
    match name {
        None => Wanted::Between(first, end),
        Some(name) => Wanted::OfCommand(number_of(commands, name.name)),
    }
}

/// The number of the first command of a name.
fn number_of(commands: &[Command], name: u32) -> Option<usize>
    ensures { result ≡ position_from (is_run_named name) 0 commands.now }
{
    commands
        .iter()
        .position(|command| is_run_named(command, name))
}

fn is_run_named(command: &Command, name: u32) -> bool
    ensures { result ≡ is_run_named name command.now }
{
    match command {
        Command::Run(_, Some(own), _) => own.name == name,
        _ => false,
    }
}

/// The numbers of the lines that failed and are wanted. Numbers of lines are below 2^32: more count as want of memory.
pub(crate) fn failed_numbers(
    alloc: Global,
    lines: &[LineResult],
    wanted: Wanted,
) -> Result<Items<u32>, AllocError>
    ensures { IfOk result (λ numbers. numbers ≡ failed_where (is_wanted wanted) lines.now) }
{
    let count = word(lines.len())?;
    let mut numbers = Items::new(alloc);
    for number in 0..count {
        add_failed(&mut numbers, number, &lines[number as usize], wanted)?;
    }
    Ok(numbers)
}

/// Adds the number of a line, where it failed and is wanted.
fn add_failed(
    numbers: &mut Items<u32>,
    number: u32,
    line: &LineResult,
    wanted: Wanted,
) -> Result<(), AllocError>
    ensures { OnOk result (numbers.new ≡ numbers.old ++ failed_at wanted (number, line.now)) }
{
    if line.verdict.is_failed() && is_wanted(wanted, number, line) {
        numbers.push(number)
    } else {
        Ok(())
    }
}

fn is_wanted(wanted: Wanted, number: u32, line: &LineResult) -> bool
    ensures { result ≡ is_wanted wanted (number, line.now) }
{
    match wanted {
        Wanted::Between(first, end) => first <= number && number < end,
        Wanted::OfCommand(command) => is_of_command(line.command, command),
    }
}

fn is_of_command(own: u32, command: Option<usize>) -> bool
    ensures { result ≡ is_of_command own command }
{
    match command {
        None => false,
        Some(number) => own as usize == number,
    }
}
