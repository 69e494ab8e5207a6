//! Commands that run.

ghost use Rattle.std.specs.Prelude.{◌≡◌};
ghost use Rattle.std.specs.List.{list_all};
ghost use Rattle.uc_meaning.specs.Lookup.{first_some};
ghost use Rattle.uc_runnable.specs.Commands.{is_linked, is_judged, is_own_path, are_own_paths, runs, stands_at};
ghost use Rattle.uc_runnable.specs.Outside.{outside_command};

use uc_items::Items;
use uc_syntax::{Command, Identifier, Place, WrittenRun};

/// How many steps a run may be unrolled.
const MOST_STEPS: u128 = 1000;

/// How many states an induction may link before the last one.
const MOST_LINKED: u128 = 100;

/// Whether all commands run.
pub(crate) fn all_run(commands: &[Command]) -> bool
    ensures { result ≡ list_all runs commands.now }
{
    commands.iter().all(|command| runs(command))
}

/// The first word of the first command that does not run.
#[tactic(auto, unfolding(uc_meaning::specs::Lookup::first_some))]
pub(crate) fn outside_commands(commands: &[Command]) -> Option<Place>
    ensures { result ≡ first_some outside_command commands.now }
{
    for command in commands {
        let found = outside_command(command);
        if found.is_some() {
            return found;
        }
    }
    None
}

fn outside_command(command: &Command) -> Option<Place>
    ensures { result ≡ outside_command command.now }
{
    if runs(command) {
        None
    } else {
        Some(stands_at(command))
    }
}

/// Whether a command runs.
fn runs(command: &Command) -> bool
    ensures { result ≡ runs command.now }
{
    match command {
        Command::Run(_, _, run) => is_judged(*run),
        Command::Check(_) => true,
        Command::PrintResults(_) => true,
        Command::PrintCounterexamples(_, _, paths) => are_own_paths(paths),
    }
}

/// The place of the first word of a command.
fn stands_at(command: &Command) -> Place
    ensures { result ≡ stands_at command.now }
{
    match command {
        Command::Run(place, _, _) => *place,
        Command::Check(place) => *place,
        Command::PrintResults(place) => *place,
        Command::PrintCounterexamples(place, _, _) => *place,
    }
}

/// Whether the lines of a run are judged.
fn is_judged(run: WrittenRun) -> bool
    ensures { result ≡ is_judged run }
{
    match run {
        WrittenRun::Unroll(steps) => steps <= MOST_STEPS,
        WrittenRun::Induction(depth) => is_linked(depth),
        WrittenRun::Verify(_) => false,
    }
}

fn is_linked(depth: Option<u128>) -> bool
    ensures { result ≡ is_linked depth }
{
    match depth {
        None => true,
        Some(depth) => 1 <= depth && depth <= MOST_LINKED,
    }
}

fn are_own_paths(paths: &Option<Items<Items<Identifier>>>) -> bool
    ensures { result ≡ are_own_paths paths.now }
{
    match paths {
        None => true,
        Some(paths) => all_own_paths(paths.as_slice()),
    }
}

fn all_own_paths(paths: &[Items<Identifier>]) -> bool
    ensures { result ≡ list_all is_own_path paths.now }
{
    for path in paths {
        if !is_own_path(path.as_slice()) {
            return false;
        }
    }
    true
}

/// Whether a path leads through no instance.
fn is_own_path(path: &[Identifier]) -> bool
    ensures { result ≡ is_own_path path.now }
{
    matches!(path, [_])
}
