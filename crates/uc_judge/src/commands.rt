//! The commands of a control block.

ghost use Rattle.std.specs.Prelude.{◌≡◌, ◌≤◌, true, cond, length};
ghost use Rattle.std.specs.List.{list_all, flat_map};
ghost use Rattle.uc_meaning.specs.Fragment.{at_most_one, is_control};
ghost use Rattle.uc_meaning.specs.Lines.{commands_in, commands_of, is_check};
ghost use Rattle.uc_runnable.specs.Commands.{runs};
ghost use Rattle.uc_judge.specs.Judged.{followed};

use uc_runnable::Runnable;
use uc_syntax::{Command, Decl};

/// The commands of main.
pub(crate) fn commands_of(d: &Runnable) -> &[Command]
    ensures are { result.now ≡ commands_of d.now }
    ensures run { list_all runs result.now ≡ true }
{
    d.keeps();
    commands_in(d.declarations())
}

fn commands_in(decls: &[Decl]) -> &[Command]
    requires { at_most_one is_control decls.now ≡ true }
    ensures { result.now ≡ flat_map commands_in decls.now }
{
    for decl in decls {
        if let Decl::Control(_, commands) = decl {
            return commands.as_slice();
        }
    }
    &[]
}

/// How many commands a later `check` follows.
pub(crate) fn count_followed(commands: &[Command]) -> usize
    ensures count { result ≡ followed commands.now }
    ensures within { result ≤ length commands.now }
{
    let mut count = 0;
    for number in 0..commands.len() {
        count = last_check(&commands[number], number, count);
    }
    count
}

/// The number of the command where it is a `check`, else that of the last one before.
fn last_check(command: &Command, number: usize, before: usize) -> usize
    ensures { result ≡ cond (is_check command.now) number before }
{
    if matches!(command, Command::Check(_)) {
        number
    } else {
        before
    }
}
