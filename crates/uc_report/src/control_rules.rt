//! The rules on control blocks, and the first that main breaks.

ghost use Rattle.std.specs.Prelude.{◌≡◌, ◌++◌, ◌||◌, [], not, fold, IsOk, IfErr};
ghost use Rattle.std.specs.List.{list_any, flat_map};
ghost use Rattle.uc_meaning.specs.Lines.{commands_in, is_check};
ghost use Rattle.uc_report.specs.declared.control_rules.ControlRule.TheVariants.{NotChecked, UnknownCommand};
ghost use Rattle.uc_report.specs.Described.{described};
ghost use Rattle.uc_report.specs.Prints.{is_run_named};
ghost use Rattle.uc_report.specs.ControlRules.{control_number, broken_if, is_procedure_named, broken_by_run, broken_by_name, broken_by_print, fault_at, command_fault, first_fault, KeepsControl, IsFirstControlFault};
ghost use Rattle.uc_report.specs.ControlRulesParts.{broken_behind};

use crate::DesignView;
use uc_syntax::{Command, Decl, Place, WrittenRun};

/// How many steps a run may be unrolled.
const MOST_STEPS: u128 = 1000;

/// How many states an induction may link before the last one.
const MOST_LINKED: u128 = 100;

/// A rule on control blocks, by what breaks it.
#[derive(Clone, Copy, Debug, PartialEq, Eq)]
pub enum ControlRule {
    /// A print of the lines of a command that no command before is named.
    UnknownCommand,
    /// A print of lines that no `check` judged before.
    NotChecked,
    /// A number of steps to unroll above 1,000, or a depth of induction of 0 or above 100.
    BadDepth,
    /// What is verified is no procedure of main.
    UnknownProcedure,
}

/// A rule on control blocks that is broken, and the first word of the command that breaks it.
#[derive(Clone, Copy, Debug, PartialEq, Eq)]
pub struct ControlFault {
    pub rule: ControlRule,
    pub place: Place,
}

impl ControlRule {
    /// The number under which a broken rule is reported.
    pub fn number(self) -> u32
        ensures { result ≡ control_number self }
    {
        match self {
            ControlRule::UnknownCommand => 28,
            ControlRule::NotChecked => 29,
            ControlRule::BadDepth => 30,
            ControlRule::UnknownProcedure => 31,
        }
    }
}

/// Whether main's commands keep the rules on control blocks, and else the fault of the first that breaks one. It takes no memory.
pub fn check_control(d: &DesignView<'_>) -> Result<(), ControlFault>
    ensures kept { IsOk result → KeepsControl (described d.now) }
    ensures broken { IfErr result (IsFirstControlFault (described d.now)) }
{
    match first_fault(d, d.main_declarations()) {
        None => Ok(()),
        Some(fault) => Err(fault),
    }
}

/// The first fault of the commands of declarations.
fn first_fault(d: &DesignView<'_>, decls: &[Decl]) -> Option<ControlFault>
    ensures { result ≡ first_fault (described d.now) [] (flat_map commands_in decls.now) }
{
    let mut checked = false;
    for place in 0..decls.len() {
        let commands = commands_in(&decls[place]);
        let found = fault_behind(d, &decls[..place], checked, commands);
        if found.is_some() {
            return found;
        }
        checked = has_check(checked, commands);
    }
    None
}

/// The first fault of commands behind those of other declarations. `checked` tells whether a `check` is among these.
fn fault_behind(
    d: &DesignView<'_>,
    others: &[Decl],
    checked: bool,
    commands: &[Command],
) -> Option<ControlFault>
    requires { checked ≡ list_any is_check (flat_map commands_in others.now) }
    ensures { result ≡ first_fault (described d.now) (flat_map commands_in others.now) commands.now }
{
    let mut checked = checked;
    for place in 0..commands.len() {
        let found = command_fault(d, others, &commands[..place], checked, &commands[place]);
        if found.is_some() {
            return found;
        }
        checked = is_checked(checked, &commands[place]);
    }
    None
}

/// The fault of a command, by those before it: those of other declarations, and those of its own. `checked` tells whether a `check` is
/// among them.
fn command_fault(
    d: &DesignView<'_>,
    others: &[Decl],
    commands: &[Command],
    checked: bool,
    command: &Command,
) -> Option<ControlFault>
    requires { checked ≡ list_any is_check (flat_map commands_in others.now ++ commands.now) }
    ensures { result ≡ command_fault (described d.now) (flat_map commands_in others.now ++ commands.now) command.now }
{
    match command {
        Command::Run(place, _, run) => fault_at(*place, broken_by_run(d, *run)),
        Command::Check(_) => None,
        Command::PrintResults(place) => fault_at(*place, broken_by_print(checked)),
        Command::PrintCounterexamples(place, None, _) => {
            fault_at(*place, broken_by_print(checked))
        }
        Command::PrintCounterexamples(place, Some(name), _) => {
            fault_at(*place, broken_by_name(name.name, others, commands))
        }
    }
}

/// What a run breaks.
fn broken_by_run(d: &DesignView<'_>, run: WrittenRun) -> Option<ControlRule>
    ensures { result ≡ broken_by_run (described d.now) run }
{
    match run {
        WrittenRun::Unroll(steps) => broken_if(steps > MOST_STEPS, ControlRule::BadDepth),
        WrittenRun::Induction(None) => None,
        WrittenRun::Induction(Some(depth)) => {
            broken_if(depth == 0 || depth > MOST_LINKED, ControlRule::BadDepth)
        }
        WrittenRun::Verify(procedure) => broken_if(
            !has_procedure(d.main_declarations(), procedure.name),
            ControlRule::UnknownProcedure,
        ),
    }
}

/// What a print of what the last `check` judged breaks, where `checked` tells whether there is one before.
fn broken_by_print(checked: bool) -> Option<ControlRule>
    ensures { result ≡ broken_if (not checked) NotChecked }
{
    broken_if(!checked, ControlRule::NotChecked)
}

/// What a print of the lines of a command breaks, by the command's name.
fn broken_by_name(name: u32, others: &[Decl], commands: &[Command]) -> Option<ControlRule>
    ensures { result ≡ broken_by_name name (flat_map commands_in others.now ++ commands.now) }
{
    let mut broken = Some(ControlRule::UnknownCommand);
    for decl in others {
        broken = broken_behind_all(name, broken, commands_in(decl));
    }
    broken_behind_all(name, broken, commands)
}

/// What such a print breaks behind more commands.
fn broken_behind_all(
    name: u32,
    broken: Option<ControlRule>,
    commands: &[Command],
) -> Option<ControlRule>
    ensures { result ≡ fold (broken_behind name) broken commands.now }
{
    let mut broken = broken;
    for command in commands {
        broken = broken_behind(name, broken, command);
    }
    broken
}

/// What such a print breaks behind one more command.
fn broken_behind(name: u32, broken: Option<ControlRule>, command: &Command) -> Option<ControlRule>
    ensures { result ≡ broken_behind name broken command.now }
{
    match broken {
        Some(ControlRule::UnknownCommand) => {
            if is_run_named(name, command) {
                Some(ControlRule::NotChecked)
            } else {
                broken
            }
        }
        Some(ControlRule::NotChecked) => broken_by_print(is_check(command)),
        _ => broken,
    }
}

fn broken_if(broken: bool, rule: ControlRule) -> Option<ControlRule>
    ensures { result ≡ broken_if broken rule }
{
    if broken { Some(rule) } else { None }
}

fn fault_at(place: Place, broken: Option<ControlRule>) -> Option<ControlFault>
    ensures { result ≡ fault_at place broken }
{
    match broken {
        Some(rule) => Some(ControlFault { rule, place }),
        None => None,
    }
}

/// Whether a `check` is among commands and one more.
fn is_checked(checked: bool, command: &Command) -> bool
    ensures { result ≡ (checked || is_check command.now) }
{
    checked || is_check(command)
}

/// Whether a `check` is among commands and some more.
fn has_check(checked: bool, commands: &[Command]) -> bool
    ensures { result ≡ (checked || list_any is_check commands.now) }
{
    checked || any_checks(commands)
}

fn any_checks(commands: &[Command]) -> bool
    ensures { result ≡ list_any is_check commands.now }
{
    commands.iter().any(|command| is_check(command))
}

fn has_procedure(decls: &[Decl], name: u32) -> bool
    ensures { result ≡ list_any (is_procedure_named name) decls.now }
{
    decls.iter().any(|decl| is_procedure_named(name, decl))
}

fn is_procedure_named(name: u32, decl: &Decl) -> bool
    ensures { result ≡ is_procedure_named name decl.now }
{
    match decl {
        Decl::Procedure(_, procedure) => procedure.identifier.name == name,
        _ => false,
    }
}

fn is_run_named(name: u32, command: &Command) -> bool
    ensures { result ≡ is_run_named name command.now }
{
    match command {
        Command::Run(_, Some(identifier), _) => identifier.name == name,
        _ => false,
    }
}

fn is_check(command: &Command) -> bool
    ensures { result ≡ is_check command.now }
{
    matches!(command, Command::Check(_))
}

fn commands_in(decl: &Decl) -> &[Command]
    ensures { result.now ≡ commands_in decl.now }
{
    match decl {
        Decl::Control(_, commands) => commands.as_slice(),
        _ => &[],
    }
}
