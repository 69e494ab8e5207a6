//! Control blocks: names of commands, and the paths that are printed.

ghost use Rattle.std.specs.Prelude.{◌≡◌, Some, OnOk};
ghost use Rattle.std.specs.List.{flat_map};
ghost use Rattle.std.specs.Option.{option_map};
ghost use Rattle.uc_declaration_rules.specs.Judging.{printed_faults};
ghost use Rattle.uc_lookup.specs.Parts.{instance_parts};
ghost use Rattle.uc_names.specs.Senses.{module_in, value_meant};
ghost use Rattle.uc_rules.specs.Declarations.{command_faults, control_faults, home_of_instance, path_faults, path_is_there};
ghost use Rattle.uc_rules.specs.Faults.{first_of};
ghost use Rattle.uc_rules.specs.Reads.{is_state, is_state_kind};

use crate::home::Home;
use std::alloc::{AllocError, Global};
use uc_items::Items;
use uc_lookup::InstanceParts;
use uc_names::Value;
use uc_read_names::Scope;
use uc_rules::{Fault, Rule, note_where};
use uc_syntax::{Command, Identifier, VariableKind};
use uc_type_names::note_repeated_commands;

/// Notes the faults of a control block: names of commands that are declared again, and paths that aren't there, at their first token.
pub(crate) fn judge_control(
    alloc: Global,
    home: &Home<'_, '_>,
    commands: &[Command],
    first: &mut Option<Fault>,
) -> Result<(), AllocError>
    ensures { OnOk result (first.new ≡ first_of first.old (control_faults home.now.system home.now.home commands.now)) }
{
    note_repeated_commands(alloc, commands, first)?;
    let scope = home.scope(alloc);
    note_commands(&scope, commands, first);
    Ok(())
}

fn note_commands(scope: &Scope<'_, '_>, commands: &[Command], first: &mut Option<Fault>)
    ensures { first.new ≡ first_of first.old (flat_map (command_faults scope.now.system scope.now.home) commands.now) }
{
    for command in commands {
        note_command(scope, command, first);
    }
}

#[tactic(auto, unfolding(uc_rules::specs::Faults::first_of))]
fn note_command(scope: &Scope<'_, '_>, command: &Command, first: &mut Option<Fault>)
    ensures { first.new ≡ first_of first.old (command_faults scope.now.system scope.now.home command.now) }
{
    match command {
        Command::PrintCounterexamples(_, _, paths) => note_printed(scope, paths, first),
        Command::Run(_, _, _) => {}
        Command::Check(_) => {}
        Command::PrintResults(_) => {}
    }
}

#[tactic(auto, unfolding(uc_rules::specs::Faults::first_of))]
fn note_printed(
    scope: &Scope<'_, '_>,
    paths: &Option<Items<Items<Identifier>>>,
    first: &mut Option<Fault>,
)
    ensures { first.new ≡ first_of first.old (printed_faults scope.now paths.now) }
{
    match paths {
        Some(paths) => note_paths(scope, paths.as_slice(), first),
        None => {}
    }
}

fn note_paths(scope: &Scope<'_, '_>, paths: &[Items<Identifier>], first: &mut Option<Fault>)
    ensures { first.new ≡ first_of first.old (flat_map (path_faults scope.now.system scope.now.home) paths.now) }
{
    for path in paths {
        note_path(scope, path.as_slice(), first);
    }
}

#[tactic(auto, unfolding(uc_rules::specs::Faults::first_of))]
fn note_path(scope: &Scope<'_, '_>, path: &[Identifier], first: &mut Option<Fault>)
    ensures { first.new ≡ first_of first.old (path_faults scope.now.system scope.now.home path.now) }
{
    if let Some((start, _)) = path.split_first() {
        let place = start.place;
        let is_there = path_is_there(scope, path);
        note_where(first, !is_there, Rule::UnknownName, place);
    }
}

/// Whether a path leads by instances to a variable, input or output. One through an instance whose module isn't there is left open.
fn path_is_there(scope: &Scope<'_, '_>, path: &[Identifier]) -> bool
    ensures { result ≡ path_is_there scope.now.system (Some (Some scope.now.home)) path.now }
{
    match path {
        [] => false,
        [last] => is_state(scope.value(last.name)),
        [start, rest @ ..] => leads(scope, home_of(scope, scope.instance(start.name)), rest),
    }
}

/// Whether a path leads to a variable, input or output from where an instance leads, if there was one: the place of its module, if that is there.
fn leads(scope: &Scope<'_, '_>, start: Option<Option<usize>>, path: &[Identifier]) -> bool
    ensures { result ≡ path_is_there scope.now.system (option_map (option_map (module_in scope.now.system.modules)) start) path.now }
{
    let count = path.len();
    let mut here = start;
    for (k, identifier) in path.iter().enumerate() {
        let Some(home) = here else {
            return false;
        };
        let Some(number) = home else {
            return true;
        };
        if k + 1 == count {
            return is_state(scope.value_in(number, identifier.name));
        }
        here = home_of(scope, scope.instance_in(number, identifier.name));
    }
    false
}

/// Where an instance leads, if there is one: to the place of its module, if that is there.
fn home_of(scope: &Scope<'_, '_>, instance: Option<InstanceParts<'_>>) -> Option<Option<usize>>
    ensures { option_map (option_map (module_in scope.now.system.modules)) result ≡ home_of_instance scope.now.system (option_map instance_parts instance.entry) }
{
    match instance {
        None => None,
        Some(instance) => Some(scope.module_named(instance.module_name)),
    }
}

fn is_state(value: Option<Value<'_>>) -> bool
    ensures { result ≡ is_state (option_map value_meant value.entry) }
{
    match value {
        Some(Value::Variable(variable)) => is_state_kind(variable.kind),
        _ => false,
    }
}

fn is_state_kind(kind: VariableKind) -> bool
    ensures { result ≡ is_state_kind kind }
{
    match kind {
        VariableKind::Constant => false,
        _ => true,
    }
}
