//! The lists of names that a design has.

ghost use Rattle.std.specs.Prelude.{◌≡◌, map, IfOk, OnOk};
ghost use Rattle.uc_rules.specs.Faults.{first_of};
ghost use Rattle.uc_rules.specs.Names.{names_one_of, repeated_in, repeated_in_list};
ghost use Rattle.uc_rules.specs.Declarations.{command_name, identifiers_of, module_identifier, repeated_modules};
ghost use Rattle.uc_type_names.specs.NameSets.{with_all};
ghost use Rattle.std.specs.List.{filter_map};

use crate::name_set::NameSet;
use crate::repeated::note_repeated;
use std::alloc::{AllocError, Global};
use uc_items::Items;
use uc_rules::Fault;
use uc_syntax::{Binding, Command, Identifier, Module, Parameter, TypeExpr};

/// Notes each name of a list that an earlier one of it has.
#[tactic(auto, using(crate::proofs::Repeats::in_list))]
fn note_in_list(
    alloc: Global,
    identifiers: &[Identifier],
    first: &mut Option<Fault>,
) -> Result<(), AllocError>
    ensures { OnOk result (first.new ≡ first_of first.old (repeated_in_list identifiers.now)) }
{
    let taken = NameSet::new(alloc);
    let mut seen = NameSet::new(alloc);
    note_repeated(&taken, &mut seen, identifiers, first)
}

/// Notes each module whose name an earlier one has.
pub fn note_repeated_modules(
    alloc: Global,
    modules: &[Module],
    first: &mut Option<Fault>,
) -> Result<(), AllocError>
    ensures { OnOk result (first.new ≡ first_of first.old (repeated_modules modules.now)) }
{
    let mut identifiers = Items::new(alloc);
    for module in modules {
        identifiers.push(Identifier {
            place: module.place,
            name: module.name,
        })?;
    }
    note_in_list(alloc, identifiers.as_slice(), first)
}

/// Notes each binding of an instance whose name an earlier one has.
pub fn note_repeated_bindings(
    alloc: Global,
    bindings: &[Binding],
    first: &mut Option<Fault>,
) -> Result<(), AllocError>
    ensures { OnOk result (first.new ≡ first_of first.old (repeated_in_list (map (λ b. b.identifier) bindings.now))) }
{
    let mut identifiers = Items::new(alloc);
    for binding in bindings {
        identifiers.push(binding.identifier)?;
    }
    note_in_list(alloc, identifiers.as_slice(), first)
}

/// Notes each command of a control block whose name an earlier one has.
pub fn note_repeated_commands(
    alloc: Global,
    commands: &[Command],
    first: &mut Option<Fault>,
) -> Result<(), AllocError>
    ensures { OnOk result (first.new ≡ first_of first.old (repeated_in_list (filter_map command_name commands.now))) }
{
    let mut identifiers = Items::new(alloc);
    for command in commands {
        if let Some(identifier) = command_name(command) {
            identifiers.push(identifier)?;
        }
    }
    note_in_list(alloc, identifiers.as_slice(), first)
}

fn command_name(command: &Command) -> Option<Identifier>
    ensures { result ≡ command_name command.now }
{
    match command {
        Command::Run(_, name, _) => *name,
        _ => None,
    }
}

/// Notes each parameter, result or field whose name is taken, or that an earlier one has: one that was seen, or one of the list.
pub fn note_repeated_parameters(
    alloc: Global,
    taken: &NameSet,
    seen: &mut NameSet,
    parameters: &[Parameter<TypeExpr>],
    first: &mut Option<Fault>,
) -> Result<(), AllocError>
    ensures faults { OnOk result (first.new ≡ first_of first.old (repeated_in (names_one_of taken.now) seen.old (identifiers_of parameters.now))) }
    ensures seen { OnOk result (seen.new ≡ with_all seen.old (identifiers_of parameters.now)) }
{
    let mut identifiers = Items::new(alloc);
    for parameter in parameters {
        identifiers.push(parameter.identifier)?;
    }
    note_repeated(taken, seen, identifiers.as_slice(), first)
}
