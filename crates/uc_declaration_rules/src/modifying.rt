//! What a procedure says that it modifies.

ghost use Rattle.std.specs.Prelude.{◌≡◌, ◌++◌, IfOk, OnOk};
ghost use Rattle.std.specs.List.{filter_map, flat_map};
ghost use Rattle.uc_rules.specs.Declarations.{modifies_faults};
ghost use Rattle.uc_rules.specs.Faults.{first_of};
ghost use Rattle.uc_rules.specs.Names.{repeated_in_list};
ghost use Rattle.uc_rules.specs.Statements.{modifies_in};
ghost use Rattle.uc_statement_rules.specs.Judging.{name_written};

use std::alloc::{AllocError, Global};
use uc_items::Items;
use uc_read_names::{Modified, Scope};
use uc_rules::{Fault, Rule, note};
use uc_statement_rules::is_written;
use uc_syntax::{Clause, Identifier};
use uc_type_names::{NameSet, note_repeated};

/// The names that the clauses of a procedure list.
pub(crate) fn listed_names(
    alloc: Global,
    clauses: &[Clause],
) -> Result<Items<Identifier>, AllocError>
    ensures { IfOk result (λ is. is ≡ flat_map modifies_in clauses.now) }
{
    let mut listed = Items::new(alloc);
    for clause in clauses {
        add_listed(alloc, &mut listed, clause)?;
    }
    Ok(listed)
}

fn add_listed(
    alloc: Global,
    listed: &mut Items<Identifier>,
    clause: &Clause,
) -> Result<(), AllocError>
    ensures { OnOk result (listed.new ≡ listed.old ++ modifies_in clause.now) }
{
    match clause {
        Clause::Modifies(_, names) => {
            let names = Items::from_slice(alloc, names.as_slice())?;
            listed.append(names)?;
            Ok(())
        }
        _ => Ok(()),
    }
}

/// Notes each name of a list that an earlier one has.
#[tactic(auto, using(crate::proofs::Listed::in_list))]
pub(crate) fn note_repeated_names(
    alloc: Global,
    identifiers: &[Identifier],
    first: &mut Option<Fault>,
) -> Result<(), AllocError>
    ensures { OnOk result (first.new ≡ first_of first.old (repeated_in_list identifiers.now)) }
{
    let taken = NameSet::new(alloc);
    let mut seen = NameSet::new(alloc);
    note_repeated(&taken, &mut seen, identifiers, first)
}

/// Those of the names that are variables or outputs.
pub(crate) fn modified_names(
    alloc: Global,
    scope: &Scope<'_, '_>,
    listed: &[Identifier],
) -> Result<Modified, AllocError>
    ensures { IfOk result (λ m. m ≡ filter_map (name_written scope.now) listed.now) }
{
    let names = written_names(alloc, scope, listed)?;
    Modified::of(alloc, names)
}

fn written_names(
    alloc: Global,
    scope: &Scope<'_, '_>,
    listed: &[Identifier],
) -> Result<Items<u32>, AllocError>
    ensures { IfOk result (λ xs. xs ≡ filter_map (name_written scope.now) listed.now) }
{
    let mut names = Items::new(alloc);
    for identifier in listed {
        if let Some(name) = name_written(scope, *identifier) {
            names.push(name)?;
        }
    }
    Ok(names)
}

fn name_written(scope: &Scope<'_, '_>, identifier: Identifier) -> Option<u32>
    ensures { result ≡ name_written scope.now identifier }
{
    if is_written(scope, identifier.name) {
        Some(identifier.name)
    } else {
        None
    }
}

/// Notes the names to modify that are no variables or outputs.
pub(crate) fn note_modifies(
    scope: &Scope<'_, '_>,
    identifiers: &[Identifier],
    first: &mut Option<Fault>,
)
    ensures { first.new ≡ first_of first.old (flat_map (modifies_faults scope.now.system scope.now.home) identifiers.now) }
{
    for identifier in identifiers {
        note_modified(scope, *identifier, first);
    }
}

#[tactic(auto, unfolding(uc_rules::specs::Faults::first_of))]
fn note_modified(scope: &Scope<'_, '_>, identifier: Identifier, first: &mut Option<Fault>)
    ensures { first.new ≡ first_of first.old (modifies_faults scope.now.system scope.now.home identifier) }
{
    if is_written(scope, identifier.name) {
        return;
    }
    if scope.has_name(identifier.name) {
        note(first, Rule::NotAssignable, identifier.place);
    } else {
        note(first, Rule::UnknownName, identifier.place);
    }
}
