//! Calls of procedures.

ghost use Rattle.std.specs.Prelude.{◌≡◌, OnOk};
ghost use Rattle.std.specs.List.{filter_map, list_all};
ghost use Rattle.uc_rules.specs.Faults.{first_of};
ghost use Rattle.uc_rules.specs.Names.{procedure_named};
ghost use Rattle.uc_rules.specs.Statements.{call_faults, called_faults, fit_faults, may_modify, modifies_in};
ghost use Rattle.uc_rules.specs.Types.{parameter_types};
ghost use Rattle.uc_statement_rules.specs.Judging.{called_procedure_faults, clauses_may, name_may, name_written};

use crate::targets::judge_targets;
use crate::written::is_written;
use std::alloc::{AllocError, Global};
use uc_expression_rules::judge_all;
use uc_read_names::Scope;
use uc_rules::{Fault, Rule, note, note_where};
use uc_syntax::{Clause, Expr, Identifier, Parameter, Place, Procedure, Target, TypeExpr};
use uc_type_names::note_misfit;
use uc_values::Ty;

/// Notes the faults of a call: those of its targets and arguments, a procedure that isn't there, at its name, and at the word `call` numbers
/// and types that differ, and a procedure that modifies more than the one that calls it.
pub(crate) fn judge_call(
    alloc: Global,
    scope: &Scope<'_, '_>,
    place: Place,
    targets: &[Target],
    identifier: Identifier,
    arguments: &[Expr],
    first: &mut Option<Fault>,
) -> Result<(), AllocError>
    ensures { OnOk result (first.new ≡ first_of first.old (call_faults scope.now place targets.now identifier arguments.now)) }
{
    let written = judge_targets(alloc, scope, targets, first)?;
    let given = judge_all(alloc, scope, arguments, first)?;
    note_called(
        alloc,
        scope,
        place,
        written.as_slice(),
        identifier,
        given.as_slice(),
        first,
    )?;
    Ok(())
}

fn note_called(
    alloc: Global,
    scope: &Scope<'_, '_>,
    place: Place,
    written: &[Option<Ty>],
    identifier: Identifier,
    given: &[Option<Ty>],
    first: &mut Option<Fault>,
) -> Result<(), AllocError>
    ensures { OnOk result (first.new ≡ first_of first.old (called_faults scope.now place written.now identifier (procedure_named scope.now.system scope.now.home identifier.name) given.now)) }
{
    match scope.procedure(identifier.name) {
        None => {
            note(first, Rule::UnknownName, identifier.place);
            Ok(())
        }
        Some(procedure) => {
            note_procedure(alloc, scope, place, written, procedure, given, first)?;
            Ok(())
        }
    }
}

fn note_procedure(
    alloc: Global,
    scope: &Scope<'_, '_>,
    place: Place,
    written: &[Option<Ty>],
    procedure: &Procedure,
    given: &[Option<Ty>],
    first: &mut Option<Fault>,
) -> Result<(), AllocError>
    ensures { OnOk result (first.new ≡ first_of first.old (called_procedure_faults scope.now place written.now procedure.now given.now)) }
{
    note_unfit(
        alloc,
        scope,
        place,
        procedure.parameters.as_slice(),
        given,
        first,
    )?;
    note_unfit(
        alloc,
        scope,
        place,
        procedure.results.as_slice(),
        written,
        first,
    )?;
    let is_kept = modifies_no_more(scope, procedure.clauses.as_slice());
    note_where(first, !is_kept, Rule::NotModifies, place);
    Ok(())
}

/// Notes types that differ in number or in type from those of parameters or results.
fn note_unfit(
    alloc: Global,
    scope: &Scope<'_, '_>,
    place: Place,
    parameters: &[Parameter<TypeExpr>],
    types: &[Option<Ty>],
    first: &mut Option<Fault>,
) -> Result<(), AllocError>
    ensures { OnOk result (first.new ≡ first_of first.old (fit_faults place (parameter_types scope.now.system scope.now.home parameters.now) types.now)) }
{
    let asked = scope.parameter_types(alloc, parameters)?;
    note_misfit(first, place, asked.as_slice(), types);
    Ok(())
}

/// Whether all that the clauses of a procedure let it modify may be modified here.
fn modifies_no_more(scope: &Scope<'_, '_>, clauses: &[Clause]) -> bool
    ensures { result ≡ clauses_may scope.now clauses.now }
{
    for clause in clauses {
        if !clause_modifies_no_more(scope, clause) {
            return false;
        }
    }
    true
}

fn clause_modifies_no_more(scope: &Scope<'_, '_>, clause: &Clause) -> bool
    ensures { result ≡ list_all (may_modify scope.now.modifies) (filter_map (name_written scope.now) (modifies_in clause.now)) }
{
    match clause {
        Clause::Modifies(_, names) => names_may_be_modified(scope, names.as_slice()),
        Clause::Requires(_, _) => true,
        Clause::Ensures(_, _) => true,
    }
}

fn names_may_be_modified(scope: &Scope<'_, '_>, names: &[Identifier]) -> bool
    ensures { result ≡ list_all (may_modify scope.now.modifies) (filter_map (name_written scope.now) names.now) }
{
    names_may(scope, names)
}

fn names_may(scope: &Scope<'_, '_>, names: &[Identifier]) -> bool
    ensures { result ≡ list_all (λ i. name_may scope.now i) names.now }
{
    for name in names {
        if !name_may(scope, *name) {
            return false;
        }
    }
    true
}

/// Whether a name that a procedure lists may be modified here. What is no variable or output is left out of the list.
fn name_may(scope: &Scope<'_, '_>, name: Identifier) -> bool
    ensures { result ≡ name_may scope.now name }
{
    if is_written(scope, name.name) {
        scope.may_modify(name.name)
    } else {
        true
    }
}
