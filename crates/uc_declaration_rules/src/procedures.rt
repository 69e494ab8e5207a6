//! Procedures.

ghost use Rattle.std.specs.Prelude.{◌≡◌, ◌++◌, IfOk, OnOk, Option};
ghost use Rattle.std.specs.List.{filter_map, flat_map};
ghost use Rattle.uc_declaration_rules.specs.Procedures.{Asks, NotesKnown, asked_faults, known_faults};
ghost use Rattle.uc_rules.specs.Names.{repeated_in_list};
ghost use Rattle.uc_rules.specs.Statements.{code_faults, modifies_in};
ghost use Rattle.uc_statement_rules.specs.Judging.{name_written};
ghost use Rattle.uc_rules.specs.Declarations.{procedure_faults};
ghost use Rattle.uc_rules.specs.Faults.{first_of};
ghost use Rattle.uc_rules.specs.declared.fault.Fault.{Fault as FaultMeant};

use crate::home::Home;
use crate::modifying::{listed_names, modified_names, note_modifies, note_repeated_names};
use crate::parameters::note_parameters;
use std::alloc::{AllocError, Global};
use uc_expression_rules::note_condition;
use uc_read_names::{Modified, Scope};
use uc_rules::{Fault, Role};
use uc_statement_rules::judge_block;
use uc_syntax::{Clause, Procedure, Stmt};

/// The scope of a procedure's `requires`, which sees its parameters alone. The faults of the parameters are noted.
fn asked_scope<'a, 'd>(
    alloc: Global,
    home: &Home<'a, 'd>,
    procedure: &Procedure,
    first: &mut Option<Fault>,
) -> Result<Scope<'a, 'd>, AllocError>
    ensures { IfOk result (λ s. Asks home.now procedure.now first.old first.new s) }
{
    let mut scope = home.scope(alloc);
    let parameters = procedure.parameters.as_slice();
    note_parameters(alloc, &mut scope, Role::Parameter, parameters, first)?;
    Ok(scope)
}

/// The scope of a procedure's `ensures` and, but for what is old, of its body. The faults of the results are noted.
fn known_scope<'a, 'd>(
    alloc: Global,
    home: &Home<'a, 'd>,
    procedure: &Procedure,
    first: &mut Option<Fault>,
) -> Result<Scope<'a, 'd>, AllocError>
    ensures { IfOk result (λ s. NotesKnown home.now procedure.now first.old first.new s) }
{
    let mut unnoted = None;
    let mut scope = asked_scope(alloc, home, procedure, &mut unnoted)?;
    let results = procedure.results.as_slice();
    note_parameters(alloc, &mut scope, Role::Result, results, first)?;
    Ok(scope.in_ensures())
}

/// Notes the faults of the clauses of a procedure.
fn judge_clauses(
    alloc: Global,
    asked: &Scope<'_, '_>,
    known: &Scope<'_, '_>,
    clauses: &[Clause],
    first: &mut Option<Fault>,
) -> Result<(), AllocError>
    ensures { OnOk result (first.new ≡ first_of first.old (flat_map (asked_faults asked.now known.now) clauses.now)) }
{
    for clause in clauses {
        judge_clause(alloc, asked, known, clause, first)?;
    }
    Ok(())
}

fn judge_clause(
    alloc: Global,
    asked: &Scope<'_, '_>,
    known: &Scope<'_, '_>,
    clause: &Clause,
    first: &mut Option<Fault>,
) -> Result<(), AllocError>
    ensures { OnOk result (first.new ≡ first_of first.old (asked_faults asked.now known.now clause.now)) }
{
    match clause {
        Clause::Requires(_, condition) => {
            note_condition(alloc, asked, condition, first)?;
            Ok(())
        }
        Clause::Ensures(_, condition) => {
            note_condition(alloc, known, condition, first)?;
            Ok(())
        }
        Clause::Modifies(_, names) => {
            note_modifies(asked, names.as_slice(), first);
            Ok(())
        }
    }
}

/// Notes the faults of a procedure: those of its parameters, results, clauses and body.
pub(crate) fn judge_procedure(
    alloc: Global,
    home: &Home<'_, '_>,
    procedure: &Procedure,
    first: &mut Option<Fault>,
) -> Result<(), AllocError>
    ensures { OnOk result (first.new ≡ first_of first.old (procedure_faults home.now.system home.now.home procedure.now)) }
{
    let asked = asked_scope(alloc, home, procedure, first)?;
    judge_asked(alloc, home, &asked, procedure, first)
}

/// Notes the faults of a procedure's results, clauses and body, by the scope of its `requires`.
fn judge_asked(
    alloc: Global,
    home: &Home<'_, '_>,
    asked: &Scope<'_, '_>,
    procedure: &Procedure,
    first: &mut Option<Fault>,
) -> Result<(), AllocError>
    ensures { OnOk result ((before : Option FaultMeant) → Asks home.now procedure.now before first.old asked.now → first.new ≡ first_of before (procedure_faults home.now.system home.now.home procedure.now)) }
{
    let known = known_scope(alloc, home, procedure, first)?;
    judge_known(alloc, asked, known, procedure, first)?;
    Ok(())
}

/// Notes the faults of a procedure's clauses and of its body, by the scopes of its `requires` and of its `ensures`.
fn judge_known(
    alloc: Global,
    asked: &Scope<'_, '_>,
    known: Scope<'_, '_>,
    procedure: &Procedure,
    first: &mut Option<Fault>,
) -> Result<(), AllocError>
    ensures { OnOk result (first.new ≡ first_of first.old (known_faults asked.now known.entry procedure.now)) }
{
    let clauses = procedure.clauses.as_slice();
    let modified = judge_modifying(alloc, asked, &known, clauses, first)?;
    let body = procedure.body.as_slice();
    judge_body(alloc, known.in_body(modified), body, first)
}

/// Notes the faults of a procedure's clauses. What the procedure may modify is answered.
fn judge_modifying(
    alloc: Global,
    asked: &Scope<'_, '_>,
    known: &Scope<'_, '_>,
    clauses: &[Clause],
    first: &mut Option<Fault>,
) -> Result<Modified, AllocError>
    ensures found { OnOk result (first.new ≡ first_of first.old (repeated_in_list (flat_map modifies_in clauses.now) ++ flat_map (asked_faults asked.now known.now) clauses.now)) }
    ensures modified { IfOk result (λ m. m ≡ filter_map (name_written asked.now) (flat_map modifies_in clauses.now)) }
{
    let listed = listed_names(alloc, clauses)?;
    note_repeated_names(alloc, listed.as_slice(), first)?;
    judge_clauses(alloc, asked, known, clauses, first)?;
    let modified = modified_names(alloc, asked, listed.as_slice())?;
    Ok(modified)
}

/// Notes the faults of a block that stands in a scope.
pub(crate) fn judge_body(
    alloc: Global,
    scope: Scope<'_, '_>,
    body: &[Stmt],
    first: &mut Option<Fault>,
) -> Result<(), AllocError>
    ensures { OnOk result (first.new ≡ first_of first.old (code_faults body.now scope.entry)) }
{
    let mut scope = scope;
    judge_block(alloc, &mut scope, body, first)
}
