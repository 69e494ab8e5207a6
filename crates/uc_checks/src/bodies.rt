//! Executions of procedures of main.

ghost use Rattle.std.specs.Prelude.{◌≡◌, Some, length, map, take, drop, slice_get, IfOk};
ghost use Rattle.std.specs.Bool.{Decides};
ghost use Rattle.std.specs.Option.{option_copied, option_map};
ghost use Rattle.uc_meaning.specs.Lookup.{main_module};
ghost use Rattle.uc_meaning.specs.Types.{type_of_written};
ghost use Rattle.uc_meaning.specs.Cells.{IsState, FitAll};
ghost use Rattle.uc_meaning.specs.Code.{Ending, Goes, requires_of};
ghost use Rattle.uc_meaning.specs.Ends.{IsEnd};
ghost use Rattle.uc_meaning.specs.Lines.{FailsBody, FailsBodyOf, BodyFails, main_declarations, procedure_numbered};
ghost use Rattle.uc_executions.specs.Asked.{ask_each};
ghost use Rattle.uc_executions.specs.Formulas.{truth_asked};
ghost use Rattle.uc_executions.specs.Executions.{entry_at};
ghost use Rattle.uc_checks.specs.Tellings.{Tells, Of, Where};
ghost use Rattle.uc_checks.specs.Refutations.{IsEntry, RequiredAt, EndsIn, ExitTells, BodyTells, BodyOfTells};
ghost use Rattle.uc_checks.specs.Bodies.{two_of, positions_of, ended, ending_at, FailsAtExit, ExecutionTells};

use crate::sites::is_listed;
use std::alloc::{AllocError, Global};
use uc_executions::{ensures_fails, entry_scope, execution_end, requires_hold};
use uc_items::{Items, at};
use uc_layout::{Layout, cell_types, equal_all, fit_all, parameter_types};
use uc_meaning::{Choices, CodeEnd, Interp, Line, Scope, Site, State, What};
use uc_operators::EvalError;
use uc_syntax::{Decl, Module, Procedure};
use uc_values::Value;

/// The positions of an execution.
#[derive(Clone, Copy)]
pub(crate) struct Ends<'a> {
    pub(crate) first: &'a (State, Choices),
    pub(crate) last: &'a (State, Choices),
}

/// An execution of a procedure of main.
#[derive(Clone, Copy)]
pub(crate) struct Execution<'a> {
    pub(crate) code: &'a Module,
    pub(crate) procedure: &'a Procedure,
    pub(crate) entry: &'a State,
    pub(crate) exit: &'a State,
    pub(crate) arguments: &'a [Value],
    pub(crate) choices: &'a [Value],
}

/// Whether copies are an execution of the procedure of a number, whose subject fails.
pub(crate) fn fails_body(
    alloc: Global,
    layout: &Layout,
    interp: &Interp,
    line: &Line,
    number: u32,
    copies: &[Items<(State, Choices)>],
) -> Result<bool, EvalError>
    ensures value { IfOk result (λ b. Decides b (FailsBodyOf layout.now line.now interp.now (main_module layout.now) (procedure_numbered (slice_get (main_declarations layout.now) number)) copies.now)) }
    ensures wide { Tells (BodyOfTells layout.now line.now.what interp.now (main_module layout.now) (procedure_numbered (slice_get (main_declarations layout.now) number)) copies.now) result }
{
    let Some(code) = layout.system().main_module() else {
        return Ok(false);
    };
    let Some(procedure) = procedure_at(code, number) else {
        return Ok(false);
    };
    let Some(ends) = ends_of(copies) else {
        return Ok(false);
    };
    body_fails(alloc, layout, interp, line, code, procedure, ends)
}

/// The procedure of a number among the declarations of a module.
fn procedure_at(code: &Module, number: u32) -> Option<&Procedure>
    ensures { option_copied result ≡ procedure_numbered (slice_get code.now.decls number) }
{
    match at(code.decls.as_slice(), number as usize) {
        Some(Decl::Procedure(_, procedure)) => Some(procedure),
        _ => None,
    }
}

/// The two positions of a single copy.
fn ends_of(copies: &[Items<(State, Choices)>]) -> Option<Ends<'_>>
    ensures { option_map positions_of result ≡ two_of copies.now }
{
    match copies {
        [copy] => match copy.as_slice() {
            [first, last] => Some(Ends { first, last }),
            _ => None,
        },
        _ => None,
    }
}

/// Whether two positions are an execution of a procedure, whose subject fails.
fn body_fails(
    alloc: Global,
    layout: &Layout,
    interp: &Interp,
    line: &Line,
    code: &Module,
    procedure: &Procedure,
    ends: Ends<'_>,
) -> Result<bool, EvalError>
    requires { main_module layout.now ≡ Some code.now }
    ensures value { IfOk result (λ b. Decides b (FailsBody layout.now line.now interp.now code.now procedure.now ends.entry.first.now ends.entry.last.now)) }
    ensures wide { Tells (BodyTells layout.now line.now.what interp.now code.now procedure.now ends.entry.first.now ends.entry.last.now) result }
{
    let all = ends.last.1.as_slice();
    let arguments = arguments_in(procedure, all);
    let choices = choices_in(procedure, all);
    let fits = is_entry(alloc, layout, code, procedure, ends.first, arguments)?;
    if !fits {
        return Ok(false);
    }
    let execution = Execution {
        code,
        procedure,
        entry: &ends.first.0,
        exit: &ends.last.0,
        arguments,
        choices,
    };
    let required = is_required(alloc, layout, interp, &execution)?;
    if !required {
        return Ok(false);
    }
    exit_fails(alloc, layout, interp, &execution, &line.what)
}

/// The arguments of a procedure, with which the choices at an exit begin.
fn arguments_in<'a>(procedure: &Procedure, all: &'a [Value]) -> &'a [Value]
    ensures { result.now ≡ take (length procedure.now.parameters) all.now }
{
    let count = procedure.parameters.len();
    if count <= all.len() {
        &all[..count]
    } else {
        all
    }
}

/// The choices of the body, which follow the arguments.
fn choices_in<'a>(procedure: &Procedure, all: &'a [Value]) -> &'a [Value]
    ensures { result.now ≡ drop (length procedure.now.parameters) all.now }
{
    let count = procedure.parameters.len();
    if count <= all.len() {
        &all[count..]
    } else {
        &[]
    }
}

/// Whether an entry has no choices, and its state and the arguments fit.
fn is_entry(
    alloc: Global,
    layout: &Layout,
    code: &Module,
    procedure: &Procedure,
    entry: &(State, Choices),
    arguments: &[Value],
) -> Result<bool, AllocError>
    ensures { IfOk result (λ b. Decides b (IsEntry layout.now code.now procedure.now entry.now arguments.now)) }
{
    let free = entry.1.is_empty();
    if !free {
        return Ok(false);
    }
    let fits = is_state(alloc, layout, &entry.0)?;
    if !fits {
        return Ok(false);
    }
    fit_parameters(alloc, layout, code, procedure, arguments)
}

fn is_state(alloc: Global, layout: &Layout, state: &State) -> Result<bool, AllocError>
    ensures { IfOk result (λ b. Decides b (IsState layout.now state.now)) }
{
    let types = cell_types(alloc, layout.tables())?;
    Ok(fit_all(types.as_slice(), state.cells.as_slice()))
}

fn fit_parameters(
    alloc: Global,
    layout: &Layout,
    code: &Module,
    procedure: &Procedure,
    arguments: &[Value],
) -> Result<bool, AllocError>
    ensures { IfOk result (λ b. Decides b (FitAll (map (λ q. type_of_written layout.now code.now q.ty) procedure.now.parameters) arguments.now)) }
{
    let parameters = procedure.parameters.as_slice();
    let types = parameter_types(alloc, layout.tables(), code, parameters)?;
    Ok(fit_all(types.as_slice(), arguments))
}

/// Whether each `requires` is true at the entry.
fn is_required(
    alloc: Global,
    layout: &Layout,
    interp: &Interp,
    execution: &Execution<'_>,
) -> Result<bool, EvalError>
    ensures value { IfOk result (λ b. Decides b (RequiredAt layout.now execution.now.code.now interp.now execution.now.procedure.now execution.now.entry.now execution.now.arguments.now)) }
    ensures wide { Tells (Of (ask_each (truth_asked layout.now (entry_at layout.now execution.now.code.now interp.now execution.now.procedure.now execution.now.entry.now execution.now.arguments.now)) (requires_of execution.now.procedure.now)).met) result }
{
    let code = execution.code;
    let procedure = execution.procedure;
    let state = execution.entry;
    let arguments = execution.arguments;
    let scope = entry_scope(alloc, layout, interp, code, procedure, state, arguments)?;
    requires_hold(alloc, layout, &scope, procedure)
}

/// Whether the body ends in the exit state with all choices taken, and the subject fails there.
fn exit_fails(
    alloc: Global,
    layout: &Layout,
    interp: &Interp,
    execution: &Execution<'_>,
    what: &What,
) -> Result<bool, EvalError>
    requires { main_module layout.now ≡ Some execution.now.code.now }
    ensures value { IfOk result (λ b. Decides b (FailsAtExit layout.now execution.now.procedure.now execution.now.entry.now execution.now.exit.now (ending_at layout.now interp.now execution.now) what.now)) }
    ensures wide { Tells (ExecutionTells layout.now interp.now execution.now what.now) result }
{
    let end = execution_end(
        alloc,
        layout,
        interp,
        execution.procedure,
        execution.entry,
        execution.arguments,
        execution.choices,
    )?;
    end_fails(alloc, layout, execution, &end, what)
}

/// Whether code ended in the exit state with all choices taken, and the subject fails there.
fn end_fails(
    alloc: Global,
    layout: &Layout,
    execution: &Execution<'_>,
    end: &CodeEnd,
    what: &What,
) -> Result<bool, EvalError>
    ensures value { IfOk result (λ b. (ending : Ending) → IsEnd execution.now.choices.now end.now ending → Decides b (FailsAtExit layout.now execution.now.procedure.now execution.now.entry.now execution.now.exit.now ending what.now)) }
    ensures wide { (ending : Ending) → IsEnd execution.now.choices.now end.now ending → Tells (Where (EndsIn execution.now.exit.now ending) (ExitTells layout.now execution.now.procedure.now execution.now.entry.now ending what.now)) result }
{
    match end {
        CodeEnd::Ended {
            scope,
            violated,
            used,
        } => {
            let exits = is_exit(execution, scope, *used);
            if !exits {
                return Ok(false);
            }
            subject_fails(alloc, layout, execution, scope, violated.as_slice(), what)
        }
        _ => Ok(false),
    }
}

fn is_exit(execution: &Execution<'_>, scope: &Scope, used: usize) -> bool
    ensures { Decides result ((used ≡ length execution.now.choices.now) × (scope.now.before ≡ execution.now.exit.now)) }
{
    let cells = scope.before.cells.as_slice();
    if used == execution.choices.len() {
        equal_all(cells, execution.exit.cells.as_slice())
    } else {
        false
    }
}

/// Whether the subject fails at the exit of a body that listed some sites.
fn subject_fails(
    alloc: Global,
    layout: &Layout,
    execution: &Execution<'_>,
    scope: &Scope,
    violated: &[Site],
    what: &What,
) -> Result<bool, EvalError>
    ensures value { IfOk result (λ b. Decides b (BodyFails layout.now execution.now.procedure.now execution.now.entry.now (ended scope.now violated.now) what.now)) }
    ensures wide { Tells (ExitTells layout.now execution.now.procedure.now execution.now.entry.now (Goes (ended scope.now violated.now)) what.now) result }
{
    match what {
        What::Ensures(number) => {
            let procedure = execution.procedure;
            ensures_fails(alloc, layout, procedure, *number, execution.entry, scope)
        }
        What::AtSite(site) => Ok(is_listed(violated, site)),
        What::Formula { .. } => Ok(false),
    }
}
