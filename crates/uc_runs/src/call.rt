//! How a procedure is entered and left.

ghost use Rattle.std.specs.Prelude.{◌≡◌, ◌++◌, true, List, IfOk};
ghost use Rattle.uc_values.specs.declared.value.Value.{Value};
ghost use Rattle.uc_meaning.specs.Code.{Goes as goes_on, then_run, declare, judge_requires, requires_of, names_with_types, in_scope, write_all, results as results_in, name_now};
ghost use Rattle.uc_meaning.specs.OverflowsRuns.{all_met_in, targets_met, met_after};
ghost use Rattle.uc_operators.specs.Overflows.{first_wide, TellsWide};
ghost use Rattle.uc_runs.specs.Writes.{has_local};
ghost use Rattle.uc_runs.specs.Runs.{running, ending_of, Comes, entry_of, with_locals, AreLocals, LeavesLocals};

use crate::choosing::declare_results;
use crate::judging::judge_requires;
use crate::run::{Ending, Run};
use crate::{values, write_all};
use std::alloc::{AllocError, Global};
use uc_items::{Items, beside};
use uc_layout::Layout;
use uc_meaning::{Local, Scope};
use uc_operators::EvalError;
use uc_readings::{ScopeRef, bound_locals};
use uc_syntax::{Expr, Module, Parameter, Place, Procedure, Target, TypeExpr};
use uc_values::{Value, copy};

/// A call that has begun: how it comes to the body, and the locals of the caller.
#[derive(Drop)]
pub struct Entry {
    pub begun: Ending,
    pub caller: Items<Local>,
}

/// The begin of a call: the arguments, each `requires`, and the choices that the results begin with.
pub fn entered(
    alloc: Global,
    layout: &Layout,
    choices: &[Value],
    run: Run,
    place: Place,
    code: &Module,
    procedure: &Procedure,
    arguments: &[Expr],
) -> Result<Entry, EvalError>
    ensures value { IfOk result (λ c. ending_of choices.now c.begun ≡ declare layout.now code.now (names_with_types procedure.now.results) (judge_requires layout.now place 1 (requires_of procedure.now) (in_scope (running choices.now run) (entry_of layout.now code.now procedure.now arguments.now run.scope)))) }
    ensures caller { IfOk result (λ c. c.caller ≡ run.scope.locals) }
    ensures wide { TellsWide (first_wide (all_met_in layout.now run.scope arguments.now ++ all_met_in layout.now (entry_of layout.now code.now procedure.now arguments.now run.scope) (requires_of procedure.now))) result }
{
    let locals = parameters(alloc, layout, &run.scope, code, procedure, arguments)?;
    let (inside, caller) = exchanged(run, locals);
    let begun = begun(alloc, layout, choices, inside, place, code, procedure);
    let (caller, begun) = beside(caller, begun)?;
    Ok(Entry { begun, caller })
}

/// The parameters of a procedure with the values of the arguments.
fn parameters(
    alloc: Global,
    layout: &Layout,
    scope: &Scope,
    code: &Module,
    procedure: &Procedure,
    arguments: &[Expr],
) -> Result<Items<Local>, EvalError>
    ensures value { IfOk result (λ ls. ls ≡ (entry_of layout.now code.now procedure.now arguments.now scope.now).locals) }
    ensures wide { TellsWide (first_wide (all_met_in layout.now scope.now arguments.now)) result }
{
    let values = values(alloc, layout, scope, arguments)?;
    let parameters = procedure.parameters.as_slice();
    let locals = bound_locals(alloc, layout, code, parameters, values.as_slice())?;
    Ok(locals)
}

/// The execution with other locals, and those that it had.
fn exchanged(run: Run, locals: Items<Local>) -> (Run, Items<Local>)
    ensures run { result.0 ≡ record run { scope = with_locals run.scope locals } }
    ensures had { result.1 ≡ run.scope.locals }
{
    let Run {
        scope,
        violated,
        used,
    } = run;
    let Scope {
        path,
        before,
        after,
        at_entry,
        copies,
        locals: had,
        interp,
    } = scope;
    let scope = Scope {
        path,
        before,
        after,
        at_entry,
        copies,
        locals,
        interp,
    };
    let run = Run {
        scope,
        violated,
        used,
    };
    (run, had)
}

/// The begin of a call from the scope of the procedure: each `requires`, and the choices that the results begin with.
fn begun(
    alloc: Global,
    layout: &Layout,
    choices: &[Value],
    run: Run,
    place: Place,
    code: &Module,
    procedure: &Procedure,
) -> Result<Ending, EvalError>
    ensures value { IfOk result (λ e. ending_of choices.now e ≡ declare layout.now code.now (names_with_types procedure.now.results) (judge_requires layout.now place 1 (requires_of procedure.now) (running choices.now run))) }
    ensures wide { TellsWide (first_wide (all_met_in layout.now run.scope (requires_of procedure.now))) result }
{
    let clauses = procedure.clauses.as_slice();
    let run = judge_requires(alloc, layout, run, place, clauses)?;
    let results = procedure.results.as_slice();
    let end = declare_results(alloc, layout, choices, code, run, results)?;
    Ok(end)
}

/// How a call ends whose body ends so: where it goes on, with the locals of the caller and the results in the targets.
pub fn returned(
    alloc: Global,
    layout: &Layout,
    caller: Items<Local>,
    ended: Ending,
    targets: &[Target],
    results: &[Parameter<TypeExpr>],
) -> Result<Ending, EvalError>
    requires { LeavesLocals results.now ended }
    ensures value { IfOk result (λ e. (choices : List Value) → ending_of choices e ≡ then_run (ending_of choices ended) (λ r. goes_on (in_scope r (write_all layout.now targets.now (results_in layout.now r.scope results.now) (with_locals r.scope caller))))) }
    ensures wide { (choices : List Value) → TellsWide (first_wide (met_after (ending_of choices ended) (λ r. targets_met layout.now targets.now (results_in layout.now r.scope results.now) (with_locals r.scope caller)))) result }
{
    match ended {
        Ending::Goes(run) => {
            let run = handed_back(alloc, layout, caller, run, targets, results)?;
            Ok(Ending::Goes(run))
        }
        Ending::Stopped => Ok(Ending::Stopped),
        Ending::BadChoice(number) => Ok(Ending::BadChoice(number)),
    }
}

/// The execution after a body, with the locals of the caller and the results in the targets.
fn handed_back(
    alloc: Global,
    layout: &Layout,
    caller: Items<Local>,
    run: Run,
    targets: &[Target],
    results: &[Parameter<TypeExpr>],
) -> Result<Run, EvalError>
    requires { AreLocals results.now run.scope }
    ensures value { IfOk result (λ r. Comes run (λ here. in_scope here (write_all layout.now targets.now (results_in layout.now here.scope results.now) (with_locals here.scope caller))) r) }
    ensures wide { TellsWide (first_wide (targets_met layout.now targets.now (results_in layout.now run.scope results.now) (with_locals run.scope caller))) result }
{
    let values = result_values(alloc, layout, &run.scope, results)?;
    let (outside, _) = exchanged(run, caller);
    let Run {
        scope,
        violated,
        used,
    } = outside;
    let scope = write_all(alloc, layout, scope, targets, values.as_slice())?;
    Ok(Run {
        scope,
        violated,
        used,
    })
}

/// The values of the results.
fn result_values(
    alloc: Global,
    layout: &Layout,
    scope: &Scope,
    results: &[Parameter<TypeExpr>],
) -> Result<Items<Value>, AllocError>
    requires { AreLocals results.now scope.now }
    ensures { IfOk result (λ vs. vs ≡ results_in layout.now scope.now results.now) }
{
    let mut values = Items::new(alloc);
    for parameter in results {
        let value = local_value(alloc, layout, scope, parameter.identifier.name)?;
        values.push(value)?;
    }
    Ok(values)
}

/// The value of a local.
fn local_value(
    alloc: Global,
    layout: &Layout,
    scope: &Scope,
    name: u32,
) -> Result<Value, AllocError>
    requires { has_local scope.now.locals name ≡ true }
    ensures { IfOk result (λ v. v ≡ (name_now layout.now scope.now name).value) }
{
    match ScopeRef::of(scope).local_of(name) {
        Some(local) => copy(alloc, &local.value),
        None => unreachable!(),
    }
}
