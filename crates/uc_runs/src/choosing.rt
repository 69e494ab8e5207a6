//! What the next choices say: variables that are declared, and names that are given an arbitrary value.

ghost use Rattle.std.specs.Prelude.{◌≡◌, ◌+◌, ◌<◌, map, length, slice_get, IfOk};
ghost use Rattle.uc_meaning.specs.Lookup.{module_at};
ghost use Rattle.uc_meaning.specs.Types.{type_of_written};
ghost use Rattle.uc_meaning.specs.Code.{Goes as goes_on, declare, declare_at, choose, name_now, set_name, in_scope, push_local, names_with_types};
ghost use Rattle.uc_runs.specs.Parts.{fitting};
ghost use Rattle.uc_runs.specs.Choices.{IsChosen};
ghost use Rattle.uc_runs.specs.Runs.{running, ending_of, Comes};

use crate::run::{Ending, Run};
use crate::run_forms_local::with_local;
use crate::{choice, set_name};
use std::alloc::{AllocError, Global};
use uc_layout::Layout;
use uc_meaning::{Local, Scope};
use uc_readings::{Meant, ScopeRef, meaning};
use uc_syntax::{Identifier, Module, Parameter, TypeExpr};
use uc_type_reader::type_of_written;
use uc_values::{Ty, Value};

/// The execution after variables of one type are declared where it is.
pub fn declared(
    alloc: Global,
    layout: &Layout,
    choices: &[Value],
    run: Run,
    names: &[Identifier],
    ty: &TypeExpr,
) -> Result<Ending, AllocError>
    ensures { IfOk result (λ e. ending_of choices.now e ≡ declare_at layout.now (module_at layout.now run.scope.path) names.now ty.now (running choices.now run)) }
{
    match layout.system().module_at(run.scope.path.as_slice()) {
        Some(code) => declare_names(alloc, layout, choices, code, run, names, ty),
        None => Ok(Ending::Stopped),
    }
}

/// The execution after variables of one type of a module are declared.
fn declare_names(
    alloc: Global,
    layout: &Layout,
    choices: &[Value],
    code: &Module,
    run: Run,
    names: &[Identifier],
    ty: &TypeExpr,
) -> Result<Ending, AllocError>
    ensures { IfOk result (λ e. ending_of choices.now e ≡ declare layout.now code.now (map (λ i. (i.name, ty.now)) names.now) (running choices.now run)) }
{
    let Some((first, rest)) = names.split_first() else {
        return Ok(Ending::Goes(run));
    };
    let end = declare(alloc, layout, choices, code, run, first.name, ty)?;
    match end {
        Ending::Goes(next) => declare_names(alloc, layout, choices, code, next, rest, ty),
        Ending::Stopped => Ok(Ending::Stopped),
        Ending::BadChoice(number) => Ok(Ending::BadChoice(number)),
    }
}

/// The execution after the results of a procedure are declared.
pub(crate) fn declare_results(
    alloc: Global,
    layout: &Layout,
    choices: &[Value],
    code: &Module,
    run: Run,
    results: &[Parameter<TypeExpr>],
) -> Result<Ending, AllocError>
    ensures { IfOk result (λ e. ending_of choices.now e ≡ declare layout.now code.now (names_with_types results.now) (running choices.now run)) }
{
    let mut here = run;
    for parameter in results {
        let name = parameter.identifier.name;
        let end = declare(alloc, layout, choices, code, here, name, &parameter.ty)?;
        match end {
            Ending::Goes(next) => {
                here = next;
            }
            other => {
                return Ok(other);
            }
        }
    }
    Ok(Ending::Goes(here))
}

/// The execution after a variable begins with the next choice.
fn declare(
    alloc: Global,
    layout: &Layout,
    choices: &[Value],
    code: &Module,
    run: Run,
    name: u32,
    written: &TypeExpr,
) -> Result<Ending, AllocError>
    ensures { IfOk result (λ e. ending_of choices.now e ≡ choose (type_of_written layout.now code.now written.now) (λ v here. goes_on (push_local name (type_of_written layout.now code.now written.now) v here)) (running choices.now run)) }
{
    let chosen = choice_for(alloc, layout, choices, run.used, code, written)?;
    match chosen {
        Some(chosen) => {
            let Chosen { ty, value } = chosen;
            let run = after_choice(choices, run);
            let run = with_local(alloc, run, Local { name, ty, value })?;
            Ok(Ending::Goes(run))
        }
        None => Ok(Ending::BadChoice(run.used)),
    }
}

/// A choice with its type.
#[derive(Drop)]
struct Chosen {
    ty: Ty,
    value: Value,
}

/// The choice at a place, if it is there and fits a written type.
fn choice_for(
    alloc: Global,
    layout: &Layout,
    choices: &[Value],
    place: usize,
    code: &Module,
    written: &TypeExpr,
) -> Result<Option<Chosen>, AllocError>
    ensures { IfOk result (λ c. IsChosen choices.now place (type_of_written layout.now code.now written.now) c) }
{
    let ty = type_of_written(alloc, layout.tables(), code, written)?;
    let chosen = choice(alloc, &ty, choices, place)?;
    match chosen {
        Some(value) => Ok(Some(Chosen { ty, value })),
        None => Ok(None),
    }
}

/// The execution after a name is given the next choice.
pub fn havoc(
    alloc: Global,
    layout: &Layout,
    choices: &[Value],
    run: Run,
    name: u32,
) -> Result<Ending, AllocError>
    ensures { IfOk result (λ e. ending_of choices.now e ≡ choose (name_now layout.now run.scope name).type (λ v here. goes_on (in_scope here (set_name layout.now here.scope name v))) (running choices.now run)) }
{
    let chosen = choice_of(alloc, layout, choices, run.used, &run.scope, name)?;
    match chosen {
        Some(value) => {
            let run = after_choice(choices, run);
            Ok(Ending::Goes(given(layout, run, name, value)))
        }
        None => Ok(Ending::BadChoice(run.used)),
    }
}

/// The choice at a place, if it is there and fits the type of a name.
fn choice_of(
    alloc: Global,
    layout: &Layout,
    choices: &[Value],
    place: usize,
    scope: &Scope,
    name: u32,
) -> Result<Option<Value>, AllocError>
    ensures { IfOk result (λ v. v ≡ fitting (name_now layout.now scope.now name).type (slice_get choices.now place)) }
{
    let ty = type_now(alloc, layout, scope, name)?;
    choice(alloc, &ty, choices, place)
}

/// The execution after a name is given a value.
fn given(layout: &Layout, run: Run, name: u32, value: Value) -> Run
    ensures { Comes run (λ here. in_scope here (set_name layout.now here.scope name value)) result }
{
    let Run {
        scope,
        violated,
        used,
    } = run;
    let scope = set_name(layout, scope, name, value);
    Run {
        scope,
        violated,
        used,
    }
}

/// The execution with one more choice taken.
fn after_choice(choices: &[Value], run: Run) -> Run
    requires { run.used < length choices.now }
    ensures { result ≡ record run { used = run.used + 1 } }
{
    let Run {
        scope,
        violated,
        used,
    } = run;
    let used = next(choices, used);
    Run {
        scope,
        violated,
        used,
    }
}

fn next(choices: &[Value], used: usize) -> usize
    requires { used < length choices.now }
    ensures { result ≡ used + 1 }
{
    used + 1
}

/// The type of a name.
fn type_now(alloc: Global, layout: &Layout, scope: &Scope, name: u32) -> Result<Ty, AllocError>
    ensures { IfOk result (λ t. t ≡ (name_now layout.now scope.now name).type) }
{
    let here = ScopeRef::of(scope);
    let meant = meaning(alloc, layout, &here, name, false)?;
    match meant {
        Meant::Known(said) => Ok(said.ty),
        Meant::Elsewhere(ty, _, _) => Ok(ty),
    }
}
