//! The entry of a procedure of main.

ghost use Rattle.std.specs.Prelude.{◌≡◌, Some, IfOk};
ghost use Rattle.uc_syntax.specs.declared.declaration.Module.{Module};
ghost use Rattle.uc_meaning.specs.Lookup.{main_module};
ghost use Rattle.uc_meaning.specs.Ends.{IsEnd};
ghost use Rattle.uc_operators.specs.Overflows.{first_wide, TellsWide};
ghost use Rattle.uc_executions.specs.Executions.{entry_at, body_ending, body_met};

use crate::body::body_end;
use std::alloc::{AllocError, Global};
use uc_items::{Items, beside};
use uc_layout::{Layout, main_scope};
use uc_meaning::{CodeEnd, Interp, Local, Scope, State};
use uc_operators::EvalError;
use uc_readings::bound_locals;
use uc_syntax::{Module, Procedure};
use uc_values::Value;

/// How an execution of a procedure of main ends: from an entry state, with arguments, by choices.
pub fn execution_end(
    alloc: Global,
    layout: &Layout,
    interp: &Interp,
    procedure: &Procedure,
    entry: &State,
    arguments: &[Value],
    choices: &[Value],
) -> Result<CodeEnd, EvalError>
    ensures value { IfOk result (λ end. (m : Module) → main_module layout.now ≡ Some m → IsEnd choices.now end (body_ending layout.now m procedure.now (entry_at layout.now m interp.now procedure.now entry.now arguments.now) choices.now)) }
    ensures wide { (m : Module) → main_module layout.now ≡ Some m → TellsWide (first_wide (body_met layout.now m procedure.now (entry_at layout.now m interp.now procedure.now entry.now arguments.now) choices.now)) result }
{
    match layout.system().main_module() {
        Some(code) => {
            let scope = entry_scope(alloc, layout, interp, code, procedure, entry, arguments)?;
            body_end(alloc, layout, scope, procedure, choices)
        }
        None => Ok(CodeEnd::Stopped),
    }
}

/// The scope at the entry of a procedure of a module: that of main, with the parameters as locals.
pub fn entry_scope(
    alloc: Global,
    layout: &Layout,
    interp: &Interp,
    code: &Module,
    procedure: &Procedure,
    entry: &State,
    arguments: &[Value],
) -> Result<Scope, AllocError>
    ensures { IfOk result (λ s. s ≡ entry_at layout.now code.now interp.now procedure.now entry.now arguments.now) }
{
    let parameters = procedure.parameters.as_slice();
    let locals = bound_locals(alloc, layout, code, parameters, arguments)?;
    let (locals, scope) = beside(locals, main_scope(alloc, interp, entry.cells.as_slice()))?;
    Ok(with_locals(scope, locals))
}

/// A scope with other locals.
fn with_locals(scope: Scope, locals: Items<Local>) -> Scope
    ensures { result ≡ record scope { locals = locals } }
{
    let Scope {
        path,
        before,
        after,
        at_entry,
        copies,
        locals: _,
        interp,
    } = scope;
    Scope {
        path,
        before,
        after,
        at_entry,
        copies,
        locals,
        interp,
    }
}
