//! Initial states.

ghost use Rattle.std.specs.Prelude.{◌≡◌, ◌≤◌, length, IfOk};
ghost use Rattle.uc_meaning.specs.Cells.{cells_of};
ghost use Rattle.uc_meaning.specs.Steps.{init};
ghost use Rattle.uc_meaning.specs.Ends.{IsEnd, IsInitEnd, init_begun};
ghost use Rattle.uc_meaning.specs.Checks.{init_met};
ghost use Rattle.uc_operators.specs.Overflows.{first_wide, TellsWide};
ghost use Rattle.uc_executions.specs.Starts.{start_met};

use crate::running::run_init;
use std::alloc::Global;
use uc_items::Items;
use uc_layout::{Layout, cell_types, first_unfit, main_scope};
use uc_meaning::{CodeEnd, Interp};
use uc_operators::EvalError;
use uc_runs::{Run, code_end};
use uc_values::Value;

/// Runs all init code from the state that the choices begin with.
pub fn init_end(
    alloc: Global,
    layout: &Layout,
    interp: &Interp,
    choices: &[Value],
) -> Result<CodeEnd, EvalError>
    ensures value { IfOk result (λ end. IsInitEnd layout.now interp.now choices.now end) }
    ensures wide { TellsWide (first_wide (start_met layout.now interp.now choices.now)) result }
{
    let types = cell_types(alloc, layout.tables())?;
    match first_unfit(types.as_slice(), choices) {
        Some(number) => Ok(CodeEnd::BadChoice(number)),
        None => init_from(alloc, layout, interp, types.len(), choices),
    }
}

/// Runs all init code, where so many choices are the values of the cells.
fn init_from(
    alloc: Global,
    layout: &Layout,
    interp: &Interp,
    count: usize,
    choices: &[Value],
) -> Result<CodeEnd, EvalError>
    requires cells { count ≡ length (cells_of layout.now) }
    requires enough { count ≤ length choices.now }
    ensures value { IfOk result (λ end. IsEnd choices.now end (init layout.now (init_begun layout.now interp.now choices.now))) }
    ensures wide { TellsWide (first_wide (init_met layout.now (init_begun layout.now interp.now choices.now))) result }
{
    let scope = main_scope(alloc, interp, &choices[..count])?;
    let start = Run {
        scope,
        violated: Items::new(alloc),
        used: count,
    };
    let end = run_init(alloc, layout, choices, start)?;
    Ok(code_end(choices.len(), end))
}
