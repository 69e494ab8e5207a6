//! Whether a state is initial by given choices.

ghost use Rattle.std.specs.Prelude.{IfOk};
ghost use Rattle.uc_operators.specs.Overflows.{first_wide, TellsWide};
ghost use Rattle.uc_executions.specs.Starts.{start_met, IsAt, IsStartAnswer};

use crate::starts_entry::init_end;
use std::alloc::Global;
use uc_items::Items;
use uc_layout::{Layout, equal_all};
use uc_meaning::{CodeEnd, Interp, Site, State};
use uc_operators::EvalError;
use uc_values::Value;

/// Whether a state is initial by just these choices; and then the sites that all init code lists.
pub fn start_holds(
    alloc: Global,
    layout: &Layout,
    interp: &Interp,
    state: &State,
    choices: &[Value],
) -> Result<Option<Items<Site>>, EvalError>
    ensures value { IfOk result (λ answer. IsStartAnswer layout.now interp.now state.now choices.now answer) }
    ensures wide { TellsWide (first_wide (start_met layout.now interp.now choices.now)) result }
{
    let end = init_end(alloc, layout, interp, choices)?;
    Ok(sites_at(end, choices.len(), state))
}

/// The sites that are listed, where code ends in a state with all choices taken.
fn sites_at(end: CodeEnd, count: usize, state: &State) -> Option<Items<Site>>
    ensures { IsAt end count state.now result }
{
    match end {
        CodeEnd::Ended {
            scope,
            violated,
            used,
        } => {
            let cells = scope.before.cells.as_slice();
            if used == count && equal_all(cells, state.cells.as_slice()) {
                Some(violated)
            } else {
                None
            }
        }
        _ => None,
    }
}
