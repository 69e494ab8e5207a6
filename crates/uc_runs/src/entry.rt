//! Code in a scope of a design.

ghost use Rattle.std.specs.Prelude.{◌≡◌, List, length, min, IfOk};
ghost use Rattle.uc_values.specs.declared.value.Value.{Value};
ghost use Rattle.uc_meaning.specs.declared.code.CodeEnd.TheVariants.{Ended};
ghost use Rattle.uc_meaning.specs.Code.{run};
ghost use Rattle.uc_meaning.specs.Ends.{IsEnd, begun};
ghost use Rattle.uc_meaning.specs.OverflowsRuns.{run_met};
ghost use Rattle.uc_operators.specs.Overflows.{first_wide, TellsWide};
ghost use Rattle.uc_runs.specs.Runs.{ending_of};

use crate::running::run_each;
use crate::{Ending, Run};
use std::alloc::Global;
use uc_items::Items;
use uc_layout::Layout;
use uc_meaning::{CodeEnd, Scope};
use uc_operators::EvalError;
use uc_syntax::Stmt;
use uc_values::Value;

/// How many calls stand on one chain at most.
const LONGEST_CHAIN: u32 = 32;

/// Runs code from a scope, by choices.
pub fn run_code(
    alloc: Global,
    layout: &Layout,
    scope: Scope,
    code: &[Stmt],
    choices: &[Value],
) -> Result<CodeEnd, EvalError>
    ensures value { IfOk result (λ end. IsEnd choices.now end (run layout.now code.now (begun scope choices.now))) }
    ensures wide { TellsWide (first_wide (run_met layout.now code.now (begun scope choices.now))) result }
{
    let start = Run {
        scope,
        violated: Items::new(alloc),
        used: 0,
    };
    let end = run_each(alloc, layout, LONGEST_CHAIN, choices, start, code)?;
    Ok(code_end(choices.len(), end))
}

/// How code ends where there are so many choices, of which no more are taken.
pub fn code_end(count: usize, end: Ending) -> CodeEnd
    ensures { (choices : List Value) → length choices ≡ count → IsEnd choices result (ending_of choices end) }
{
    match end {
        Ending::Goes(run) => ended(count, run),
        Ending::Stopped => CodeEnd::Stopped,
        Ending::BadChoice(number) => CodeEnd::BadChoice(number.min(count)),
    }
}

fn ended(count: usize, run: Run) -> CodeEnd
    ensures { result ≡ Ended run.scope run.violated (min run.used count) }
{
    let Run {
        scope,
        violated,
        used,
    } = run;
    CodeEnd::Ended {
        scope,
        violated,
        used: used.min(count),
    }
}
