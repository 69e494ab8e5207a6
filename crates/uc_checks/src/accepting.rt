//! Whether a trace refutes a line.

ghost use Rattle.std.specs.Prelude.{◌≡◌, IfOk};
ghost use Rattle.std.specs.Bool.{Decides};
ghost use Rattle.uc_meaning.specs.Cells.{IsInterpretation};
ghost use Rattle.uc_meaning.specs.Runs.{IsAdmitted};
ghost use Rattle.uc_meaning.specs.Lines.{Refutes, FailsIn};
ghost use Rattle.uc_executions.specs.Formulas.{axioms_asked};
ghost use Rattle.uc_checks.specs.Tellings.{Tells, Of, Where};
ghost use Rattle.uc_checks.specs.Refutations.{LineTells, RefutationTells};

use crate::bodies::fails_body;
use crate::copies::{Trial, fails_after, fails_induction};
use std::alloc::Global;
use uc_executions::axioms_hold;
use uc_layout::{Layout, is_interpretation};
use uc_meaning::{At, Interp, Line, Trace};
use uc_operators::EvalError;

/// Whether a trace refutes a line.
pub fn accepts_trace(
    alloc: Global,
    layout: &Layout,
    line: &Line,
    trace: &Trace,
) -> Result<bool, EvalError>
    ensures value { IfOk result (λ b. Decides b (Refutes layout.now line.now trace.now)) }
    ensures wide { Tells (RefutationTells layout.now line.now trace.now) result }
{
    let admitted = is_admitted(alloc, layout, &trace.interp)?;
    if !admitted {
        return Ok(false);
    }
    fails(alloc, layout, line, trace)
}

/// Whether an interpretation is one of the design, under which all axioms are true.
fn is_admitted(alloc: Global, layout: &Layout, interp: &Interp) -> Result<bool, EvalError>
    ensures value { IfOk result (λ b. Decides b (IsAdmitted layout.now interp.now)) }
    ensures wide { Tells (Where (IsInterpretation layout.now interp.now) (Of (axioms_asked layout.now interp.now).met)) result }
{
    let fits = is_interpretation(alloc, layout.tables(), interp)?;
    if !fits {
        return Ok(false);
    }
    axioms_hold(alloc, layout, interp)
}

/// Whether the subject of a line fails in a trace.
fn fails(alloc: Global, layout: &Layout, line: &Line, trace: &Trace) -> Result<bool, EvalError>
    ensures value { IfOk result (λ b. Decides b (FailsIn layout.now line.now line.now.at trace.now.interp trace.now.copies)) }
    ensures wide { Tells (LineTells layout.now line.now line.now.at trace.now.interp trace.now.copies) result }
{
    let interp = &trace.interp;
    let copies = trace.copies.as_slice();
    match line.at {
        At::Exactly(steps) => {
            let trial = Trial {
                layout,
                interp,
                line,
                steps,
                copies,
            };
            fails_after(alloc, &trial)
        }
        At::Base(steps) => {
            let trial = Trial {
                layout,
                interp,
                line,
                steps,
                copies,
            };
            fails_after(alloc, &trial)
        }
        At::Step(steps) => {
            let trial = Trial {
                layout,
                interp,
                line,
                steps,
                copies,
            };
            fails_induction(alloc, &trial)
        }
        At::Body(number) => fails_body(alloc, layout, interp, line, number, copies),
    }
}
