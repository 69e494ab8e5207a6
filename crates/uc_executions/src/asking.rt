//! The axioms, the invariants and the hyper formulas of a design.

ghost use Rattle.std.specs.Prelude.{◌≡◌, IfOk};
ghost use Rattle.std.specs.Bool.{Decides};
ghost use Rattle.std.specs.List.{All};
ghost use Rattle.uc_meaning.specs.Cells.{instances};
ghost use Rattle.uc_meaning.specs.Runs.{AxiomsAt, HyperaxiomsAt, copies_scope};
ghost use Rattle.uc_meaning.specs.Lines.{InvariantsIn, HyperinvariantsIn};
ghost use Rattle.uc_operators.specs.Overflows.{first_wide, TellsWide};
ghost use Rattle.uc_executions.specs.Formulas.{formulas_asked, axioms_asked, invariants_asked, hyperinvariants_asked, hyperaxioms_asked};

use crate::formulas::formulas_hold;
use crate::kind::FormulaKind;
use crate::seen::{Seen, no_state};
use std::alloc::Global;
use uc_layout::{Layout, instances};
use uc_meaning::{Interp, State};
use uc_operators::EvalError;

/// Whether every axiom of every module in use is true under an interpretation.
pub fn axioms_hold(alloc: Global, layout: &Layout, interp: &Interp) -> Result<bool, EvalError>
    ensures value { IfOk result (λ b. Decides b (All (AxiomsAt layout.now interp.now) (instances layout.now))) }
    ensures wide { TellsWide (first_wide (axioms_asked layout.now interp.now).met) result }
{
    let all = instances(alloc, &layout.system())?;
    let state = no_state(alloc);
    let seen = Seen {
        interp,
        state: &state,
        copies: &[],
    };
    formulas_hold(alloc, layout, all.as_slice(), FormulaKind::Axiom, &seen)
}

/// Whether every invariant of every instance is true in a state.
pub fn invariants_hold(
    alloc: Global,
    layout: &Layout,
    interp: &Interp,
    state: &State,
) -> Result<bool, EvalError>
    ensures value { IfOk result (λ b. Decides b (All (InvariantsIn layout.now interp.now state.now) (instances layout.now))) }
    ensures wide { TellsWide (first_wide (invariants_asked layout.now interp.now state.now).met) result }
{
    let all = instances(alloc, &layout.system())?;
    let seen = Seen {
        interp,
        state,
        copies: &[],
    };
    formulas_hold(alloc, layout, all.as_slice(), FormulaKind::Invariant, &seen)
}

/// Whether every hyperinvariant of so many copies, of every instance, is true of the copies' states.
pub fn hyperinvariants_hold(
    alloc: Global,
    layout: &Layout,
    interp: &Interp,
    arity: u8,
    copies: &[State],
) -> Result<bool, EvalError>
    ensures value { IfOk result (λ b. Decides b (All (HyperinvariantsIn layout.now interp.now arity copies.now) (instances layout.now))) }
    ensures wide { TellsWide (first_wide (hyperinvariants_asked layout.now interp.now arity copies.now).met) result }
{
    let kind = FormulaKind::Hyperinvariant(arity);
    hyper_formulas_hold(alloc, layout, interp, kind, copies)
}

/// Whether every hyperaxiom of so many copies, of every instance, is true of the copies' states.
pub fn hyperaxioms_hold(
    alloc: Global,
    layout: &Layout,
    interp: &Interp,
    arity: u8,
    copies: &[State],
) -> Result<bool, EvalError>
    ensures value { IfOk result (λ b. Decides b (HyperaxiomsAt layout.now interp.now arity copies.now)) }
    ensures wide { TellsWide (first_wide (hyperaxioms_asked layout.now interp.now arity copies.now).met) result }
{
    let kind = FormulaKind::Hyperaxiom(arity);
    hyper_formulas_hold(alloc, layout, interp, kind, copies)
}

/// Whether all formulas of a kind are true of copies' states.
fn hyper_formulas_hold(
    alloc: Global,
    layout: &Layout,
    interp: &Interp,
    kind: FormulaKind,
    copies: &[State],
) -> Result<bool, EvalError>
    ensures value { IfOk result (λ b. b ≡ (formulas_asked layout.now kind (λ path. copies_scope interp.now path copies.now) (instances layout.now)).holds) }
    ensures wide { TellsWide (first_wide (formulas_asked layout.now kind (λ path. copies_scope interp.now path copies.now) (instances layout.now)).met) result }
{
    let all = instances(alloc, &layout.system())?;
    let state = no_state(alloc);
    let seen = Seen {
        interp,
        state: &state,
        copies,
    };
    formulas_hold(alloc, layout, all.as_slice(), kind, &seen)
}
