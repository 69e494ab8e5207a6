//! Formulas that are asked at the positions of copies.

ghost use Rattle.std.specs.Prelude.{◌≡◌, ℕ, ◌+◌, ◌<◌, IfOk};
ghost use Rattle.std.specs.Bool.{Decides};
ghost use Rattle.std.specs.List.{All};
ghost use Rattle.uc_meaning.specs.Runs.{no_state, position_at};
ghost use Rattle.uc_executions.specs.Formulas.{hyperinvariants_asked, hyperaxioms_asked};
ghost use Rattle.uc_meaning.specs.Runs.{states_at};
ghost use Rattle.uc_checks.specs.Tellings.{Tells, Of};
ghost use Rattle.uc_checks.specs.Refutations.{InvariantsBefore, InvariantsTell, AllInvariantsTell, HyperinvariantsAt, HyperinvariantsTell, AgreeAt, HyperaxiomsTell};

use std::alloc::Global;
use uc_executions::{hyperaxioms_hold, hyperinvariants_hold, invariants_hold, no_state, states_at};
use uc_items::{Items, at};
use uc_layout::Layout;
use uc_meaning::{Choices, Interp, State};
use uc_operators::EvalError;

/// Whether all invariants hold in the first states of each copy.
pub(crate) fn invariants_agree(
    alloc: Global,
    layout: &Layout,
    interp: &Interp,
    copies: &[Items<(State, Choices)>],
    count: u32,
) -> Result<bool, EvalError>
    ensures value { IfOk result (λ b. Decides b (All (InvariantsBefore layout.now interp.now count) copies.now)) }
    ensures wide { Tells (AllInvariantsTell layout.now interp.now count copies.now) result }
{
    for copy in copies {
        let hold = invariants_before(alloc, layout, interp, copy.as_slice(), count)?;
        if !hold {
            return Ok(false);
        }
    }
    Ok(true)
}

fn invariants_before(
    alloc: Global,
    layout: &Layout,
    interp: &Interp,
    copy: &[(State, Choices)],
    count: u32,
) -> Result<bool, EvalError>
    ensures value { IfOk result (λ b. Decides b (InvariantsBefore layout.now interp.now count copy.now)) }
    ensures wide { Tells (InvariantsTell layout.now interp.now count copy.now) result }
{
    let nothing = no_state(alloc);
    for position in 0..count {
        let state = state_at(copy, position, &nothing);
        let hold = invariants_hold(alloc, layout, interp, state)?;
        if !hold {
            return Ok(false);
        }
    }
    Ok(true)
}

/// The state at a position, or another one where there is none.
fn state_at<'a>(copy: &'a [(State, Choices)], position: u32, other: &'a State) -> &'a State
    ensures { other.now ≡ no_state → result.now ≡ (position_at position copy.now).0 }
{
    match at(copy, position as usize) {
        Some(found) => &found.0,
        None => other,
    }
}

/// Whether all hyperinvariants of so many copies hold at the first positions.
pub(crate) fn hyperinvariants_agree(
    alloc: Global,
    layout: &Layout,
    interp: &Interp,
    arity: u8,
    copies: &[Items<(State, Choices)>],
    count: u32,
) -> Result<bool, EvalError>
    ensures value { IfOk result (λ b. Decides b ((k : ℕ) → k < count → HyperinvariantsAt layout.now interp.now arity copies.now k)) }
    ensures wide { Tells (HyperinvariantsTell layout.now interp.now arity copies.now count) result }
{
    for position in 0..count {
        let hold = hyperinvariants_at(alloc, layout, interp, arity, copies, position)?;
        if !hold {
            return Ok(false);
        }
    }
    Ok(true)
}

fn hyperinvariants_at(
    alloc: Global,
    layout: &Layout,
    interp: &Interp,
    arity: u8,
    copies: &[Items<(State, Choices)>],
    position: u32,
) -> Result<bool, EvalError>
    ensures value { IfOk result (λ b. Decides b (HyperinvariantsAt layout.now interp.now arity copies.now position)) }
    ensures wide { Tells (Of (hyperinvariants_asked layout.now interp.now arity (states_at position copies.now)).met) result }
{
    let states = states_at(alloc, copies, position as usize)?;
    hyperinvariants_hold(alloc, layout, interp, arity, states.as_slice())
}

/// Whether all hyperaxioms of so many copies hold at the first positions and at the one behind them.
pub(crate) fn hyperaxioms_agree(
    alloc: Global,
    layout: &Layout,
    interp: &Interp,
    arity: u8,
    copies: &[Items<(State, Choices)>],
    last: u32,
) -> Result<bool, EvalError>
    ensures value { IfOk result (λ b. Decides b ((k : ℕ) → k < last + 1 → AgreeAt layout.now interp.now arity copies.now k)) }
    ensures wide { Tells (HyperaxiomsTell layout.now interp.now arity copies.now (last + 1)) result }
{
    let count = last as usize + 1;
    for position in 0..count {
        let hold = hyperaxioms_at(alloc, layout, interp, arity, copies, position)?;
        if !hold {
            return Ok(false);
        }
    }
    Ok(true)
}

fn hyperaxioms_at(
    alloc: Global,
    layout: &Layout,
    interp: &Interp,
    arity: u8,
    copies: &[Items<(State, Choices)>],
    position: usize,
) -> Result<bool, EvalError>
    ensures value { IfOk result (λ b. Decides b (AgreeAt layout.now interp.now arity copies.now position)) }
    ensures wide { Tells (Of (hyperaxioms_asked layout.now interp.now arity (states_at position copies.now)).met) result }
{
    let states = states_at(alloc, copies, position)?;
    hyperaxioms_hold(alloc, layout, interp, arity, states.as_slice())
}
