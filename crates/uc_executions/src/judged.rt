//! The formula that a line judges, at a position of copies of runs.

ghost use Rattle.std.specs.Prelude.{◌≡◌, IfOk};
ghost use Rattle.std.specs.Bool.{Decides};
ghost use Rattle.std.specs.Option.{option_map};
ghost use Rattle.uc_meaning.specs.Runs.{position_at, states_at, copies_scope, no_state};
ghost use Rattle.uc_meaning.specs.Lines.{formula_in as formula_meant, formula_of, IsFalseAt};
ghost use Rattle.uc_operators.specs.Overflows.{first_wide, TellsWide};
ghost use Rattle.uc_executions.specs.Formulas.{scope_seen};
ghost use Rattle.uc_executions.specs.Judged.{judged_parts, falsity_asked, falsity_in_copies, falsity_at};

use crate::seen::{Seen, no_state};
use std::alloc::{AllocError, Global};
use uc_evaluator::is_true;
use uc_items::{Items, at};
use uc_layout::Layout;
use uc_meaning::{Choices, Interp, State, copy_state};
use uc_operators::EvalError;
use uc_syntax::{Decl, Expr};

/// The formula of an invariant, or of a hyperinvariant.
#[derive(Clone, Copy)]
pub struct Judged<'a> {
    pub is_hyper: bool,
    pub formula: &'a Expr,
}

/// The formula at a place among the declarations of an instance's module.
pub fn formula_of<'a>(layout: &'a Layout, path: &[u32], number: u32) -> Option<Judged<'a>>
    ensures { option_map judged_parts result ≡ formula_of layout.now path.now number }
{
    let code = layout.system().module_at(path)?;
    let decl = at(code.decls.as_slice(), number as usize)?;
    formula_in(decl)
}

fn formula_in(decl: &Decl) -> Option<Judged<'_>>
    ensures { option_map judged_parts result ≡ formula_meant decl.now }
{
    match decl {
        Decl::Invariant(_, _, formula) => Some(Judged {
            is_hyper: false,
            formula,
        }),
        Decl::Hyperinvariant(_, _, _, formula) => Some(Judged {
            is_hyper: true,
            formula,
        }),
        _ => None,
    }
}

/// Whether the formula of a declaration is false at a position: an invariant in every copy, a hyperinvariant of all copies together.
pub fn is_false_at(
    alloc: Global,
    layout: &Layout,
    interp: &Interp,
    path: &[u32],
    number: u32,
    copies: &[Items<(State, Choices)>],
    position: usize,
) -> Result<bool, EvalError>
    ensures value { IfOk result (λ b. Decides b (IsFalseAt layout.now interp.now path.now copies.now position (formula_of layout.now path.now number))) }
    ensures wide { TellsWide (first_wide (falsity_at layout.now interp.now path.now copies.now position (formula_of layout.now path.now number)).met) result }
{
    match formula_of(layout, path, number) {
        Some(judged) => {
            if judged.is_hyper {
                is_false_of_all(
                    alloc,
                    layout,
                    interp,
                    path,
                    judged.formula,
                    copies,
                    position,
                )
            } else {
                is_false_in_each(
                    alloc,
                    layout,
                    interp,
                    path,
                    judged.formula,
                    copies,
                    position,
                )
            }
        }
        None => Ok(false),
    }
}

/// Whether a hyper formula is false of all copies together.
fn is_false_of_all(
    alloc: Global,
    layout: &Layout,
    interp: &Interp,
    path: &[u32],
    formula: &Expr,
    copies: &[Items<(State, Choices)>],
    position: usize,
) -> Result<bool, EvalError>
    ensures value { IfOk result (λ b. b ≡ (falsity_asked layout.now (copies_scope interp.now path.now (states_at position copies.now)) formula.now).holds) }
    ensures wide { TellsWide (first_wide (falsity_asked layout.now (copies_scope interp.now path.now (states_at position copies.now)) formula.now).met) result }
{
    let states = states_at(alloc, copies, position)?;
    let state = no_state(alloc);
    let seen = Seen {
        interp,
        state: &state,
        copies: states.as_slice(),
    };
    is_false(alloc, layout, &seen, path, formula)
}

/// Whether a formula is false in each copy.
fn is_false_in_each(
    alloc: Global,
    layout: &Layout,
    interp: &Interp,
    path: &[u32],
    formula: &Expr,
    copies: &[Items<(State, Choices)>],
    position: usize,
) -> Result<bool, EvalError>
    ensures value { IfOk result (λ b. b ≡ (falsity_in_copies layout.now interp.now path.now copies.now position formula.now).holds) }
    ensures wide { TellsWide (first_wide (falsity_in_copies layout.now interp.now path.now copies.now position formula.now).met) result }
{
    let nothing = no_state(alloc);
    for run in copies {
        let state = state_at(run.as_slice(), position, &nothing);
        let seen = Seen {
            interp,
            state,
            copies: &[],
        };
        let fails = is_false(alloc, layout, &seen, path, formula)?;
        if !fails {
            return Ok(false);
        }
    }
    Ok(true)
}

fn is_false(
    alloc: Global,
    layout: &Layout,
    seen: &Seen<'_>,
    path: &[u32],
    formula: &Expr,
) -> Result<bool, EvalError>
    ensures value { IfOk result (λ b. b ≡ (falsity_asked layout.now (scope_seen seen.now path.now) formula.now).holds) }
    ensures wide { TellsWide (first_wide (falsity_asked layout.now (scope_seen seen.now path.now) formula.now).met) result }
{
    let scope = seen.scope(path);
    let holds = is_true(alloc, layout, &scope, formula)?;
    Ok(!holds)
}

/// The state at a position, or another one where there is none.
fn state_at<'a>(run: &'a [(State, Choices)], position: usize, other: &'a State) -> &'a State
    ensures { other.now ≡ no_state → result.now ≡ (position_at position run.now).0 }
{
    match at(run, position) {
        Some(found) => &found.0,
        None => other,
    }
}

/// The states of copies at a position.
pub fn states_at(
    alloc: Global,
    copies: &[Items<(State, Choices)>],
    position: usize,
) -> Result<Items<State>, AllocError>
    ensures { IfOk result (λ ss. ss ≡ states_at position copies.now) }
{
    let nothing = no_state(alloc);
    let mut states = Items::new(alloc);
    for run in copies {
        let state = state_at(run.as_slice(), position, &nothing);
        states.push(copy_state(alloc, state)?)?;
    }
    Ok(states)
}
