//! Copies of executions that are judged at their last position.

ghost use Rattle.std.specs.Prelude.{◌≡◌, ℕ, ◌+◌, ◌<◌, length, map, IfOk};
ghost use Rattle.std.specs.Bool.{Decides};
ghost use Rattle.std.specs.List.{All};
ghost use Rattle.std.specs.Option.{option_copied};
ghost use Rattle.uc_meaning.specs.Cells.{cells_of};
ghost use Rattle.uc_meaning.specs.Runs.{AreCopies};
ghost use Rattle.uc_meaning.specs.Lines.{FailsAt, FailsAfter, FailsInduction};
ghost use Rattle.uc_checks.specs.declared.walk.Beginning.TheVariants.{Initial, Anywhere};
ghost use Rattle.uc_checks.specs.Tellings.{Tells, OfEach};
ghost use Rattle.uc_checks.specs.Walks.{Lists, ListsAsked, CopyTells, AreStates};
ghost use Rattle.uc_checks.specs.Answers.{CopiesAnswer, WalkAnswer};
ghost use Rattle.uc_checks.specs.Sites.{site_asked};
ghost use Rattle.uc_checks.specs.Refutations.{CopiesTell, SubjectTells, EndTells, AfterTells, InductionTells, AgreeAt};

use crate::positions::{hyperaxioms_agree, hyperinvariants_agree, invariants_agree};
use crate::sites::site_of;
use crate::walk::{Beginning, Walk, copy_lists};
use std::alloc::Global;
use uc_executions::is_false_at;
use uc_items::Items;
use uc_layout::{Layout, cell_types};
use uc_meaning::{Choices, Interp, Line, State, What};
use uc_operators::EvalError;

/// Copies of executions under an interpretation, and the line that they are judged by after so many steps.
#[derive(Clone, Copy)]
pub(crate) struct Trial<'a> {
    pub(crate) layout: &'a Layout,
    pub(crate) interp: &'a Interp,
    pub(crate) line: &'a Line,
    pub(crate) steps: u32,
    pub(crate) copies: &'a [Items<(State, Choices)>],
}

/// Whether copies are runs of so many steps, in step, at whose last position the subject of a line fails.
pub(crate) fn fails_after(alloc: Global, trial: &Trial<'_>) -> Result<bool, EvalError>
    ensures value { IfOk result (λ b. Decides b (FailsAfter trial.now.layout.now trial.now.line.now trial.now.steps trial.now.interp.now trial.now.copies.now)) }
    ensures wide { Tells (AfterTells trial.now.layout.now trial.now.line.now trial.now.steps trial.now.interp.now trial.now.copies.now) result }
{
    let listed = copies_list(alloc, trial, Beginning::Initial)?;
    match listed {
        Some(listed) => end_fails(alloc, trial, Beginning::Initial, listed),
        None => Ok(false),
    }
}

/// Whether copies are linked states in which the invariants hold up to the last one, where the subject of a line fails.
pub(crate) fn fails_induction(alloc: Global, trial: &Trial<'_>) -> Result<bool, EvalError>
    ensures value { IfOk result (λ b. Decides b (FailsInduction trial.now.layout.now trial.now.line.now trial.now.steps trial.now.interp.now trial.now.copies.now)) }
    ensures wide { Tells (InductionTells trial.now.layout.now trial.now.line.now trial.now.steps trial.now.interp.now trial.now.copies.now) result }
{
    let layout = trial.layout;
    let interp = trial.interp;
    let copies = trial.copies;
    let steps = trial.steps;
    let listed = copies_list(alloc, trial, Beginning::Anywhere)?;
    let Some(listed) = listed else {
        return Ok(false);
    };
    let hold = invariants_agree(alloc, layout, interp, copies, steps)?;
    if !hold {
        return Ok(false);
    }
    let agree = hyperinvariants_agree(alloc, layout, interp, trial.line.arity, copies, steps)?;
    if !agree {
        return Ok(false);
    }
    end_fails(alloc, trial, Beginning::Anywhere, listed)
}

/// Whether copies are as many and as long as they must be, and the states of each are linked; and then whether the last step of each lists
/// the site that a line judges.
fn copies_list(
    alloc: Global,
    trial: &Trial<'_>,
    beginning: Beginning,
) -> Result<Option<bool>, EvalError>
    ensures value { IfOk result (λ o. WalkAnswer beginning trial.now.layout.now trial.now.interp.now trial.now.line.now trial.now.steps trial.now.copies.now o) }
    ensures wide { Tells (CopiesTell beginning trial.now.layout.now trial.now.interp.now trial.now.line.now.arity trial.now.steps trial.now.copies.now) result }
{
    let fit = are_copies(trial.copies, trial.line.arity, trial.steps);
    if !fit {
        return Ok(None);
    }
    let types = cell_types(alloc, trial.layout.tables())?;
    let walk = Walk {
        layout: trial.layout,
        types: types.as_slice(),
        interp: trial.interp,
        beginning,
        site: site_of(&trial.line.what),
    };
    each_lists(alloc, &walk, trial.copies)
}

fn are_copies(copies: &[Items<(State, Choices)>], number: u8, steps: u32) -> bool
    ensures { Decides result (AreCopies number steps copies.now) }
{
    if copies.len() == usize::from(number) {
        are_even(copies, steps)
    } else {
        false
    }
}

/// Whether each copy has one position more than steps.
fn are_even(copies: &[Items<(State, Choices)>], steps: u32) -> bool
    ensures { Decides result (All (λ run. length run ≡ steps + 1) copies.now) }
{
    let count = steps as usize + 1;
    for copy in copies {
        if copy.len() != count {
            return false;
        }
    }
    true
}

/// Whether the states of each copy are linked; and then whether the last step of each lists the site.
fn each_lists(
    alloc: Global,
    walk: &Walk<'_>,
    copies: &[Items<(State, Choices)>],
) -> Result<Option<bool>, EvalError>
    requires { walk.now.types.now ≡ map (λ c. c.type) (cells_of walk.now.layout.now) }
    ensures value { IfOk result (λ o. CopiesAnswer walk.now.beginning walk.now.layout.now walk.now.interp.now (option_copied walk.now.site) copies.now o) }
    ensures wide { Tells (OfEach (CopyTells walk.now.beginning walk.now.layout.now walk.now.interp.now) (AreStates walk.now.beginning walk.now.layout.now walk.now.interp.now) copies.now) result }
{
    let mut all = true;
    for copy in copies {
        let listed = copy_lists(alloc, walk, copy.as_slice())?;
        match listed {
            Some(listed) => {
                all = all && listed;
            }
            None => {
                return Ok(None);
            }
        }
    }
    Ok(Some(all))
}

/// Whether all hyperaxioms hold at every position, and the subject of a line fails at the last, where it is known whether the last step of
/// each copy lists the site.
fn end_fails(
    alloc: Global,
    trial: &Trial<'_>,
    beginning: Beginning,
    listed: bool,
) -> Result<bool, EvalError>
    requires { Decides listed (All (ListsAsked beginning trial.now.layout.now trial.now.interp.now (site_asked trial.now.line.now.what)) trial.now.copies.now) }
    ensures value { IfOk result (λ b. Decides b (((k : ℕ) → k < trial.now.steps + 1 → AgreeAt trial.now.layout.now trial.now.interp.now trial.now.line.now.arity trial.now.copies.now k) × FailsAt trial.now.layout.now trial.now.interp.now trial.now.copies.now trial.now.steps (Lists beginning trial.now.layout.now trial.now.interp.now) trial.now.line.now.what)) }
    ensures wide { Tells (EndTells trial.now.layout.now trial.now.line.now trial.now.steps trial.now.interp.now trial.now.copies.now) result }
{
    let layout = trial.layout;
    let arity = trial.line.arity;
    let agree = hyperaxioms_agree(
        alloc,
        layout,
        trial.interp,
        arity,
        trial.copies,
        trial.steps,
    )?;
    if !agree {
        return Ok(false);
    }
    subject_fails(alloc, trial, beginning, listed)
}

fn subject_fails(
    alloc: Global,
    trial: &Trial<'_>,
    beginning: Beginning,
    listed: bool,
) -> Result<bool, EvalError>
    requires { Decides listed (All (ListsAsked beginning trial.now.layout.now trial.now.interp.now (site_asked trial.now.line.now.what)) trial.now.copies.now) }
    ensures value { IfOk result (λ b. Decides b (FailsAt trial.now.layout.now trial.now.interp.now trial.now.copies.now trial.now.steps (Lists beginning trial.now.layout.now trial.now.interp.now) trial.now.line.now.what)) }
    ensures wide { Tells (SubjectTells trial.now.layout.now trial.now.interp.now trial.now.copies.now trial.now.steps trial.now.line.now.what) result }
{
    match &trial.line.what {
        What::Formula { path, decl } => {
            let layout = trial.layout;
            let position = trial.steps as usize;
            let path = path.as_slice();
            is_false_at(
                alloc,
                layout,
                trial.interp,
                path,
                *decl,
                trial.copies,
                position,
            )
        }
        What::AtSite(_) => Ok(listed),
        What::Ensures(_) => Ok(false),
    }
}
