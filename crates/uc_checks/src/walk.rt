//! The states of a copy, walked from the first to the last.

ghost use Rattle.std.specs.Prelude.{◌≡◌, List, [], map, IfOk};
ghost use Rattle.std.specs.Bool.{Decides};
ghost use Rattle.std.specs.Option.{option_copied};
ghost use Rattle.uc_meaning.specs.declared.scope.Site.{Site as SiteMeant};
ghost use Rattle.uc_meaning.specs.Cells.{IsState, cells_of};
ghost use Rattle.uc_meaning.specs.Steps.{IsStep};
ghost use Rattle.uc_meaning.specs.Checks.{step_met};
ghost use Rattle.uc_checks.specs.Tellings.{Tells, Of};
ghost use Rattle.uc_checks.specs.Walks.{Begins, BeginTells, FirstTells, StepTells, StepsTell, CopyTells, asks_site};
ghost use Rattle.uc_checks.specs.Answers.{IsAnswer, AreSites, StepsAnswer, CopyAnswer};

use crate::sites::listed_in;
use crate::step_holds;
use std::alloc::Global;
use uc_executions::start_holds;
use uc_items::Items;
use uc_layout::{Layout, fit_all};
use uc_meaning::{Choices, Interp, Site, State};
use uc_operators::EvalError;
use uc_values::Ty;

/// Where the states of a copy begin.
#[derive(Clone, Copy)]
pub(crate) enum Beginning {
    Initial,
    Anywhere,
}

/// What the states of copies are walked by: the design and the types of its cells, an interpretation, where a copy begins, and the site that
/// is asked of its last step.
#[derive(Clone, Copy)]
pub(crate) struct Walk<'a> {
    pub(crate) layout: &'a Layout,
    pub(crate) types: &'a [Ty],
    pub(crate) interp: &'a Interp,
    pub(crate) beginning: Beginning,
    pub(crate) site: Option<&'a Site>,
}

/// Whether the states of a copy are linked; and then whether the last step lists the site.
pub(crate) fn copy_lists(
    alloc: Global,
    walk: &Walk<'_>,
    copy: &[(State, Choices)],
) -> Result<Option<bool>, EvalError>
    requires { walk.now.types.now ≡ map (λ c. c.type) (cells_of walk.now.layout.now) }
    ensures value { IfOk result (λ o. CopyAnswer walk.now.beginning walk.now.layout.now walk.now.interp.now (option_copied walk.now.site) copy.now o) }
    ensures wide { Tells (CopyTells walk.now.beginning walk.now.layout.now walk.now.interp.now copy.now) result }
{
    let Some((first, rest)) = copy.split_first() else {
        return Ok(None);
    };
    let listed = first_lists(alloc, walk, first)?;
    match listed {
        Some(listed) => steps_list(alloc, walk, &first.0, rest, listed),
        None => Ok(None),
    }
}

/// Whether a copy begins with a position; and then whether the beginning lists the site.
fn first_lists(
    alloc: Global,
    walk: &Walk<'_>,
    first: &(State, Choices),
) -> Result<Option<bool>, EvalError>
    requires { walk.now.types.now ≡ map (λ c. c.type) (cells_of walk.now.layout.now) }
    ensures value { IfOk result (λ o. IsAnswer (λ sites. IsState walk.now.layout.now first.now.0 × Begins walk.now.beginning walk.now.layout.now walk.now.interp.now first.now sites) (option_copied walk.now.site) o) }
    ensures wide { Tells (FirstTells walk.now.beginning walk.now.layout.now walk.now.interp.now first.now) result }
{
    let fits = is_state(walk, &first.0);
    if !fits {
        return Ok(None);
    }
    let sites = begins(alloc, walk, first)?;
    Ok(listed_in(walk.site, sites))
}

/// The sites that the beginning of a copy lists, if a copy begins so.
fn begins(
    alloc: Global,
    walk: &Walk<'_>,
    first: &(State, Choices),
) -> Result<Option<Items<Site>>, EvalError>
    ensures value { IfOk result (λ o. AreSites (Begins walk.now.beginning walk.now.layout.now walk.now.interp.now first.now) o) }
    ensures wide { Tells (BeginTells walk.now.beginning walk.now.layout.now walk.now.interp.now first.now) result }
{
    match walk.beginning {
        Beginning::Initial => {
            let choices = first.1.as_slice();
            start_holds(alloc, walk.layout, walk.interp, &first.0, choices)
        }
        Beginning::Anywhere => Ok(free_sites(alloc, first)),
    }
}

/// No sites, where there are no choices.
fn free_sites(alloc: Global, first: &(State, Choices)) -> Option<Items<Site>>
    ensures { AreSites (λ sites. (first.now.1 ≡ []) × (sites ≡ [])) result }
{
    if first.1.is_empty() {
        Some(Items::new(alloc))
    } else {
        None
    }
}

fn is_state(walk: &Walk<'_>, state: &State) -> bool
    requires { walk.now.types.now ≡ map (λ c. c.type) (cells_of walk.now.layout.now) }
    ensures { Decides result (IsState walk.now.layout.now state.now) }
{
    fit_all(walk.types, state.cells.as_slice())
}

/// Whether positions are linked by steps from a state on; and then whether the last step lists the site, or what was known of it where there
/// is no step.
fn steps_list(
    alloc: Global,
    walk: &Walk<'_>,
    state: &State,
    rest: &[(State, Choices)],
    listed: bool,
) -> Result<Option<bool>, EvalError>
    requires { walk.now.types.now ≡ map (λ c. c.type) (cells_of walk.now.layout.now) }
    ensures value { IfOk result (λ o. (sites : List SiteMeant) → listed ≡ asks_site (option_copied walk.now.site) sites → StepsAnswer walk.now.layout.now walk.now.interp.now state.now sites rest.now (option_copied walk.now.site) o) }
    ensures wide { Tells (StepsTell walk.now.layout.now walk.now.interp.now state.now rest.now) result }
{
    let mut old = state;
    let mut last = listed;
    for next in rest {
        let listed = step_lists(alloc, walk, old, next)?;
        match listed {
            Some(listed) => {
                last = listed;
                old = &next.0;
            }
            None => {
                return Ok(None);
            }
        }
    }
    Ok(Some(last))
}

/// Whether a position follows a state by a step; and then whether the step lists the site.
fn step_lists(
    alloc: Global,
    walk: &Walk<'_>,
    old: &State,
    next: &(State, Choices),
) -> Result<Option<bool>, EvalError>
    requires { walk.now.types.now ≡ map (λ c. c.type) (cells_of walk.now.layout.now) }
    ensures value { IfOk result (λ o. IsAnswer (λ sites. IsState walk.now.layout.now next.now.0 × IsStep walk.now.layout.now walk.now.interp.now old.now next.now.0 next.now.1 sites) (option_copied walk.now.site) o) }
    ensures wide { Tells (StepTells walk.now.layout.now walk.now.interp.now old.now next.now) result }
{
    let fits = is_state(walk, &next.0);
    if !fits {
        return Ok(None);
    }
    let sites = step_sites(alloc, walk, old, next)?;
    Ok(listed_in(walk.site, sites))
}

/// The sites that a step lists, if it is one.
fn step_sites(
    alloc: Global,
    walk: &Walk<'_>,
    old: &State,
    next: &(State, Choices),
) -> Result<Option<Items<Site>>, EvalError>
    ensures value { IfOk result (λ o. AreSites (IsStep walk.now.layout.now walk.now.interp.now old.now next.now.0 next.now.1) o) }
    ensures wide { Tells (Of (step_met walk.now.layout.now walk.now.interp.now old.now next.now.0 next.now.1)) result }
{
    let choices = next.1.as_slice();
    step_holds(alloc, walk.layout, walk.interp, old, &next.0, choices)
}
