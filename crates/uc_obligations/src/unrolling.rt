//! The states after 0, 1 and so on steps, over simplified terms.

ghost use Rattle.std.specs.Prelude.{◌≡◌, ℕ, ◌+◌, ◌<◌, List, map, length, slice_index, IfOk, All};
ghost use Rattle.uc_values.specs.declared.ty.Ty.{Ty as AType};
ghost use Rattle.uc_flat.specs.Flats.{cell_types, IsSound};
ghost use Rattle.uc_flat_copies.specs.Places.{begins_at};
ghost use Rattle.uc_symstep.specs.Growing.{Grows};
ghost use Rattle.uc_symstep.specs.Unrolled.{IsSeen, StartsAs};
ghost use Rattle.uc_symstep.specs.Known.{KnowsState, ReadsOwnTypes, supply_from};
ghost use Rattle.uc_obligations.specs.Unrolling.{IsUnrolled, IsSimpler};

use crate::axioms::{axioms_term, more_assumed};
use std::alloc::{AllocError, Global};
use uc_flat::Flat;
use uc_flat_copies::Start;
use uc_items::Items;
use uc_simplify::simplify_from;
use uc_symstep::{Fresh, SymState, literal, sym_any, sym_init, sym_step};
use uc_terms::{TermId, Terms};

/// How the states begin, the terms of the axioms and of what is assumed before the last state, the states so far, and the number of the next symbol.
#[derive(Drop)]
pub struct Unrolling {
    pub start: Start,
    pub axioms: TermId,
    pub assumed: TermId,
    pub states: Items<SymState>,
    pub fresh: Fresh,
}

/// The axioms and the state to begin with. Memory also counts as used up where there are 2^32 constants.
pub fn begin(
    terms: &mut Terms,
    alloc: Global,
    f: &Flat,
    start: Start,
) -> Result<Unrolling, AllocError>
    requires sound { IsSound f.now }
    ensures ok { IfOk result (λ u. IsUnrolled f.now terms.new 0 u) }
    ensures start { IfOk result (λ u. u.start ≡ start) }
    ensures grown { Grows terms.old terms.new }
{
    let first = f.constants.len();
    if first > u32::MAX as usize {
        return Err(AllocError);
    }
    let assumed = literal(terms, alloc, true)?;
    let axioms = axioms_term(terms, alloc, f)?;
    let mut fresh = Fresh { next: first as u32 };
    let before = terms.len();
    let state = first_state(terms, alloc, f, start, &mut fresh)?;
    let state = simpler(terms, alloc, f, before, state)?;
    let mut states = Items::new(alloc);
    states.push(state)?;
    Ok(Unrolling {
        start,
        axioms,
        assumed,
        states,
        fresh,
    })
}

/// The state to begin with: an initial one, or any.
fn first_state(
    terms: &mut Terms,
    alloc: Global,
    f: &Flat,
    start: Start,
    fresh: &mut Fresh,
) -> Result<SymState, AllocError>
    requires sound { IsSound f.now }
    ensures ok { IfOk result (λ s. StartsAs terms.old terms.new (cell_types f.now) (begins_at f.now start fresh.old.next) s fresh.new.next) }
    ensures known { IfOk result (λ s. ReadsOwnTypes f.now → fresh.old.next ≡ length f.now.constants → KnowsState (supply_from f.now start 0) terms.new s fresh.new.next) }
    ensures grown { Grows terms.old terms.new }
{
    match start {
        Start::Initially => {
            let state = sym_init(terms, alloc, f, fresh)?;
            Ok(state)
        }
        Start::Anywhere => {
            let state = sym_any(terms, alloc, f, fresh)?;
            Ok(state)
        }
    }
}

/// One step more, after `steps` steps. Memory also counts as used up where there are 2^32 formulas.
pub fn advance(
    terms: &mut Terms,
    alloc: Global,
    f: &Flat,
    steps: u32,
    run: Unrolling,
) -> Result<Unrolling, AllocError>
    requires sound { IsSound f.now }
    requires unrolled { IsUnrolled f.now terms.old steps run }
    ensures ok { IfOk result (λ u. IsUnrolled f.now terms.new (steps + 1) u) }
    ensures start { IfOk result (λ u. u.start ≡ run.start) }
    ensures grown { Grows terms.old terms.new }
{
    let Unrolling {
        start,
        axioms,
        assumed,
        mut states,
        mut fresh,
    } = run;
    let so_far = states.as_slice();
    let last = &so_far[steps as usize];
    let assumed = more_assumed(terms, alloc, f, start, assumed, last)?;
    let before = terms.len();
    let state = sym_step(terms, alloc, f, last, &mut fresh)?;
    let state = simpler(terms, alloc, f, before, state)?;
    states.push(state)?;
    Ok(Unrolling {
        start,
        axioms,
        assumed,
        states,
        fresh,
    })
}

/// The same state, with its cells and its path condition simplified. Terms numbered below `first` stay as they are.
fn simpler(
    terms: &mut Terms,
    alloc: Global,
    f: &Flat,
    first: u32,
    state: SymState,
) -> Result<SymState, AllocError>
    requires { IsSeen terms.old (cell_types f.now) state }
    ensures ok { IfOk result (λ t. IsSimpler terms.old terms.new (cell_types f.now) state t) }
    ensures known { IfOk result (λ t. (supply : List AType) (next : ℕ) → KnowsState supply terms.old state next → KnowsState supply terms.new t next) }
    ensures grown { Grows terms.old terms.new }
{
    let answers = simplify_from(alloc, terms, first)?;
    let _well = terms.len();
    let SymState {
        cells,
        path,
        sites,
        choices,
    } = state;
    let all = answers.as_slice();
    let path = answer_at(all, path);
    let cells = chosen(alloc, all, cells.as_slice())?;
    Ok(SymState {
        cells,
        path,
        sites,
        choices,
    })
}

/// The answer at the number of a term.
fn answer_at(answers: &[TermId], t: TermId) -> TermId
    requires { t < length answers.now }
    ensures { result ≡ slice_index answers.now t }
{
    answers[t.index()]
}

/// The answers at the numbers of these terms.
fn chosen(alloc: Global, answers: &[TermId], ts: &[TermId]) -> Result<Items<TermId>, AllocError>
    requires { All (λ t. t < length answers.now) ts.now }
    ensures { IfOk result (λ us. us ≡ map (slice_index answers.now) ts.now) }
{
    let mut all = Items::new(alloc);
    for t in ts {
        let answer = answer_at(answers, *t);
        all.push(answer)?;
    }
    Ok(all)
}
