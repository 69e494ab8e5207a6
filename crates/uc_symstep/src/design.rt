//! Initial states, steps and formulas of a design over numbered cells.

ghost use Rattle.std.specs.Prelude.{◌≡◌, ◌<◌, ◌≤◌, ◌++◌, List, map, length, slice_get, IfOk, OnErr, All, Some};
ghost use Rattle.uc_values.specs.declared.ty.Ty.{Ty as AType};
ghost use Rattle.std.specs.List.{flat_map};
ghost use Rattle.uc_values.specs.declared.ty.Ty.TheVariants.{Bool};
ghost use Rattle.uc_terms.specs.Values.{value};
ghost use Rattle.uc_flat.specs.declared.flat.Formula.{Formula as AFormula};
ghost use Rattle.uc_flat.specs.Flats.{cell_types, init_types, repeated, IsSound, IsFormula};
ghost use Rattle.uc_flat.specs.Unrolled.{initial, after_step, formula_in};
ghost use Rattle.uc_flat.specs.Fine.{ReadsTyped};
ghost use Rattle.uc_flat_copies.specs.declared.trace.Start.TheVariants.{Initially, Anywhere};
ghost use Rattle.uc_flat_copies.specs.Places.{loose};
ghost use Rattle.uc_symstep.specs.Growing.{Grows, IsTerm, AreCells};
ghost use Rattle.uc_symstep.specs.Unrolled.{IsSeen, StartsAs, StepsAs};
ghost use Rattle.uc_symstep.specs.Designs.{IsInitialWhereTaken, HasEachInitial, IsStepWhereTaken, HasEachStep};
ghost use Rattle.uc_symstep.specs.Known.{IsKnown, CodeReadsTyped, draw_types, constants_typed, step_types, supply_from, KnowsState};

use crate::formula::sym_expression;
use crate::state::{Fresh, SymState, Symbolic};
use crate::unroll::{begin, start, step_on};
use std::alloc::{AllocError, Global};
use uc_flat::{Flat, Formula, repeat_types, twice_types, types_of_cells};
use uc_items::Items;
use uc_terms::{TermId, Terms};
use uc_values::Ty;

/// The state after the init code of a design, with the number of the next symbol.
pub(crate) fn start_of(
    terms: &mut Terms,
    alloc: Global,
    f: &Flat,
    types: &[Ty],
    next: u32,
) -> Result<(SymState, u32), AllocError>
    requires sound { IsSound f.now }
    requires types { types.now ≡ cell_types f.now }
    ensures ok { IfOk result (λ r. StartsAs terms.old terms.new (cell_types f.now) (initial f.now next) r.0 r.1) }
    ensures known { IfOk result (λ r. (supply : List AType) → All (ReadsTyped supply) f.now.further → CodeReadsTyped supply f.now.init → next ≡ length supply → KnowsState ((supply ++ cell_types f.now) ++ draw_types (init_types f.now) f.now.init) terms.new r.0 r.1) }
    ensures grown { Grows terms.old terms.new }
{
    let further = f.further.as_slice();
    let started = start(terms, alloc, types, further, f.init.as_slice(), next)?;
    Ok(started)
}

/// The state after a step of a design, with the number of the next symbol.
pub(crate) fn step_of(
    terms: &mut Terms,
    alloc: Global,
    f: &Flat,
    types: &[Ty],
    both_types: &[Ty],
    pre: &SymState,
    next: u32,
) -> Result<(SymState, u32), AllocError>
    requires sound { IsSound f.now }
    requires types { types.now ≡ cell_types f.now }
    requires both { both_types.now ≡ types.now ++ types.now }
    requires state { IsSeen terms.old (cell_types f.now) pre.now }
    ensures ok { IfOk result (λ r. StepsAs terms.old terms.new (cell_types f.now) (after_step f.now) pre.now next r.0 r.1) }
    ensures known { IfOk result (λ r. (supply : List AType) → CodeReadsTyped supply f.now.step → KnowsState supply terms.old pre.now next → KnowsState (supply ++ step_types f.now) terms.new r.0 r.1) }
    ensures grown { Grows terms.old terms.new }
{
    let stepped = step_on(
        terms,
        alloc,
        types,
        both_types,
        pre,
        f.step.as_slice(),
        next,
    )?;
    Ok(stepped)
}

/// The initial state of a design: each free value is a new symbol, from `fresh` on.
pub fn sym_init(
    terms: &mut Terms,
    alloc: Global,
    f: &Flat,
    fresh: &mut Fresh,
) -> Result<SymState, AllocError>
    requires sound { IsSound f.now }
    ensures ok { IfOk result (λ s. StartsAs terms.old terms.new (cell_types f.now) (initial f.now fresh.old.next) s fresh.new.next) }
    ensures initial { IfOk result (λ s. IsInitialWhereTaken f.now terms.new s) }
    ensures each { IfOk result (λ s. HasEachInitial f.now fresh.old.next terms.new s) }
    ensures known { IfOk result (λ s. All (ReadsTyped (constants_typed f.now)) f.now.further → CodeReadsTyped (constants_typed f.now) f.now.init → fresh.old.next ≡ length f.now.constants → KnowsState (supply_from f.now Initially 0) terms.new s fresh.new.next) }
    ensures grown { Grows terms.old terms.new }
    ensures err { OnErr result (fresh.new ≡ fresh.old) }
{
    let types = types_of_cells(alloc, f)?;
    let (state, next) = start_of(terms, alloc, f, types.as_slice(), fresh.next)?;
    fresh.next = next;
    Ok(state)
}

/// Any state of a design: each cell is a new symbol, from `fresh` on.
pub fn sym_any(
    terms: &mut Terms,
    alloc: Global,
    f: &Flat,
    fresh: &mut Fresh,
) -> Result<SymState, AllocError>
    requires sound { IsSound f.now }
    ensures ok { IfOk result (λ s. StartsAs terms.old terms.new (cell_types f.now) (loose f.now fresh.old.next) s fresh.new.next) }
    ensures known { IfOk result (λ s. fresh.old.next ≡ length f.now.constants → KnowsState (supply_from f.now Anywhere 0) terms.new s fresh.new.next) }
    ensures grown { Grows terms.old terms.new }
    ensures err { OnErr result (fresh.new ≡ fresh.old) }
{
    let types = types_of_cells(alloc, f)?;
    let first = begin(terms, alloc, types.as_slice(), fresh.next)?;
    let Symbolic {
        cells,
        path,
        taken: _,
        choices: _,
        sites,
        next,
    } = first;
    fresh.next = next;
    Ok(SymState {
        cells,
        path,
        sites,
        choices: Items::new(alloc),
    })
}

/// The state after a step of a design: each free value is a new symbol, from `fresh` on.
pub fn sym_step(
    terms: &mut Terms,
    alloc: Global,
    f: &Flat,
    pre: &SymState,
    fresh: &mut Fresh,
) -> Result<SymState, AllocError>
    requires sound { IsSound f.now }
    requires state { IsSeen terms.old (cell_types f.now) pre.now }
    ensures ok { IfOk result (λ s. StepsAs terms.old terms.new (cell_types f.now) (after_step f.now) pre.now fresh.old.next s fresh.new.next) }
    ensures step { IfOk result (λ s. IsStepWhereTaken f.now terms.old pre.now terms.new s) }
    ensures each { IfOk result (λ s. HasEachStep f.now fresh.old.next terms.old pre.now terms.new s) }
    ensures known { IfOk result (λ s. (supply : List AType) → CodeReadsTyped supply f.now.step → KnowsState supply terms.old pre.now fresh.old.next → KnowsState (supply ++ step_types f.now) terms.new s fresh.new.next) }
    ensures grown { Grows terms.old terms.new }
    ensures err { OnErr result (fresh.new ≡ fresh.old) }
{
    let _terms = terms.len();
    let types = types_of_cells(alloc, f)?;
    let both_types = twice_types(alloc, types.as_slice())?;
    let (state, next) = step_of(
        terms,
        alloc,
        f,
        types.as_slice(),
        both_types.as_slice(),
        pre,
        fresh.next,
    )?;
    fresh.next = next;
    Ok(state)
}

/// The cells of all states, one state after another.
fn all_cells(alloc: Global, states: &[SymState]) -> Result<Items<TermId>, AllocError>
    ensures { IfOk result (λ ts. ts ≡ flat_map (λ s. s.cells) states.now) }
{
    let mut cells = Items::new(alloc);
    for state in states {
        let copy = Items::from_slice(alloc, state.cells.as_slice())?;
        cells.append(copy)?;
    }
    Ok(cells)
}

/// A term of a formula, in the cells of its copies.
pub(crate) fn formula_term(
    terms: &mut Terms,
    alloc: Global,
    f: &Flat,
    types: &[Ty],
    x: &Formula,
    cells: &[TermId],
) -> Result<TermId, AllocError>
    requires formula { IsFormula f.now x.now }
    requires types { types.now ≡ cell_types f.now }
    requires cells { AreCells terms.old (repeated x.now.copies (cell_types f.now)) cells.now }
    ensures ok { IfOk result (λ t. IsTerm terms.old terms.new t Bool (λ m. formula_in f.now x.now m (map (value m terms.old) cells.now))) }
    ensures known { IfOk result (λ t. (supply : List AType) → ReadsTyped supply x.now.condition → All (IsKnown supply terms.old) cells.now → IsKnown supply terms.new t) }
    ensures grown { Grows terms.old terms.new }
{
    let all = repeat_types(alloc, types, x.copies)?;
    let t = sym_expression(terms, alloc, all.as_slice(), cells, &x.condition)?;
    Ok(t)
}

/// A term of formula `k` in these states, one for each of its copies. An axiom has none.
pub fn sym_formula(
    terms: &mut Terms,
    alloc: Global,
    f: &Flat,
    k: u32,
    states: &[SymState],
) -> Result<TermId, AllocError>
    requires sound { IsSound f.now }
    requires there { k < length f.now.formulas }
    requires states { All (IsSeen terms.old (cell_types f.now)) states.now }
    requires copies { (x : AFormula) → slice_get f.now.formulas k ≡ Some x → x.copies ≡ length states.now }
    ensures ok { IfOk result (λ t. (x : AFormula) → slice_get f.now.formulas k ≡ Some x → IsTerm terms.old terms.new t Bool (λ m. formula_in f.now x m (map (value m terms.old) (flat_map (λ s. s.cells) states.now)))) }
    ensures known { IfOk result (λ t. (supply : List AType) (x : AFormula) → slice_get f.now.formulas k ≡ Some x → ReadsTyped supply x.condition → All (λ s. All (IsKnown supply terms.old) s.cells) states.now → IsKnown supply terms.new t) }
    ensures grown { Grows terms.old terms.new }
{
    let types = types_of_cells(alloc, f)?;
    let cells = all_cells(alloc, states)?;
    let formulas = f.formulas.as_slice();
    let t = formula_term(
        terms,
        alloc,
        f,
        types.as_slice(),
        &formulas[k as usize],
        cells.as_slice(),
    )?;
    Ok(t)
}
