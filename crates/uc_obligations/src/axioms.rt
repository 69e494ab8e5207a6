//! The terms of the axioms, of what is assumed, and of goals.

ghost use Rattle.std.specs.Prelude.{◌≡◌, ℕ, ◌<◌, not, ◌&&◌, List, [], ◌∷◌, filter, map, length, slice_get, IfOk, Some};
ghost use Rattle.std.specs.List.{list_all};
ghost use Rattle.uc_values.specs.declared.value.Value.TheVariants.{Bool as Truth};
ghost use Rattle.uc_values.specs.declared.ty.Ty.{Ty as AType};
ghost use Rattle.uc_values.specs.declared.ty.Ty.TheVariants.{Bool};
ghost use Rattle.uc_terms.specs.Values.{value};
ghost use Rattle.uc_flat.specs.declared.flat.Formula.{Formula as AFormula};
ghost use Rattle.uc_flat.specs.Flats.{cell_types, IsSound};
ghost use Rattle.uc_flat.specs.Unrolled.{holds_in, axioms_hold};
ghost use Rattle.uc_flat_copies.specs.Lines.{is_supposed, supposed, before_of};
ghost use Rattle.uc_symstep.specs.Growing.{Grows, IsTerm};
ghost use Rattle.uc_symstep.specs.Stands.{holds, IsTruth};
ghost use Rattle.uc_symstep.specs.Unrolled.{IsSeen};
ghost use Rattle.uc_symstep.specs.Known.{IsKnown, KnowsState};
ghost use Rattle.uc_obligations.specs.Unrolling.{AllReadTyped, Tells};

use std::alloc::{AllocError, Global};
use std::slice::from_ref;
use uc_flat::Flat;
use uc_flat_copies::Start;
use uc_symstep::{SymState, both, literal, negated, sym_formula};
use uc_terms::{TermId, Terms};

/// A term that is true where every axiom is.
pub(crate) fn axioms_term(terms: &mut Terms, alloc: Global, f: &Flat) -> Result<TermId, AllocError>
    requires sound { IsSound f.now }
    ensures ok { IfOk result (λ t. IsTerm terms.old terms.new t Bool (λ m. Truth (axioms_hold f.now m))) }
    ensures known { IfOk result (λ t. (supply : List AType) → AllReadTyped supply f.now.formulas → IsKnown supply terms.new t) }
    ensures grown { Grows terms.old terms.new }
{
    let mut all = literal(terms, alloc, true)?;
    for place in 0..f.axioms {
        let one = sym_formula(terms, alloc, f, place, &[])?;
        all = both(terms, alloc, all, one)?;
    }
    Ok(all)
}

/// What is assumed before a state, once more after it: from any state, also that the formulas of one copy hold in the state.
pub(crate) fn more_assumed(
    terms: &mut Terms,
    alloc: Global,
    f: &Flat,
    start: Start,
    assumed: TermId,
    last: &SymState,
) -> Result<TermId, AllocError>
    requires sound { IsSound f.now }
    requires assumed { IsTruth terms.old assumed }
    requires state { IsSeen terms.old (cell_types f.now) last.now }
    ensures ok { IfOk result (λ t. Tells terms.old terms.new t (λ m. holds m terms.old assumed && list_all (λ x. holds_in f.now x m (map (value m terms.old) last.now.cells)) (before_of f.now start 1))) }
    ensures known { IfOk result (λ t. (supply : List AType) (next : ℕ) → AllReadTyped supply f.now.formulas → IsKnown supply terms.old assumed → KnowsState supply terms.old last.now next → IsKnown supply terms.new t) }
    ensures grown { Grows terms.old terms.new }
{
    match start {
        Start::Initially => Ok(assumed),
        Start::Anywhere => {
            let all = all_supposed(terms, alloc, f, assumed, last)?;
            Ok(all)
        }
    }
}

/// What is assumed, and that each formula of one copy holds in the state.
fn all_supposed(
    terms: &mut Terms,
    alloc: Global,
    f: &Flat,
    assumed: TermId,
    last: &SymState,
) -> Result<TermId, AllocError>
    requires sound { IsSound f.now }
    requires assumed { IsTruth terms.old assumed }
    requires state { IsSeen terms.old (cell_types f.now) last.now }
    ensures ok { IfOk result (λ t. Tells terms.old terms.new t (λ m. holds m terms.old assumed && list_all (λ x. holds_in f.now x m (map (value m terms.old) last.now.cells)) (supposed f.now 1))) }
    ensures known { IfOk result (λ t. (supply : List AType) (next : ℕ) → AllReadTyped supply f.now.formulas → IsKnown supply terms.old assumed → KnowsState supply terms.old last.now next → IsKnown supply terms.new t) }
    ensures grown { Grows terms.old terms.new }
{
    let count = f.formulas.len();
    if count > u32::MAX as usize {
        return Err(AllocError);
    }
    let mut all = assumed;
    for place in 0..count as u32 {
        let more = one_supposed(terms, alloc, f, place, all, last)?;
        all = more;
    }
    Ok(all)
}

/// What is assumed, and that formula `k`, where it speaks of one copy, holds in the state.
fn one_supposed(
    terms: &mut Terms,
    alloc: Global,
    f: &Flat,
    k: u32,
    all: TermId,
    last: &SymState,
) -> Result<TermId, AllocError>
    requires sound { IsSound f.now }
    requires there { k < length f.now.formulas }
    requires all { IsTruth terms.old all }
    requires state { IsSeen terms.old (cell_types f.now) last.now }
    ensures ok { IfOk result (λ t. (x : AFormula) → slice_get f.now.formulas k ≡ Some x → Tells terms.old terms.new t (λ m. holds m terms.old all && list_all (λ y. holds_in f.now y m (map (value m terms.old) last.now.cells)) (filter (is_supposed 1) (x ∷ [])))) }
    ensures known { IfOk result (λ t. (supply : List AType) (next : ℕ) → AllReadTyped supply f.now.formulas → IsKnown supply terms.old all → KnowsState supply terms.old last.now next → IsKnown supply terms.new t) }
    ensures grown { Grows terms.old terms.new }
{
    let formulas = f.formulas.as_slice();
    let copies = formulas[k as usize].copies;
    if copies != 1 {
        return Ok(all);
    }
    let one = sym_formula(terms, alloc, f, k, from_ref(last))?;
    let t = both(terms, alloc, all, one)?;
    Ok(t)
}

/// A term that is true where all axioms and assumptions hold and formula `k` is false in the state.
pub(crate) fn refuted_term(
    terms: &mut Terms,
    alloc: Global,
    f: &Flat,
    k: u32,
    axioms: TermId,
    assumed: TermId,
    last: &SymState,
) -> Result<TermId, AllocError>
    requires sound { IsSound f.now }
    requires there { k < length f.now.formulas }
    requires single { (x : AFormula) → slice_get f.now.formulas k ≡ Some x → x.copies ≡ 1 }
    requires axioms { IsTruth terms.old axioms }
    requires assumed { IsTruth terms.old assumed }
    requires state { IsSeen terms.old (cell_types f.now) last.now }
    ensures ok { IfOk result (λ t. (x : AFormula) → slice_get f.now.formulas k ≡ Some x → IsTerm terms.old terms.new t Bool (λ m. Truth (holds m terms.old axioms && (holds m terms.old last.now.path && (holds m terms.old assumed && not (holds_in f.now x m (map (value m terms.old) last.now.cells))))))) }
    ensures known { IfOk result (λ t. (supply : List AType) (next : ℕ) → AllReadTyped supply f.now.formulas → IsKnown supply terms.old axioms → IsKnown supply terms.old assumed → KnowsState supply terms.old last.now next → IsKnown supply terms.new t) }
    ensures grown { Grows terms.old terms.new }
{
    let condition = sym_formula(terms, alloc, f, k, from_ref(last))?;
    let fails = negated(terms, alloc, condition)?;
    let unmet = both(terms, alloc, assumed, fails)?;
    let broken = both(terms, alloc, last.path, unmet)?;
    let all = both(terms, alloc, axioms, broken)?;
    Ok(all)
}
