//! Goals, and the traces that their models tell.

ghost use Rattle.std.specs.Prelude.{◌≡◌, ◌<◌, length, slice_get, IfOk, Some};
ghost use Rattle.uc_flat.specs.declared.flat.Formula.{Formula as AFormula};
ghost use Rattle.uc_flat.specs.Flats.{IsSound};
ghost use Rattle.uc_symstep.specs.Growing.{Grows};
ghost use Rattle.uc_symstep.specs.Stands.{IsTruth};
ghost use Rattle.uc_symstep.specs.Known.{IsKnown, ReadsOwnTypes, supply_from};
ghost use Rattle.uc_obligations.specs.Unrolling.{IsUnrolled};
ghost use Rattle.uc_linear.specs.Exact.{OnWide};
ghost use Rattle.uc_obligations.specs.Goals.{IsGoal, IsObligation, IsTold};
ghost use Rattle.uc_obligations.specs.Reading.{MeetsIn};

use crate::axioms::refuted_term;
use crate::reading::trace_of;
use crate::unrolling::Unrolling;
use std::alloc::{AllocError, Global};
use uc_flat::Flat;
use uc_flat_copies::FlatCopies;
use uc_linear::LinearError;
use uc_terms::{Model, TermId, Terms};

/// The goal of formula `k`, which speaks of one copy, after so many steps: a term whose models are the traces that refute it from such a start.
pub fn goal(
    terms: &mut Terms,
    alloc: Global,
    f: &Flat,
    run: &Unrolling,
    steps: u32,
    k: u32,
) -> Result<TermId, AllocError>
    requires sound { IsSound f.now }
    requires unrolled { IsUnrolled f.now terms.old steps run.now }
    requires there { k < length f.now.formulas }
    requires single { (x : AFormula) → slice_get f.now.formulas k ≡ Some x → x.copies ≡ 1 }
    ensures truth { IfOk result (IsTruth terms.new) }
    ensures goal { IfOk result (λ t. (x : AFormula) → slice_get f.now.formulas k ≡ Some x → IsGoal f.now run.now.start x steps terms.new t) }
    ensures traces { IfOk result (λ t. (x : AFormula) → slice_get f.now.formulas k ≡ Some x → IsObligation f.now run.now.start x steps terms.new t) }
    ensures known { IfOk result (λ t. ReadsOwnTypes f.now → IsKnown (supply_from f.now run.now.start steps) terms.new t) }
    ensures grown { Grows terms.old terms.new }
{
    let states = run.states.as_slice();
    let t = refuted_term(
        terms,
        alloc,
        f,
        k,
        run.axioms,
        run.assumed,
        &states[steps as usize],
    )?;
    Ok(t)
}

/// The trace that a model of a goal after so many steps tells. There is none where the goal is false once each constant that does not fit its
/// type has the value that counts as 0, or where that value does not fit, as can be of a type that is not valid. For a model of the goal of a
/// design with valid types that reads each constant at its own type there always is one. An operation on whole numbers that leaves 128 bits
/// is answered as it is.
pub fn build(
    alloc: Global,
    terms: &Terms,
    f: &Flat,
    run: &Unrolling,
    steps: u32,
    goal: TermId,
    model: Model,
) -> Result<Option<FlatCopies>, LinearError>
    requires sound { IsSound f.now }
    requires unrolled { IsUnrolled f.now terms.now steps run.now }
    requires there { goal < length terms.now }
    ensures told { IfOk result (IsTold f.now run.now.start steps terms.now goal model) }
    ensures wide { OnWide result (MeetsIn f.now terms.now model) }
{
    let states = run.states.as_slice();
    let told = trace_of(alloc, terms, f, goal, states, model)?;
    Ok(told)
}
