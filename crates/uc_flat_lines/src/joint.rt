//! Many goals asked at once.

ghost use Rattle.std.specs.Prelude.{◌≡◌, ◌≤◌, ◌<◌, true, length, None, Ok, IfOk};
ghost use Rattle.uc_values.specs.declared.ty.Ty.TheVariants.{Bool};
ghost use Rattle.uc_ops.specs.Typing.{type_at};
ghost use Rattle.uc_flat.specs.Flats.{IsSound};
ghost use Rattle.uc_symstep.specs.Growing.{Grows};
ghost use Rattle.uc_symstep.specs.Stands.{IsTruth};
ghost use Rattle.uc_symstep.specs.Known.{IsKnown, ReadsOwnTypes, supply_from};
ghost use Rattle.uc_obligations.specs.Unrolling.{IsUnrolled};
ghost use Rattle.uc_flat_lines.specs.Deciding.{IsKnownBySome, IsSolution};
ghost use Rattle.uc_flat_lines.specs.Joint.{AreUnrefuted, AreHit, AreMissed, IsMissed, FalseToo};

use crate::line::FlatWhy;
use crate::solving::solution;
use std::alloc::{AllocError, Global};
use uc_flat::Flat;
use uc_log::CountMeter;
use uc_obligations::{Unrolling, goal};
use uc_symstep::{both, literal, negated};
use uc_terms::{Model, TermId, Terms};

/// The most entries of a question for many goals. Beyond them each goal is asked by itself.
const MOST: u64 = 16384;

/// Whether it is found that no trace refutes a formula after so many steps. All goals are one question, on a meter of its own. It is not found
/// where there are fewer than two formulas, where one is refuted, where the question is given up, and for want of memory.
pub(crate) fn none_refuted(
    alloc: Global,
    terms: &mut Terms,
    f: &Flat,
    run: &Unrolling,
    steps: u32,
    budget: u64,
) -> bool
    requires sound { IsSound f.now }
    requires own { ReadsOwnTypes f.now }
    requires unrolled { IsUnrolled f.now terms.old steps run.now }
    requires some { 1 ≤ budget }
    ensures unrefuted { result ≡ true → AreUnrefuted f.now run.now.start steps }
    ensures grown { Grows terms.old terms.new }
{
    if f.formulas.len() < 2 {
        return false;
    }
    match joint_goal(alloc, terms, f, run, steps) {
        Ok(any) => has_no_model(alloc, terms, any, budget),
        Err(_) => false,
    }
}

/// A term that is true where the goal of a formula is.
fn joint_goal(
    alloc: Global,
    terms: &mut Terms,
    f: &Flat,
    run: &Unrolling,
    steps: u32,
) -> Result<TermId, AllocError>
    requires sound { IsSound f.now }
    requires unrolled { IsUnrolled f.now terms.old steps run.now }
    ensures truth { IfOk result (IsTruth terms.new) }
    ensures hit { IfOk result (AreHit f.now run.now.start steps terms.new) }
    ensures known { IfOk result (λ t. ReadsOwnTypes f.now → IsKnown (supply_from f.now run.now.start steps) terms.new t) }
    ensures grown { Grows terms.old terms.new }
{
    let all = literal(terms, alloc, true)?;
    let none = without_goals(alloc, terms, f, run, steps, all)?;
    let any = negated(terms, alloc, none)?;
    Ok(any)
}

/// A term that is true where the given one is and no goal of a formula is.
pub(crate) fn without_goals(
    alloc: Global,
    terms: &mut Terms,
    f: &Flat,
    run: &Unrolling,
    steps: u32,
    given: TermId,
) -> Result<TermId, AllocError>
    requires sound { IsSound f.now }
    requires unrolled { IsUnrolled f.now terms.old steps run.now }
    requires given { IsTruth terms.old given }
    ensures truth { IfOk result (IsTruth terms.new) }
    ensures kept { IfOk result (FalseToo terms.old given terms.new) }
    ensures missed { IfOk result (AreMissed f.now run.now.start steps terms.new) }
    ensures known { IfOk result (λ t. ReadsOwnTypes f.now → IsKnown (supply_from f.now run.now.start steps) terms.old given → IsKnown (supply_from f.now run.now.start steps) terms.new t) }
    ensures grown { Grows terms.old terms.new }
{
    let count = f.formulas.len();
    if count > u32::MAX as usize {
        return Err(AllocError);
    }
    let mut none = given;
    for k in 0..count as u32 {
        let more = without_goal(alloc, terms, f, run, steps, k, none)?;
        none = more;
    }
    Ok(none)
}

/// A term that is true where the given one is and the goal of formula `k` is not, if it speaks of one copy.
fn without_goal(
    alloc: Global,
    terms: &mut Terms,
    f: &Flat,
    run: &Unrolling,
    steps: u32,
    k: u32,
    given: TermId,
) -> Result<TermId, AllocError>
    requires sound { IsSound f.now }
    requires unrolled { IsUnrolled f.now terms.old steps run.now }
    requires there { k < length f.now.formulas }
    requires given { IsTruth terms.old given }
    ensures truth { IfOk result (IsTruth terms.new) }
    ensures kept { IfOk result (FalseToo terms.old given terms.new) }
    ensures missed { IfOk result (λ t. IsMissed f.now run.now.start steps terms.new t k) }
    ensures known { IfOk result (λ t. ReadsOwnTypes f.now → IsKnown (supply_from f.now run.now.start steps) terms.old given → IsKnown (supply_from f.now run.now.start steps) terms.new t) }
    ensures grown { Grows terms.old terms.new }
{
    let formulas = f.formulas.as_slice();
    if formulas[k as usize].copies != 1 {
        return Ok(given);
    }
    let own = goal(terms, alloc, f, run, steps, k)?;
    let holds = negated(terms, alloc, own)?;
    let all = both(terms, alloc, given, holds)?;
    Ok(all)
}

/// Whether it is found that no model makes a goal true.
pub(crate) fn has_no_model(alloc: Global, terms: &Terms, goal: TermId, budget: u64) -> bool
    requires there { goal < length terms.now }
    requires boolean { type_at terms.now goal ≡ Bool }
    requires known { IsKnownBySome terms.now goal }
    requires some { 1 ≤ budget }
    ensures { result ≡ true → IsSolution terms.now goal None }
{
    let mut meter = CountMeter::new();
    let found = solution(alloc, terms, goal, at_most(budget), &mut meter);
    is_none(found)
}

/// The budget, where it is not above the most.
fn at_most(budget: u64) -> u64
    requires { 1 ≤ budget }
    ensures { 1 ≤ result }
{
    if budget < MOST { budget } else { MOST }
}

fn is_none(found: Result<Option<Model>, FlatWhy>) -> bool
    ensures { result ≡ true → found ≡ Ok None }
{
    match found {
        Ok(None) => true,
        Ok(Some(_)) | Err(_) => false,
    }
}
