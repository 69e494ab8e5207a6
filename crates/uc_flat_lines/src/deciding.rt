//! Whether a trace refutes a formula after so many steps.

ghost use Rattle.std.specs.Prelude.{◌≡◌, ◌+◌, ◌≤◌, ◌<◌, ◌^◌, length, slice_get, Some, IfOk, IfErr};
ghost use Rattle.uc_flat.specs.declared.flat.Formula.{Formula as AFormula};
ghost use Rattle.uc_flat.specs.Flats.{IsSound};
ghost use Rattle.uc_symstep.specs.Growing.{Grows};
ghost use Rattle.uc_symstep.specs.Known.{ReadsOwnTypes};
ghost use Rattle.uc_ops.specs.Typing.{AllValid};
ghost use Rattle.uc_flat.specs.Traces.{constant_types};
ghost use Rattle.uc_flat_lines.specs.Lines.{IsFlatVerdict, IsHonestVerdict};
ghost use Rattle.uc_obligations.specs.Unrolling.{IsUnrolled};
ghost use Rattle.uc_flat_lines.specs.Deciding.{IsOutcome, IsSpentFor, IsSpentOn, IsHonestAfter, IsOpenedAfter, IsOpenedOn, verdict_of};

use crate::line::{FlatVerdict, FlatWhy};
use crate::solving::solution;
use std::alloc::Global;
use uc_flat::Flat;
use uc_flat_copies::FlatCopies;
use uc_log::Meter;
use uc_obligations::{Unrolling, build, goal};
use uc_terms::Terms;

/// The verdict on formula `k`, which speaks of one copy, after so many steps. Where it is undecided by its budget, that was spent on the
/// problem that is open at the meter, which stands for the formula's goal in a table of its own.
pub fn judge<M: Meter>(
    alloc: Global,
    terms: &mut Terms,
    f: &Flat,
    run: &Unrolling,
    steps: u32,
    k: u32,
    budget: u64,
    meter: &mut M,
) -> FlatVerdict
    requires sound { IsSound f.now }
    requires unrolled { IsUnrolled f.now terms.old steps run.now }
    requires there { k < length f.now.formulas }
    requires single { (x : AFormula) → slice_get f.now.formulas k ≡ Some x → x.copies ≡ 1 }
    requires own { ReadsOwnTypes f.now }
    requires valid { AllValid (constant_types f.now) }
    requires some { 1 ≤ budget }
    requires total { M.total meter.old + 2 ^ 32 ≤ 2 ^ 127 }
    ensures right { (x : AFormula) → slice_get f.now.formulas k ≡ Some x → IsFlatVerdict f.now run.now.start x steps result }
    ensures spent { IsSpentOn budget (M.total meter.old) (M.total meter.new) result }
    ensures honest { IsHonestVerdict f.now run.now.start budget steps result }
    ensures opened { IsOpenedOn f.now run.now.start k steps (M.opened meter.new) (M.here meter.new) budget result }
    ensures few { M.total meter.new ≤ M.total meter.old + 2 ^ 32 }
    ensures within { M.total meter.new ≤ M.total meter.old + budget }
    ensures grown { Grows terms.old terms.new }
{
    let outcome = refutation(alloc, terms, f, run, steps, k, budget, meter);
    verdict_of(outcome)
}

/// The verdict where a trace refutes the formula, where none does, and where neither is known.
fn verdict_of(outcome: Result<Option<FlatCopies>, FlatWhy>) -> FlatVerdict
    ensures { result ≡ verdict_of outcome }
{
    match outcome {
        Ok(Some(trace)) => FlatVerdict::Failed(trace),
        Ok(None) => FlatVerdict::Passed,
        Err(why) => FlatVerdict::Undef(why),
    }
}

/// A trace that refutes the formula, or none where there is none.
fn refutation<M: Meter>(
    alloc: Global,
    terms: &mut Terms,
    f: &Flat,
    run: &Unrolling,
    steps: u32,
    k: u32,
    budget: u64,
    meter: &mut M,
) -> Result<Option<FlatCopies>, FlatWhy>
    requires sound { IsSound f.now }
    requires unrolled { IsUnrolled f.now terms.old steps run.now }
    requires there { k < length f.now.formulas }
    requires single { (x : AFormula) → slice_get f.now.formulas k ≡ Some x → x.copies ≡ 1 }
    requires own { ReadsOwnTypes f.now }
    requires valid { AllValid (constant_types f.now) }
    requires some { 1 ≤ budget }
    requires total { M.total meter.old + 2 ^ 32 ≤ 2 ^ 127 }
    ensures outcome { IfOk result (λ o. (x : AFormula) → slice_get f.now.formulas k ≡ Some x → IsOutcome f.now run.now.start x steps o) }
    ensures cause { IfErr result (IsSpentFor budget (M.total meter.old) (M.total meter.new)) }
    ensures honest { IfErr result (IsHonestAfter f.now run.now.start budget steps) }
    ensures opened { IfErr result (IsOpenedAfter f.now run.now.start k steps (M.opened meter.new) (M.here meter.new) budget) }
    ensures later { M.total meter.old ≤ M.total meter.new }
    ensures few { M.total meter.new ≤ M.total meter.old + 2 ^ 32 }
    ensures within { M.total meter.new ≤ M.total meter.old + budget }
    ensures grown { Grows terms.old terms.new }
{
    let goal = goal(terms, alloc, f, run, steps, k)?;
    match solution(alloc, terms, goal, budget, meter)? {
        None => Ok(None),
        Some(model) => match build(alloc, terms, f, run, steps, goal, model)? {
            Some(trace) => Ok(Some(trace)),
            None => unreachable!(),
        },
    }
}
