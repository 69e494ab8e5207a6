//! The lines of a design, each with its verdict.

ghost use Rattle.std.specs.Prelude.{◌≡◌, ◌+◌, ◌≤◌, ◌<◌, ◌^◌, length, slice_get, map, IfOk};
ghost use Rattle.uc_flat.specs.Drawn.{listed_if};
ghost use Rattle.uc_flat.specs.Flats.{IsSound};
ghost use Rattle.uc_flat_copies.specs.declared.trace.Start.TheVariants.{Initially, Anywhere};
ghost use Rattle.uc_symstep.specs.Growing.{Grows};
ghost use Rattle.uc_symstep.specs.Known.{ReadsOwnTypes};
ghost use Rattle.uc_ops.specs.Typing.{AllValid};
ghost use Rattle.uc_flat.specs.Traces.{constant_types};
ghost use Rattle.uc_flat_lines.specs.Lines.{speaks_of_one, lines_below, step_lines, AreFlatJudged};
ghost use Rattle.uc_obligations.specs.Unrolling.{IsUnrolled};

use crate::deciding::judge;
use crate::joint::none_refuted;
use crate::line::FlatLine;
use crate::moments::none_refuted_up_to;
use crate::passing::{all_passed, passed_up_to};
use std::alloc::{AllocError, Global};
use uc_flat::Flat;
use uc_flat_copies::Start;
use uc_items::Items;
use uc_log::Meter;
use uc_obligations::{Unrolling, advance, begin};
use uc_terms::Terms;

/// A line for each formula of one copy after 0, 1 and so on up to `depth` steps from an initial state, each within its budget. A line is
/// undecided by its budget only where that is below 2 to its free bits, and for want of memory also where its goal has integers, arrays or
/// functions. There is an error for want of memory, and where there are 2^32 constants, formulas or symbols.
pub fn judge_flat<M: Meter>(
    alloc: Global,
    f: &Flat,
    depth: u32,
    budget: u64,
    meter: &mut M,
) -> Result<Items<FlatLine>, AllocError>
    requires sound { IsSound f.now }
    requires own { ReadsOwnTypes f.now }
    requires valid { AllValid (constant_types f.now) }
    requires some { 1 ≤ budget }
    requires total { M.total meter.old < 2 ^ 126 + 2 ^ 97 }
    ensures judged { IfOk result (AreFlatJudged f.now Initially budget (M.total meter.old) (M.total meter.new) (lines_below f.now (depth + 1))) }
    ensures later { M.total meter.old ≤ M.total meter.new }
{
    let mut terms = Terms::new(alloc)?;
    let lines = judge_up_to(alloc, &mut terms, f, depth, budget, meter)?;
    Ok(lines)
}

/// These lines. All goals are asked at once first, and moment by moment where that does not tell that none is refuted.
fn judge_up_to<M: Meter>(
    alloc: Global,
    terms: &mut Terms,
    f: &Flat,
    depth: u32,
    budget: u64,
    meter: &mut M,
) -> Result<Items<FlatLine>, AllocError>
    requires sound { IsSound f.now }
    requires own { ReadsOwnTypes f.now }
    requires valid { AllValid (constant_types f.now) }
    requires some { 1 ≤ budget }
    requires total { M.total meter.old < 2 ^ 126 + 2 ^ 97 }
    ensures judged { IfOk result (AreFlatJudged f.now Initially budget (M.total meter.old) (M.total meter.new) (lines_below f.now (depth + 1))) }
    ensures later { M.total meter.old ≤ M.total meter.new }
{
    if none_refuted_up_to(alloc, terms, f, depth, budget) {
        let lines = passed_up_to(alloc, f, depth)?;
        return Ok(lines);
    }
    let lines = judge_all(alloc, terms, f, depth, budget, meter)?;
    Ok(lines)
}

/// These lines, moment by moment.
fn judge_all<M: Meter>(
    alloc: Global,
    terms: &mut Terms,
    f: &Flat,
    depth: u32,
    budget: u64,
    meter: &mut M,
) -> Result<Items<FlatLine>, AllocError>
    requires sound { IsSound f.now }
    requires own { ReadsOwnTypes f.now }
    requires valid { AllValid (constant_types f.now) }
    requires some { 1 ≤ budget }
    requires total { M.total meter.old < 2 ^ 126 + 2 ^ 97 }
    ensures judged { IfOk result (AreFlatJudged f.now Initially budget (M.total meter.old) (M.total meter.new) (lines_below f.now (depth + 1))) }
    ensures later { M.total meter.old ≤ M.total meter.new }
{
    let mut run = begin(terms, alloc, f, Start::Initially)?;
    let mut lines = Items::new(alloc);
    for steps in 0..depth {
        let _room = lines.len();
        let more = judge_step(alloc, terms, f, &run, steps, budget, meter)?;
        lines.append(more)?;
        run = advance(terms, alloc, f, steps, run)?;
    }
    let _room = lines.len();
    let last = judge_step(alloc, terms, f, &run, depth, budget, meter)?;
    lines.append(last)?;
    Ok(lines)
}

/// A line for each formula of one copy after `depth` states, linked by steps from any state, in each of which all formulas of one copy
/// hold. Budgets and errors are as in [`judge_flat`].
pub fn judge_linked<M: Meter>(
    alloc: Global,
    f: &Flat,
    depth: u32,
    budget: u64,
    meter: &mut M,
) -> Result<Items<FlatLine>, AllocError>
    requires sound { IsSound f.now }
    requires own { ReadsOwnTypes f.now }
    requires valid { AllValid (constant_types f.now) }
    requires some { 1 ≤ budget }
    requires total { M.total meter.old < 2 ^ 126 + 2 ^ 98 }
    ensures judged { IfOk result (AreFlatJudged f.now Anywhere budget (M.total meter.old) (M.total meter.new) (step_lines f.now depth)) }
    ensures later { M.total meter.old ≤ M.total meter.new }
{
    let mut terms = Terms::new(alloc)?;
    let run = linked(alloc, &mut terms, f, depth)?;
    let lines = judge_step(alloc, &mut terms, f, &run, depth, budget, meter)?;
    Ok(lines)
}

/// So many steps from any state.
fn linked(alloc: Global, terms: &mut Terms, f: &Flat, depth: u32) -> Result<Unrolling, AllocError>
    requires sound { IsSound f.now }
    ensures run { IfOk result (λ u. IsUnrolled f.now terms.new depth u) }
    ensures start { IfOk result (λ u. u.start ≡ Anywhere) }
{
    let mut run = begin(terms, alloc, f, Start::Anywhere)?;
    for steps in 0..depth {
        run = advance(terms, alloc, f, steps, run)?;
    }
    Ok(run)
}

/// The lines after so many steps. Their goals are asked at once first, and one by one where that does not tell that none is refuted.
fn judge_step<M: Meter>(
    alloc: Global,
    terms: &mut Terms,
    f: &Flat,
    run: &Unrolling,
    steps: u32,
    budget: u64,
    meter: &mut M,
) -> Result<Items<FlatLine>, AllocError>
    requires sound { IsSound f.now }
    requires own { ReadsOwnTypes f.now }
    requires valid { AllValid (constant_types f.now) }
    requires unrolled { IsUnrolled f.now terms.old steps run.now }
    requires some { 1 ≤ budget }
    requires total { M.total meter.old < 2 ^ 126 + 2 ^ 98 }
    ensures judged { IfOk result (AreFlatJudged f.now run.now.start budget (M.total meter.old) (M.total meter.new) (step_lines f.now steps)) }
    ensures later { M.total meter.old ≤ M.total meter.new }
    ensures grown { Grows terms.old terms.new }
{
    if none_refuted(alloc, terms, f, run, steps, budget) {
        let lines = all_passed(alloc, f, steps)?;
        return Ok(lines);
    }
    let lines = judge_each(alloc, terms, f, run, steps, budget, meter)?;
    Ok(lines)
}

/// The lines after so many steps, each by a question of its own.
fn judge_each<M: Meter>(
    alloc: Global,
    terms: &mut Terms,
    f: &Flat,
    run: &Unrolling,
    steps: u32,
    budget: u64,
    meter: &mut M,
) -> Result<Items<FlatLine>, AllocError>
    requires sound { IsSound f.now }
    requires own { ReadsOwnTypes f.now }
    requires valid { AllValid (constant_types f.now) }
    requires unrolled { IsUnrolled f.now terms.old steps run.now }
    requires some { 1 ≤ budget }
    requires total { M.total meter.old < 2 ^ 126 + 2 ^ 98 }
    ensures judged { IfOk result (AreFlatJudged f.now run.now.start budget (M.total meter.old) (M.total meter.new) (step_lines f.now steps)) }
    ensures later { M.total meter.old ≤ M.total meter.new }
    ensures grown { Grows terms.old terms.new }
{
    let count = f.formulas.len();
    if count > u32::MAX as usize {
        return Err(AllocError);
    }
    let mut lines = Items::new(alloc);
    for k in 0..count as u32 {
        let _room = lines.len();
        let more = judge_formula(alloc, terms, f, run, steps, k, budget, meter)?;
        lines.append(more)?;
    }
    Ok(lines)
}

/// The line of a formula, where it speaks of one copy.
fn judge_formula<M: Meter>(
    alloc: Global,
    terms: &mut Terms,
    f: &Flat,
    run: &Unrolling,
    steps: u32,
    k: u32,
    budget: u64,
    meter: &mut M,
) -> Result<Items<FlatLine>, AllocError>
    requires sound { IsSound f.now }
    requires own { ReadsOwnTypes f.now }
    requires valid { AllValid (constant_types f.now) }
    requires unrolled { IsUnrolled f.now terms.old steps run.now }
    requires there { k < length f.now.formulas }
    requires some { 1 ≤ budget }
    requires total { M.total meter.old + 2 ^ 32 ≤ 2 ^ 127 }
    ensures judged { IfOk result (AreFlatJudged f.now run.now.start budget (M.total meter.old) (M.total meter.new) (map (λ j. (steps, j)) (listed_if (speaks_of_one (slice_get f.now.formulas k)) k))) }
    ensures later { M.total meter.old ≤ M.total meter.new }
    ensures grown { Grows terms.old terms.new }
{
    let formulas = f.formulas.as_slice();
    if formulas[k as usize].copies != 1 {
        return Ok(Items::new(alloc));
    }
    let verdict = judge(alloc, terms, f, run, steps, k, budget, meter);
    let mut lines = Items::new(alloc);
    lines.push(FlatLine {
        steps,
        formula: k,
        verdict,
    })?;
    Ok(lines)
}
