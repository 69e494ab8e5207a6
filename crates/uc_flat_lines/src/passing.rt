//! Lines that passed.

ghost use Rattle.std.specs.Prelude.{ℕ, ◌+◌, ◌<◌, ◌≤◌, length, slice_get, map, IfOk};
ghost use Rattle.uc_flat.specs.Drawn.{listed_if};
ghost use Rattle.uc_flat_copies.specs.declared.trace.Start.{Start as AStart};
ghost use Rattle.uc_flat_lines.specs.Lines.{speaks_of_one, lines_below, step_lines, AreFlatJudged};
ghost use Rattle.uc_flat_lines.specs.Joint.{AreUnrefuted, IsUnrefuted};

use crate::line::{FlatLine, FlatVerdict};
use std::alloc::{AllocError, Global};
use uc_flat::Flat;
use uc_items::Items;

/// The lines from an initial state after 0, 1 and so on up to `depth` steps, where no trace refutes a formula.
pub(crate) fn passed_up_to(
    alloc: Global,
    f: &Flat,
    depth: u32,
) -> Result<Items<FlatLine>, AllocError>
    ensures { IfOk result (λ ls. (start : AStart) → ((n : ℕ) → n ≤ depth → AreUnrefuted f.now start n) → (budget at : ℕ) → AreFlatJudged f.now start budget at at (lines_below f.now (depth + 1)) ls) }
{
    let mut lines = Items::new(alloc);
    for steps in 0..depth {
        let _room = lines.len();
        let more = all_passed(alloc, f, steps)?;
        lines.append(more)?;
    }
    let _room = lines.len();
    let last = all_passed(alloc, f, depth)?;
    lines.append(last)?;
    Ok(lines)
}

/// The lines after so many steps, where no trace refutes a formula.
pub(crate) fn all_passed(alloc: Global, f: &Flat, steps: u32) -> Result<Items<FlatLine>, AllocError>
    ensures { IfOk result (λ ls. (start : AStart) → AreUnrefuted f.now start steps → (budget at : ℕ) → AreFlatJudged f.now start budget at at (step_lines f.now steps) ls) }
{
    let count = f.formulas.len();
    if count > u32::MAX as usize {
        return Err(AllocError);
    }
    let mut lines = Items::new(alloc);
    for k in 0..count as u32 {
        let _room = lines.len();
        let more = passed(alloc, f, steps, k)?;
        lines.append(more)?;
    }
    Ok(lines)
}

/// The line of a formula that no trace refutes, where it speaks of one copy.
fn passed(alloc: Global, f: &Flat, steps: u32, k: u32) -> Result<Items<FlatLine>, AllocError>
    requires { k < length f.now.formulas }
    ensures { IfOk result (λ ls. (start : AStart) → IsUnrefuted f.now start steps k → (budget at : ℕ) → AreFlatJudged f.now start budget at at (map (λ j. (steps, j)) (listed_if (speaks_of_one (slice_get f.now.formulas k)) k)) ls) }
{
    let formulas = f.formulas.as_slice();
    if formulas[k as usize].copies != 1 {
        return Ok(Items::new(alloc));
    }
    let mut lines = Items::new(alloc);
    lines.push(FlatLine {
        steps,
        formula: k,
        verdict: FlatVerdict::Passed,
    })?;
    Ok(lines)
}
