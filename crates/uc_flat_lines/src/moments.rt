//! The goals of all moments asked at once.

ghost use Rattle.std.specs.Prelude.{◌≡◌, ℕ, ◌≤◌, true, IfOk};
ghost use Rattle.uc_flat.specs.Flats.{IsSound};
ghost use Rattle.uc_flat_copies.specs.declared.trace.Start.TheVariants.{Initially};
ghost use Rattle.uc_symstep.specs.Stands.{IsTruth};
ghost use Rattle.uc_symstep.specs.Known.{ReadsOwnTypes};
ghost use Rattle.uc_flat_lines.specs.Deciding.{IsKnownBySome};
ghost use Rattle.uc_flat_lines.specs.Joint.{AreUnrefuted, AreHit};

use crate::joint::{has_no_model, without_goals};
use std::alloc::{AllocError, Global};
use uc_flat::Flat;
use uc_flat_copies::Start;
use uc_obligations::{advance, begin};
use uc_symstep::{literal, negated};
use uc_terms::{TermId, Terms};

/// Whether it is found that no trace from an initial state refutes a formula after 0, 1 and so on up to `depth` steps. All goals are one
/// question, on a meter of its own. It is not found for no steps, where a formula is refuted, where the question is given up, and for want of
/// memory.
pub(crate) fn none_refuted_up_to(
    alloc: Global,
    terms: &mut Terms,
    f: &Flat,
    depth: u32,
    budget: u64,
) -> bool
    requires sound { IsSound f.now }
    requires own { ReadsOwnTypes f.now }
    requires some { 1 ≤ budget }
    ensures { result ≡ true → (n : ℕ) → n ≤ depth → AreUnrefuted f.now Initially n }
{
    if depth == 0 {
        return false;
    }
    match joint_goal_up_to(alloc, terms, f, depth) {
        Ok(any) => has_no_model(alloc, terms, any, budget),
        Err(_) => false,
    }
}

/// A term that is true where a goal of one of these moments is.
fn joint_goal_up_to(
    alloc: Global,
    terms: &mut Terms,
    f: &Flat,
    depth: u32,
) -> Result<TermId, AllocError>
    requires sound { IsSound f.now }
    ensures truth { IfOk result (IsTruth terms.new) }
    ensures hit { IfOk result (λ t. (n : ℕ) → n ≤ depth → AreHit f.now Initially n terms.new t) }
    ensures known { IfOk result (λ t. ReadsOwnTypes f.now → IsKnownBySome terms.new t) }
{
    let mut run = begin(terms, alloc, f, Start::Initially)?;
    let all = literal(terms, alloc, true)?;
    let mut none = all;
    for steps in 0..depth {
        let more = without_goals(alloc, terms, f, &run, steps, none)?;
        none = more;
        run = advance(terms, alloc, f, steps, run)?;
    }
    let last = without_goals(alloc, terms, f, &run, depth, none)?;
    let any = negated(terms, alloc, last)?;
    Ok(any)
}
