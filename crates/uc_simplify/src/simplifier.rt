//! The walk over the terms below a term.

ghost use Rattle.std.specs.Prelude.{◌≡◌, ℕ, ◌<◌, length, map, slice_index, IfOk, All};
ghost use Rattle.uc_ops.specs.Typing.{type_at};
ghost use Rattle.uc_terms.specs.Tables.{WellTyped};
ghost use Rattle.uc_terms.specs.Subterms.{EvenlyTyped};
ghost use Rattle.uc_terms.specs.Laws.{KeepsValues, SameUnderEveryModel};
ghost use Rattle.uc_simplify_steps.specs.Features.{BringsNoMore};
ghost use Rattle.uc_simplify.specs.Simplified.{Grows, StandsFor};
ghost use Rattle.uc_simplify.specs.Walking.{PartsAnswered, AllAnswered};

use crate::rebuild::rebuild;
use std::alloc::{AllocError, Global};
use uc_ops::copy_op;
use uc_terms::{TermId, Terms, subterms};

/// A term that is equal under every model. Takes a step for each number up to the term's, in their order.
pub fn simplify(alloc: Global, terms: &mut Terms, t: TermId) -> Result<TermId, AllocError>
    requires { t < length terms.old }
    ensures there { IfOk result (λ r. r < length terms.new) }
    ensures same { IfOk result (λ r. SameUnderEveryModel terms.new r terms.old t) }
    ensures ty { IfOk result (λ r. type_at terms.new r ≡ type_at terms.old t) }
    ensures features { IfOk result (λ r. BringsNoMore terms.new r terms.old t) }
    ensures evenly { IfOk result (λ r. EvenlyTyped terms.old t → EvenlyTyped terms.new r) }
    ensures grown { Grows terms.old terms.new }
    ensures kept { KeepsValues terms.old terms.new }
{
    let answer = standing(alloc, terms, t)?;
    Ok(answer)
}

/// The same, from the walk.
fn standing(alloc: Global, terms: &mut Terms, t: TermId) -> Result<TermId, AllocError>
    requires { t < length terms.old }
    ensures stands { IfOk result (λ r. StandsFor terms.new r terms.old t) }
    ensures grown { Grows terms.old terms.new }
{
    let marks = subterms(alloc, terms, &[t])?;
    let mut answers: Vec<TermId> = Vec::new(alloc);
    let _count = terms.len();
    for place in 0..marks.len() {
        if marks[place] {
            answers.push(simplified(alloc, terms, place, &answers)?)?;
        } else {
            answers.push(t)?;
        }
    }
    Ok(answers[t.index()])
}

/// For each term of the table, by its number, one that is equal under every model. Those numbered below `first` stand for themselves. Takes a
/// step for each term of the table; those below `first` are only copied.
pub fn simplify_from(
    alloc: Global,
    terms: &mut Terms,
    first: u32,
) -> Result<Vec<TermId>, AllocError>
    ensures answers { IfOk result (λ all. AllAnswered terms.old terms.new all.items (length terms.old)) }
    ensures grown { Grows terms.old terms.new }
    ensures kept { KeepsValues terms.old terms.new }
{
    let all = all_standing(alloc, terms, first)?;
    Ok(all)
}

/// The same, from the walk.
fn all_standing(alloc: Global, terms: &mut Terms, first: u32) -> Result<Vec<TermId>, AllocError>
    ensures answers { IfOk result (λ all. AllAnswered terms.old terms.new all.items (length terms.old)) }
    ensures grown { Grows terms.old terms.new }
{
    let count = terms.len();
    let mut answers: Vec<TermId> = Vec::with_capacity(alloc, count as usize)?;
    for place in 0..count {
        let answer = answer_from(alloc, terms, first, place, &answers)?;
        answers.push(answer)?;
    }
    Ok(answers)
}

/// What stands for the term of a number: the term itself below `first`.
#[tactic(auto, using(crate::proofs::Standing::stands_for_itself, crate::proofs::Standing::grown_by_none))]
fn answer_from(
    alloc: Global,
    terms: &mut Terms,
    first: u32,
    place: u32,
    answers: &[TermId],
) -> Result<TermId, AllocError>
    requires there { place < length terms.old }
    requires answered { PartsAnswered terms.old answers.now place }
    ensures stands { IfOk result (λ r. StandsFor terms.new r terms.old place) }
    ensures grown { Grows terms.old terms.new }
    ensures well { WellTyped terms.new }
{
    if place < first {
        let _count = terms.len();
        return Ok(TermId::new(place));
    }
    simplified(alloc, terms, place as usize, answers)
}

/// What stands for the term at a place, from what stands for its parts.
fn simplified(
    alloc: Global,
    terms: &mut Terms,
    place: usize,
    answers: &[TermId],
) -> Result<TermId, AllocError>
    requires there { place < length terms.old }
    requires answered { PartsAnswered terms.old answers.now place }
    ensures stands { IfOk result (λ r. StandsFor terms.new r terms.old place) }
    ensures grown { Grows terms.old terms.new }
    ensures well { WellTyped terms.new }
{
    let node = terms.node(place);
    let parts = answered(alloc, node.parts.as_slice(), answers)?;
    let op = copy_op(alloc, &node.op)?;
    rebuild(alloc, terms, op, parts)
}

/// The answers at the numbers of the parts.
fn answered(alloc: Global, parts: &[TermId], answers: &[TermId]) -> Result<Vec<TermId>, AllocError>
    requires { All (λ p. p < length answers.now) parts.now }
    ensures { IfOk result (λ rs. rs.items ≡ map (slice_index answers.now) parts.now) }
{
    let mut chosen = Vec::new(alloc);
    for part in parts {
        chosen.push(answers[part.index()])?;
    }
    Ok(chosen)
}
