//! The parts of conjunctions and disjunctions, gathered and put in order.

ghost use Rattle.std.specs.Prelude.{◌≡◌, ◌<◌, true, length, IfOk, IfSome, OnOk, All, Contains};
ghost use Rattle.uc_ops.specs.Typing.{Suits, types_at};
ghost use Rattle.uc_simplify_steps.specs.Steps.{IsRight, IsTruth};
ghost use Rattle.uc_simplify_steps.specs.Junctions.{junction, IsJunction, GoesOn, Gathers, SameMembers, HasComplements};

use crate::step::{Step, boolean};
use crate::truths::{negated, truth};
use std::alloc::{AllocError, Global};
use uc_items::Items;
use uc_terms::{Op, TermId, Terms};

/// A part that is the same junction gives its own parts where it has at most so many, so that a chain of junctions takes no more
/// than this many times its length.
const FEW: usize = 8;

/// The junction with the parts of its parts, in order and each once: the truth is that of a conjunction or of a disjunction of
/// none. It is the other truth where a term and its negation are there.
pub(crate) fn gathered(
    alloc: Global,
    terms: &Terms,
    neutral: bool,
    parts: &[TermId],
) -> Result<Option<Step>, AllocError>
    requires there { All (λ p. p < length terms.now) parts.now }
    requires suits { Suits (junction neutral) (types_at terms.now parts.now) }
    ensures { IfOk result (λ o. IfSome o (IsRight terms.now (junction neutral) parts.now)) }
{
    let _count = terms.len();
    let all = in_order(all_parts(alloc, terms, neutral, parts)?)?;
    if contradicts(terms, &all) {
        return Ok(Some(boolean(alloc, !neutral)));
    }
    if all.is_empty() {
        return Ok(Some(boolean(alloc, neutral)));
    }
    if all.as_slice() == parts {
        return Ok(None);
    }
    Ok(Some(Step::Other(junction(neutral), Items::from_vec(all))))
}

/// Conjunction for true, disjunction for false.
fn junction(neutral: bool) -> Op
    ensures { result ≡ junction neutral }
{
    if neutral { Op::And } else { Op::Or }
}

/// The parts, and the parts of those that are the same junction.
fn all_parts(
    alloc: Global,
    terms: &Terms,
    neutral: bool,
    parts: &[TermId],
) -> Result<Vec<TermId>, AllocError>
    requires { All (λ p. p < length terms.now) parts.now }
    ensures { IfOk result (λ all. Gathers terms.now neutral parts.now (length parts.now) all.items) }
{
    let mut all: Vec<TermId> = Vec::new(alloc);
    for part in parts {
        gather(terms, neutral, &mut all, *part)?;
    }
    Ok(all)
}

/// Adds a part, or its parts where it is the same junction, or nothing where it is the neutral truth.
fn gather(
    terms: &Terms,
    neutral: bool,
    all: &mut Vec<TermId>,
    part: TermId,
) -> Result<(), AllocError>
    requires { part < length terms.now }
    ensures { OnOk result (GoesOn terms.now neutral part all.old.items all.new.items) }
{
    if is_truth(terms, part, neutral) {
        return Ok(());
    }
    match inner(terms, neutral, part) {
        Some(own) => all.extend_from_slice(own)?,
        None => all.push(part)?,
    }
    Ok(())
}

/// Whether the term is the constant of this truth.
fn is_truth(terms: &Terms, t: TermId, value: bool) -> bool
    requires { t < length terms.now }
    ensures { result ≡ true → IsTruth terms.now t value }
{
    match truth(terms, t) {
        Some(own) => own == value,
        None => false,
    }
}

/// The parts of a term that is the junction, where they are few.
fn inner(terms: &Terms, neutral: bool, t: TermId) -> Option<&[TermId]>
    requires { t < length terms.now }
    ensures { IfSome result (λ own. IsJunction terms.now neutral t own.now) }
{
    let parts = terms.parts(t);
    if parts.len() > FEW {
        return None;
    }
    match (neutral, terms.op(t)) {
        (true, Op::And) => Some(parts),
        (false, Op::Or) => Some(parts),
        _ => None,
    }
}

/// The same terms in the order of their numbers, each once.
fn in_order(all: Vec<TermId>) -> Result<Vec<TermId>, AllocError>
    ensures { IfOk result (λ sorted. SameMembers all.items sorted.items) }
{
    let mut sorted = all;
    sorted.sort_by_key(|t| t.number())?;
    sorted.dedup();
    Ok(sorted)
}

/// Whether terms in order have one and its negation.
fn contradicts(terms: &Terms, sorted: &[TermId]) -> bool
    requires { All (λ p. p < length terms.now) sorted.now }
    ensures { result ≡ true → HasComplements terms.now sorted.now }
{
    for part in sorted {
        if let Some(inner) = negated(terms, *part) {
            if has(sorted, inner) {
                return true;
            }
        }
    }
    false
}

/// Whether terms in order have this one.
fn has(sorted: &[TermId], t: TermId) -> bool
    ensures { result ≡ true → Contains sorted.now t }
{
    let mut low = 0;
    let mut high = sorted.len();
    for _ in 0..64 {
        if low >= high {
            return false;
        }
        let middle = low + (high - low) / 2;
        if sorted[middle] == t {
            return true;
        }
        if sorted[middle].number() < t.number() {
            low = middle + 1;
        } else {
            high = middle;
        }
    }
    false
}
