//! The subterms of terms.

ghost use Rattle.std.specs.Prelude.{◌≡◌, ℕ, ◌<◌, ◌≤◌, length, IfOk, All};
ghost use Rattle.uc_terms.specs.Subterms.{AreSubterms};
ghost use Rattle.uc_terms.specs.Marks.{MarksMore};

use crate::terms::Terms;
use std::alloc::{AllocError, Global};
use uc_ops::TermId;

/// For each number up to the greatest of the terms, whether it is that of a subterm of one of them. Takes a step for each such number.
pub fn subterms(alloc: Global, terms: &Terms, roots: &[TermId]) -> Result<Vec<bool>, AllocError>
    requires { All (λ t. t < length terms.now) roots.now }
    ensures { IfOk result (λ marks. AreSubterms terms.now roots.now marks.items) }
{
    let count = span(roots);
    let mut marks = vec![in alloc; false; count]?;
    mark_all(&mut marks, roots);
    let mut place = count;
    'walk: while place > 0 {
        place -= 1;
        if marks[place] {
            mark_all(&mut marks, terms.node(place).parts.as_slice());
        }
    }
    Ok(marks)
}

/// One more than the greatest number.
fn span(roots: &[TermId]) -> usize
    ensures above { All (λ t. t < result) roots.now }
    ensures least { (n : ℕ) → All (λ t. t < n) roots.now → result ≤ n }
{
    let mut above = 0;
    for root in roots {
        above = raised(above, *root);
    }
    above
}

/// A bound raised above a number.
fn raised(above: usize, root: TermId) -> usize
    ensures above { above ≤ result }
    ensures next { root < result }
    ensures least { (n : ℕ) → above ≤ n → root < n → result ≤ n }
{
    let next = root.number() as usize + 1;
    if above < next { next } else { above }
}

/// Marks the parts.
fn mark_all(marks: &mut Vec<bool>, parts: &[TermId])
    requires { All (λ p. p < length marks.old.items) parts.now }
    ensures { MarksMore marks.old.items marks.new.items parts.now }
{
    for part in parts {
        marks[part.index()] = true;
    }
}
