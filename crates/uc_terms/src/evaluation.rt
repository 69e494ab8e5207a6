//! The evaluation of terms.

ghost use Rattle.std.specs.Prelude.{◌≡◌, ℕ, ◌<◌, ◌≤◌, length, map, IfOk, All, Contains};
ghost use Rattle.uc_linear.specs.Exact.{OnWide};
ghost use Rattle.uc_ops.specs.Meaning.{part};
ghost use Rattle.uc_terms.specs.Tables.{parts_at};
ghost use Rattle.uc_terms.specs.Values.{value, values_at};
ghost use Rattle.uc_ops.specs.Met.{IsNarrowResult};
ghost use Rattle.uc_terms.specs.Met.{met_at, Meets, MeetsOnlyNarrow, MeetsInOne};
ghost use Rattle.uc_terms.specs.Evaluated.{AreEvaluated};

use crate::marks::subterms;
use crate::terms::Terms;
use std::alloc::Global;
use uc_linear::LinearError;
use uc_ops::{Model, TermId, apply};
use uc_values::{Value, copy};

/// The value of a term under a model, where no number that its evaluation meets leaves 128 bits. Every subterm is met, each once.
pub fn eval(alloc: Global, terms: &Terms, t: TermId, model: &Model) -> Result<Value, LinearError>
    requires { t < length terms.now }
    ensures ok { IfOk result (λ v. v ≡ value model.now terms.now t) }
    ensures narrow { IfOk result (λ _. MeetsOnlyNarrow model.now terms.now t) }
    ensures wide { OnWide result (Meets model.now terms.now t) }
{
    let mut values = evaluated(alloc, terms, &[t], model)?;
    Ok(values.swap_remove(t.index()))
}

/// The values of terms under a model: one walk over their subterms serves all of them.
pub fn eval_all(
    alloc: Global,
    terms: &Terms,
    roots: &[TermId],
    model: &Model,
) -> Result<Vec<Value>, LinearError>
    requires { All (λ t. t < length terms.now) roots.now }
    ensures ok { IfOk result (λ vs. vs.items ≡ values_at model.now terms.now roots.now) }
    ensures narrow { IfOk result (λ _. All (MeetsOnlyNarrow model.now terms.now) roots.now) }
    ensures wide { OnWide result (MeetsInOne model.now terms.now roots.now) }
{
    let values = evaluated(alloc, terms, roots, model)?;
    let mut chosen = Vec::new(alloc);
    for root in roots {
        chosen.push(copy(alloc, &values[root.index()])?)?;
    }
    Ok(chosen)
}

/// A value for each number up to the greatest of the terms, of which those of their subterms count.
fn evaluated(
    alloc: Global,
    terms: &Terms,
    roots: &[TermId],
    model: &Model,
) -> Result<Vec<Value>, LinearError>
    requires { All (λ t. t < length terms.now) roots.now }
    ensures ok { IfOk result (λ vs. AreEvaluated model.now terms.now roots.now vs.items) }
    ensures wide { OnWide result (MeetsInOne model.now terms.now roots.now) }
{
    let marks = subterms(alloc, terms, roots)?;
    let mut values: Vec<Value> = Vec::new(alloc);
    for place in 0..marks.len() {
        if marks[place] {
            values.push(value_at(alloc, terms, place, &values, model)?)?;
        } else {
            values.push(Value::Bool(false))?;
        }
    }
    Ok(values)
}

/// The value of the term at a place, from the values of its parts.
fn value_at(
    alloc: Global,
    terms: &Terms,
    place: usize,
    given: &[Value],
    model: &Model,
) -> Result<Value, LinearError>
    requires there { place < length terms.now }
    requires given { All (λ p. p < place → part given.now p ≡ value model.now terms.now p) (parts_at terms.now place) }
    ensures ok { IfOk result (λ v. v ≡ value model.now terms.now place) }
    ensures narrow { IfOk result (λ _. All IsNarrowResult (met_at model.now terms.now place)) }
    ensures wide { OnWide result (Contains (met_at model.now terms.now place)) }
{
    let nodes = terms.nodes();
    let node = terms.node(place);
    apply(alloc, model, &node.op, nodes, given, node.parts.as_slice())
}
