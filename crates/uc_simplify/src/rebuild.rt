//! An operation on parts that are simplified.

ghost use Rattle.std.specs.Prelude.{◌≡◌, ◌<◌, length, IfOk, All};
ghost use Rattle.uc_ops.specs.Typing.{Suits, types_at};
ghost use Rattle.uc_terms.specs.Tables.{WellTyped};
ghost use Rattle.uc_simplify.specs.Simplified.{Rebuilds, Grows};
ghost use Rattle.uc_simplify.specs.Records.{AllEqual};

use crate::building::{build, put};
use crate::linear::normal;
use crate::records::two_records;
use std::alloc::{AllocError, Global};
use uc_items::Items;
use uc_ops::copy_op;
use uc_simplify_steps::{Step, settle};
use uc_terms::{Op, TermId, Terms};

/// How deep records within records are compared, at most.
const DEPTH: u32 = 8;

/// What stands for the operation on the parts.
pub(crate) fn rebuild(
    alloc: Global,
    terms: &mut Terms,
    op: Op,
    parts: Vec<TermId>,
) -> Result<TermId, AllocError>
    requires there { All (λ p. p < length terms.old) parts.items }
    requires suits { Suits op (types_at terms.old parts.items) }
    ensures rebuilt { IfOk result (λ r. Rebuilds terms.new r terms.old op parts.items) }
    ensures grown { Grows terms.old terms.new }
    ensures well { WellTyped terms.new }
{
    rebuilt(alloc, terms, op, Items::from_vec(parts), DEPTH)
}

/// The same, where records within records are compared so deep.
#[cycle(rebuilt)]
fn rebuilt(
    alloc: Global,
    terms: &mut Terms,
    op: Op,
    parts: Items<TermId>,
    depth: u32,
) -> Result<TermId, AllocError>
    requires there { All (λ p. p < length terms.old) parts }
    requires suits { Suits op (types_at terms.old parts) }
    ensures rebuilt { IfOk result (λ r. Rebuilds terms.new r terms.old op parts) }
    ensures grown { Grows terms.old terms.new }
    ensures well { WellTyped terms.new }
{
    let _count = terms.len();
    match settle(alloc, terms, op, parts)? {
        Step::Known(t) => Ok(t),
        Step::Other(op, parts) => made(alloc, terms, &op, parts.as_slice(), depth),
    }
}

/// The operation on the parts, or where it compares two records that are made, the conjunction of the equalities of their fields.
#[cycle(rebuilt)]
fn made(
    alloc: Global,
    terms: &mut Terms,
    op: &Op,
    parts: &[TermId],
    depth: u32,
) -> Result<TermId, AllocError>
    requires there { All (λ p. p < length terms.old) parts.now }
    requires suits { Suits op.now (types_at terms.old parts.now) }
    ensures rebuilt { IfOk result (λ r. Rebuilds terms.new r terms.old op.now parts.now) }
    ensures grown { Grows terms.old terms.new }
    ensures well { WellTyped terms.new }
{
    if depth == 0 {
        return on_integers(alloc, terms, op, parts);
    }
    let _count = terms.len();
    let Some((left, right)) = two_records(alloc, terms, op, parts)? else {
        return on_integers(alloc, terms, op, parts);
    };
    let equal = equalities(alloc, terms, &left, &right, depth - 1)?;
    put(alloc, terms, Op::And, Items::from_vec(equal))
}

/// The operation on the parts, in its normal form where it is one on integers.
fn on_integers(
    alloc: Global,
    terms: &mut Terms,
    op: &Op,
    parts: &[TermId],
) -> Result<TermId, AllocError>
    requires there { All (λ p. p < length terms.old) parts.now }
    requires suits { Suits op.now (types_at terms.old parts.now) }
    ensures rebuilt { IfOk result (λ r. Rebuilds terms.new r terms.old op.now parts.now) }
    ensures grown { Grows terms.old terms.new }
    ensures well { WellTyped terms.new }
{
    let _count = terms.len();
    match normal(alloc, terms, op, parts)? {
        Some(t) => Ok(t),
        None => build(alloc, terms, copy_op(alloc, op)?, parts),
    }
}

/// The equalities of terms with those beside them.
#[cycle(rebuilt)]
fn equalities(
    alloc: Global,
    terms: &mut Terms,
    left: &[TermId],
    right: &[TermId],
    depth: u32,
) -> Result<Vec<TermId>, AllocError>
    requires left { All (λ p. p < length terms.old) left.now }
    requires right { All (λ p. p < length terms.old) right.now }
    requires alike { types_at terms.old left.now ≡ types_at terms.old right.now }
    ensures equal { IfOk result (λ rs. AllEqual terms.new terms.old rs.items left.now right.now) }
    ensures grown { Grows terms.old terms.new }
    ensures well { WellTyped terms.new }
{
    let _count = terms.len();
    let mut equal: Vec<TermId> = Vec::new(alloc);
    for place in 0..left.len() {
        let pair = Items::from_slice(alloc, &[left[place], right[place]])?;
        equal.push(rebuilt(alloc, terms, Op::Eq, pair, depth)?)?;
    }
    Ok(equal)
}
