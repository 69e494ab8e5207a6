//! Terms that are made.

ghost use Rattle.std.specs.Prelude.{◌≡◌, ◌<◌, length, IfOk, All};
ghost use Rattle.uc_ops.specs.Typing.{Suits, types_at};
ghost use Rattle.uc_terms.specs.Tables.{WellTyped};
ghost use Rattle.uc_simplify.specs.Simplified.{Rebuilds, Grows};

use std::alloc::{AllocError, Global};
use uc_items::Items;
use uc_simplify_steps::{Step, settle};
use uc_terms::{Op, TermId, Terms};

/// The operation on the parts, as it is.
pub(crate) fn build(
    alloc: Global,
    terms: &mut Terms,
    op: Op,
    parts: &[TermId],
) -> Result<TermId, AllocError>
    requires there { All (λ p. p < length terms.old) parts.now }
    requires suits { Suits op (types_at terms.old parts.now) }
    ensures rebuilt { IfOk result (λ r. Rebuilds terms.new r terms.old op parts.now) }
    ensures grown { Grows terms.old terms.new }
    ensures well { WellTyped terms.new }
{
    let _before = terms.len();
    let made = terms.mk(alloc, op, parts)?;
    let _after = terms.len();
    Ok(made)
}

/// The operation on the parts, after steps.
pub(crate) fn put(
    alloc: Global,
    terms: &mut Terms,
    op: Op,
    parts: Items<TermId>,
) -> Result<TermId, AllocError>
    requires there { All (λ p. p < length terms.old) parts }
    requires suits { Suits op (types_at terms.old parts) }
    ensures rebuilt { IfOk result (λ r. Rebuilds terms.new r terms.old op parts) }
    ensures grown { Grows terms.old terms.new }
    ensures well { WellTyped terms.new }
{
    let _count = terms.len();
    match settle(alloc, terms, op, parts)? {
        Step::Known(t) => Ok(t),
        Step::Other(op, parts) => build(alloc, terms, op, parts.as_slice()),
    }
}
