//! Records that are made.

ghost use Rattle.std.specs.Prelude.{◌≡◌, ◌<◌, length, IfOk, IfSome, All};
ghost use Rattle.uc_ops.specs.Typing.{Suits, types_at};
ghost use Rattle.uc_simplify.specs.Records.{AreRecords, IsRecord};

use std::alloc::{AllocError, Global};
use uc_terms::{Op, TermId, Terms};

/// The parts of the one and of the other of two records that are made and compared, where they have parts.
pub(crate) fn two_records(
    alloc: Global,
    terms: &Terms,
    op: &Op,
    parts: &[TermId],
) -> Result<Option<(Vec<TermId>, Vec<TermId>)>, AllocError>
    requires there { All (λ p. p < length terms.now) parts.now }
    requires suits { Suits op.now (types_at terms.now parts.now) }
    ensures { IfOk result (λ o. IfSome o (λ r. AreRecords terms.now op.now parts.now r.0.items r.1.items)) }
{
    let (Op::Eq, [a, b]) = (op, parts) else {
        return Ok(None);
    };
    let Some(left) = record_parts(terms, *a) else {
        return Ok(None);
    };
    let Some(right) = record_parts(terms, *b) else {
        return Ok(None);
    };
    if left.is_empty() {
        return Ok(None);
    }
    let left = Vec::from_slice(alloc, left)?;
    let right = Vec::from_slice(alloc, right)?;
    Ok(Some((left, right)))
}

/// The parts of a record that is made.
fn record_parts(terms: &Terms, t: TermId) -> Option<&[TermId]>
    requires { t < length terms.now }
    ensures { IfSome result (λ parts. IsRecord terms.now t parts.now) }
{
    match terms.op(t) {
        Op::MkRec(_) => Some(terms.parts(t)),
        _ => None,
    }
}
