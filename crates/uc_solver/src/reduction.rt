//! The simplified and lowered goal.

ghost use Rattle.std.specs.Prelude.{◌≡◌, ◌<◌, length, IfOk};
ghost use Rattle.uc_values.specs.declared.ty.Ty.TheVariants.{Bool};
ghost use Rattle.uc_ops.specs.Typing.{type_at};
ghost use Rattle.uc_terms.specs.Subterms.{EvenlyTyped};
ghost use Rattle.uc_lower.specs.Lowering.{IsFiniteTerm};
ghost use Rattle.uc_simplify.specs.Simplified.{Grows};
ghost use Rattle.uc_solver.specs.Reduced.{IsReduced};

use std::alloc::{AllocError, Global};
use uc_lower::{Lowered, lower};
use uc_simplify::simplify;
use uc_terms::{TermId, Terms};

/// Simplifies a goal and lowers it.
pub(crate) fn reduced(alloc: Global, terms: &mut Terms, goal: TermId) -> Result<Lowered, AllocError>
    requires there { goal < length terms.old }
    requires boolean { type_at terms.old goal ≡ Bool }
    requires even { EvenlyTyped terms.old goal }
    requires finite { IsFiniteTerm terms.old goal }
    ensures reduced { IfOk result (λ l. IsReduced terms.new goal l.goal l.map.pairs) }
    ensures grown { Grows terms.old terms.new }
{
    let _shared = terms.len();
    let simple = simplify(alloc, terms, goal)?;
    let _simple_shared = terms.len();
    let lowered = lower(alloc, terms, simple)?;
    let _lowered_shared = terms.len();
    Ok(lowered)
}
