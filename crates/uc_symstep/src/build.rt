//! Terms of one operation.

ghost use Rattle.std.specs.Prelude.{◌≡◌, ◌<◌, List, length, IfOk, not, ◌&&◌};
ghost use Rattle.uc_values.specs.Values.{truth_of};
ghost use Rattle.uc_values.specs.declared.value.Value.TheVariants.{Bool as Truth};
ghost use Rattle.uc_values.specs.declared.ty.Ty.TheVariants.{Bool};
ghost use Rattle.uc_ops.specs.Typing.{type_at};
ghost use Rattle.uc_terms.specs.Values.{value};
ghost use Rattle.uc_flat.specs.Drawn.{either};
ghost use Rattle.uc_values.specs.declared.ty.Ty.{Ty as AType};
ghost use Rattle.uc_symstep.specs.Growing.{Grows, IsTerm};
ghost use Rattle.uc_symstep.specs.Known.{IsKnown};

use std::alloc::{AllocError, Global};
use uc_terms::{Op, TermId, Terms};
use uc_values::{Ty, Value};

/// The constant true or false.
pub fn literal(terms: &mut Terms, alloc: Global, b: bool) -> Result<TermId, AllocError>
    ensures ok { IfOk result (λ t. IsTerm terms.old terms.new t Bool (λ m. Truth b)) }
    ensures known { IfOk result (λ t. (supply : List AType) → IsKnown supply terms.new t) }
    ensures grown { Grows terms.old terms.new }
{
    let t = terms.mk(alloc, Op::Const(Ty::Bool, Value::Bool(b)), &[])?;
    Ok(t)
}

/// The truth value that a term has not.
pub fn negated(terms: &mut Terms, alloc: Global, t: TermId) -> Result<TermId, AllocError>
    requires there { t < length terms.old }
    requires boolean { type_at terms.old t ≡ Bool }
    ensures ok { IfOk result (λ r. IsTerm terms.old terms.new r Bool (λ m. Truth (not (truth_of (value m terms.old t))))) }
    ensures known { IfOk result (λ r. (supply : List AType) → IsKnown supply terms.old t → IsKnown supply terms.new r) }
    ensures grown { Grows terms.old terms.new }
{
    let r = terms.mk(alloc, Op::Not, &[t])?;
    Ok(r)
}

/// Whether two terms are true.
pub fn both(terms: &mut Terms, alloc: Global, a: TermId, b: TermId) -> Result<TermId, AllocError>
    requires there { (a < length terms.old) × (b < length terms.old) }
    requires boolean { (type_at terms.old a ≡ Bool) × (type_at terms.old b ≡ Bool) }
    ensures ok { IfOk result (λ r. IsTerm terms.old terms.new r Bool (λ m. Truth (truth_of (value m terms.old a) && truth_of (value m terms.old b)))) }
    ensures known { IfOk result (λ r. (supply : List AType) → IsKnown supply terms.old a → IsKnown supply terms.old b → IsKnown supply terms.new r) }
    ensures grown { Grows terms.old terms.new }
{
    let t = terms.mk(alloc, Op::And, &[a, b])?;
    Ok(t)
}

pub(crate) fn either(
    terms: &mut Terms,
    alloc: Global,
    c: TermId,
    a: TermId,
    b: TermId,
) -> Result<TermId, AllocError>
    requires there { (c < length terms.old) × (a < length terms.old) × (b < length terms.old) }
    requires boolean { type_at terms.old c ≡ Bool }
    requires alike { type_at terms.old a ≡ type_at terms.old b }
    ensures ok { IfOk result (λ r. IsTerm terms.old terms.new r (type_at terms.old b) (λ m. either (truth_of (value m terms.old c)) (value m terms.old a) (value m terms.old b))) }
    ensures known { IfOk result (λ r. (supply : List AType) → IsKnown supply terms.old c → IsKnown supply terms.old a → IsKnown supply terms.old b → IsKnown supply terms.new r) }
    ensures grown { Grows terms.old terms.new }
{
    let t = terms.mk(alloc, Op::Ite, &[c, a, b])?;
    Ok(t)
}
