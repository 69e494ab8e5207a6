//! Steps: what an operation on parts may be replaced by.

ghost use Rattle.std.specs.Prelude.{◌≡◌, [], ◌<◌, length, IfSome};
ghost use Rattle.uc_values.specs.declared.ty.Ty.TheVariants.{Bool as Boolean};
ghost use Rattle.uc_values.specs.declared.value.Value.TheVariants.{Bool as Holds};
ghost use Rattle.uc_ops.specs.declared.op.Op.TheVariants.{Const};
ghost use Rattle.uc_simplify_steps.specs.Steps.{IsConstant};
ghost use Rattle.uc_simplify_steps.specs.declared.step.Step.TheVariants.{Other};

use std::alloc::Global;
use uc_items::Items;
use uc_terms::{Op, TermId, Terms};
use uc_values::{Ty, Value};

/// What an operation on parts may be replaced by.
#[derive(Drop)]
pub enum Step {
    /// A term below one of the parts.
    Known(TermId),
    /// Another operation, on terms below the parts.
    Other(Op, Items<TermId>),
}

/// The value of a constant.
pub(crate) fn constant(terms: &Terms, t: TermId) -> Option<&Value>
    requires { t < length terms.now }
    ensures { IfSome result (λ v. IsConstant terms.now t v.now) }
{
    match terms.op(t) {
        Op::Const(_, value) => Some(value),
        _ => None,
    }
}

/// A truth.
pub(crate) fn boolean(alloc: Global, truth: bool) -> Step
    ensures { result ≡ Other (Const Boolean (Holds truth)) [] }
{
    Step::Other(Op::Const(Ty::Bool, Value::Bool(truth)), Items::new(alloc))
}
