//! Operations that give bit-vectors of bit-vectors.

ghost use Rattle.std.specs.Prelude.{◌≡◌, map};
ghost use Rattle.uc_values.specs.declared.value.Value.TheVariants.{Bv};
ghost use Rattle.uc_ops.specs.declared.model.Model.{Model};
ghost use Rattle.uc_ops.specs.Typing.{types_at};
ghost use Rattle.uc_ops.specs.Meaning.{part, apply};
ghost use Rattle.uc_ops.specs.Met.{Sound, IsBitwise};

use crate::node::Node;
use crate::op::Op;
use crate::part::{bits, width};
use crate::term_id::TermId;
use uc_values::{Value, word};

/// The bit-vector that an operation gives.
pub(crate) fn word_of(op: &Op, nodes: &[Node], given: &[Value], parts: &[TermId]) -> Value
    requires sound { Sound op.now (map (part given.now) parts.now) }
    requires bitwise { IsBitwise op.now }
    ensures { (m : Model) → apply m op.now (types_at nodes.now parts.now) (map (part given.now) parts.now) ≡ result }
{
    let width_a = width(given, parts, 0);
    let a = bits(given, parts, 0);
    let b = bits(given, parts, 1);
    match op {
        Op::BvAdd => Value::Bv(width_a, word::add(width_a, a, b)),
        Op::BvSub => Value::Bv(width_a, word::subtract(width_a, a, b)),
        Op::BvMul => Value::Bv(width_a, word::multiply(width_a, a, b)),
        Op::BvNeg => Value::Bv(width_a, word::negate(width_a, a)),
        Op::BvAnd => Value::Bv(width_a, a & b),
        Op::BvOr => Value::Bv(width_a, a | b),
        Op::BvXor => Value::Bv(width_a, a ^ b),
        Op::BvNot => Value::Bv(width_a, word::complement(width_a, a)),
        Op::Shl => Value::Bv(width_a, word::shift_left(width_a, a, b)),
        Op::Lshr => Value::Bv(width_a, word::shift_right(a, b)),
        Op::Ashr => Value::Bv(width_a, word::shift_right_signed(width_a, a, b)),
        Op::Concat => {
            let width_b = width(given, parts, 1);
            Value::Bv(width_a + width_b, word::concat(width_a, a, width_b, b))
        }
        Op::Extract(high, low) => Value::Bv(*high - *low + 1, word::extract(*high, *low, a)),
        Op::ZeroExt(more) => Value::Bv(width_a + *more, a),
        Op::SignExt(more) => Value::Bv(width_a + *more, word::sign_extend(width_a, *more, a)),
        _ => unreachable!(),
    }
}
