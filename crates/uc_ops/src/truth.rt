//! Operations that give a truth.

ghost use Rattle.std.specs.Prelude.{◌≡◌, map};
ghost use Rattle.std.specs.List.{list_all, list_any};
ghost use Rattle.uc_values.specs.Values.{truth_of};
ghost use Rattle.uc_values.specs.Sameness.{same};
ghost use Rattle.uc_values.specs.Operators.{signed_of};
ghost use Rattle.uc_values.specs.declared.value.Value.TheVariants.{Bool as Truth};
ghost use Rattle.uc_ops.specs.declared.model.Model.{Model};
ghost use Rattle.uc_ops.specs.Typing.{types_at, part_type};
ghost use Rattle.uc_ops.specs.Meaning.{part, apply};
ghost use Rattle.uc_ops.specs.Met.{Sound, IsTest, IsWord};

use crate::node::Node;
use crate::op::Op;
use crate::part::{bits, number, part, truth, width};
use crate::term_id::TermId;
use crate::typing::part_type;
use uc_values::word::signed;
use uc_values::{Ty, Value, same};

/// The truth that an operation gives.
pub(crate) fn test(op: &Op, nodes: &[Node], given: &[Value], parts: &[TermId]) -> bool
    requires sound { Sound op.now (map (part given.now) parts.now) }
    requires test { IsTest op.now }
    ensures { (m : Model) → apply m op.now (types_at nodes.now parts.now) (map (part given.now) parts.now) ≡ Truth result }
{
    match op {
        Op::Not => !truth(given, parts, 0),
        Op::And => all_true(given, parts),
        Op::Or => any_true(given, parts),
        Op::Eq => same_parts(nodes, given, parts),
        Op::Le => number(given, parts, 0) <= number(given, parts, 1),
        Op::Slt => signed_at(given, parts, 0) < signed_at(given, parts, 1),
        Op::Sle => signed_at(given, parts, 0) <= signed_at(given, parts, 1),
        Op::Ult => bits(given, parts, 0) < bits(given, parts, 1),
        Op::Ule => bits(given, parts, 0) <= bits(given, parts, 1),
        _ => unreachable!(),
    }
}

fn all_true(given: &[Value], parts: &[TermId]) -> bool
    ensures { result ≡ list_all truth_of (map (part given.now) parts.now) }
{
    for place in 0..parts.len() {
        if !truth(given, parts, place) {
            return false;
        }
    }
    true
}

fn any_true(given: &[Value], parts: &[TermId]) -> bool
    ensures { result ≡ list_any truth_of (map (part given.now) parts.now) }
{
    for place in 0..parts.len() {
        if truth(given, parts, place) {
            return true;
        }
    }
    false
}

/// Whether the first two parts are the same values of the type of the first.
fn same_parts(nodes: &[Node], given: &[Value], parts: &[TermId]) -> bool
    ensures { result
        ≡ same (part_type (types_at nodes.now parts.now) 0) (part (map (part given.now) parts.now) 0) (part (map (part given.now) parts.now) 1) }
{
    let absent = Value::Bool(false);
    let left = part(given, parts, 0, &absent);
    let right = part(given, parts, 1, &absent);
    match part_type(nodes, parts, 0) {
        Some(ty) => same(left, right, ty),
        None => same(left, right, &Ty::Bool),
    }
}

/// The whole number that a part stands for in two's complement.
fn signed_at(given: &[Value], parts: &[TermId], place: usize) -> i128
    requires { IsWord (part (map (part given.now) parts.now) place) }
    ensures { result ≡ signed_of (part (map (part given.now) parts.now) place) }
{
    signed(width(given, parts, place), bits(given, parts, place))
}
