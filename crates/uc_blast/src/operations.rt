//! The signals of operations on the signals of bit-vectors.

ghost use Rattle.std.specs.Prelude.{◌≡◌, ◌≤◌, ◌<◌, length, IfOk};
ghost use Rattle.uc_values.specs.Operators.{shifted_right_signed};
ghost use Rattle.uc_circuit.specs.Signals.{number, AllBelow};
ghost use Rattle.uc_circuit.specs.Building.{Grows, size};
ghost use Rattle.uc_circuit.specs.Meanings.{Means, Amounts};
ghost use Rattle.uc_blast.specs.Operations.{IsPair, pair_number, IsOrder, order_truth, IsSingle, single_width, single_number, SuitsWidth};

use std::alloc::{AllocError, Global};
use uc_circuit::{
    Gates, Shift, Signal, add, and_each, at_most, at_most_signed, extract, less, less_signed,
    multiply, negate, or_each, shift_by, sign_extend, subtract, turn_each, xor_each, zero_extend,
};
use uc_ops::Op;

/// An operation from two bit-vectors of one width to a third.
pub(crate) fn pair_bits(
    alloc: Global,
    gates: &mut Gates,
    op: &Op,
    a: &[Signal],
    b: &[Signal],
) -> Result<Vec<Signal>, AllocError>
    requires op { IsPair op.now }
    requires a { AllBelow (size gates.old) a.now }
    requires b { AllBelow (size gates.old) b.now }
    requires long { length b.now ≡ length a.now }
    requires some { 0 < length a.now }
    requires narrow { length a.now ≤ 64 }
    ensures grows { Grows gates.old gates.new }
    ensures ok { IfOk result (λ r. Amounts gates.new (length a.now) (λ v. pair_number op.now (length a.now) (number v a.now) (number v b.now)) r.items) }
{
    match op {
        Op::BvAdd => add(alloc, gates, a, b),
        Op::BvSub => subtract(alloc, gates, a, b),
        Op::BvMul => multiply(alloc, gates, a, b),
        Op::BvAnd => and_each(alloc, gates, a, b),
        Op::BvOr => or_each(alloc, gates, a, b),
        Op::BvXor => xor_each(alloc, gates, a, b),
        Op::Shl => shift_by(alloc, gates, Shift::Left, a, b),
        Op::Lshr => shift_by(alloc, gates, Shift::Right(Signal::Constant(false)), a, b),
        Op::Ashr => shift_signed(alloc, gates, a, b),
        _ => unreachable!(),
    }
}

/// The shift to the right that copies the highest bit.
fn shift_signed(
    alloc: Global,
    gates: &mut Gates,
    a: &[Signal],
    b: &[Signal],
) -> Result<Vec<Signal>, AllocError>
    requires a { AllBelow (size gates.old) a.now }
    requires b { AllBelow (size gates.old) b.now }
    requires long { length b.now ≡ length a.now }
    requires some { 0 < length a.now }
    requires narrow { length a.now ≤ 64 }
    ensures grows { Grows gates.old gates.new }
    ensures ok { IfOk result (λ r. Amounts gates.new (length a.now) (λ v. shifted_right_signed (length a.now) (number v a.now) (number v b.now)) r.items) }
{
    let highest = a[a.len() - 1];
    shift_by(alloc, gates, Shift::Right(highest), a, b)
}

/// A comparison of two bit-vectors of one width.
pub(crate) fn order(
    gates: &mut Gates,
    op: &Op,
    a: &[Signal],
    b: &[Signal],
) -> Result<Signal, AllocError>
    requires op { IsOrder op.now }
    requires a { AllBelow (size gates.old) a.now }
    requires b { AllBelow (size gates.old) b.now }
    requires long { length b.now ≡ length a.now }
    requires some { 0 < length a.now }
    ensures grows { Grows gates.old gates.new }
    ensures ok { IfOk result (Means gates.new (λ v. order_truth op.now (length a.now) (number v a.now) (number v b.now))) }
{
    match op {
        Op::Slt => less_signed(gates, a, b),
        Op::Sle => at_most_signed(gates, a, b),
        Op::Ult => less(gates, a, b),
        Op::Ule => at_most(gates, a, b),
        _ => unreachable!(),
    }
}

/// An operation from one bit-vector to another.
pub(crate) fn single_bits(
    alloc: Global,
    gates: &mut Gates,
    op: &Op,
    a: &[Signal],
) -> Result<Vec<Signal>, AllocError>
    requires op { IsSingle op.now }
    requires a { AllBelow (size gates.old) a.now }
    requires some { 0 < length a.now }
    requires suits { SuitsWidth op.now (length a.now) }
    ensures grows { Grows gates.old gates.new }
    ensures ok { IfOk result (λ r. Amounts gates.new (single_width op.now (length a.now)) (λ v. single_number op.now (length a.now) (number v a.now)) r.items) }
{
    match op {
        Op::BvNeg => negate(alloc, gates, a),
        Op::BvNot => turn_each(alloc, a),
        Op::Extract(high, low) => extract(alloc, a, usize::from(*high), usize::from(*low)),
        Op::ZeroExt(more) => zero_extend(alloc, a, usize::from(*more)),
        Op::SignExt(more) => sign_extend(alloc, a, usize::from(*more)),
        _ => unreachable!(),
    }
}
