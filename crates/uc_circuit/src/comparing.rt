//! Comparisons.

ghost use Rattle.std.specs.Prelude.{◌≡◌, ◌<◌, length, nat_eq, nat_lt, nat_le, int_lt, int_le, IfOk};
ghost use Rattle.uc_values.specs.Operators.{signed};
ghost use Rattle.uc_circuit.specs.Signals.{number, AllBelow};
ghost use Rattle.uc_circuit.specs.Building.{Grows, size};
ghost use Rattle.uc_circuit.specs.Meanings.{Means};

use crate::{Gates, Signal};
use std::alloc::AllocError;

/// Whether two numbers are equal.
pub fn equal(gates: &mut Gates, a: &[Signal], b: &[Signal]) -> Result<Signal, AllocError>
    requires a { AllBelow (size gates.old) a.now }
    requires b { AllBelow (size gates.old) b.now }
    requires long { length b.now ≡ length a.now }
    ensures grows { Grows gates.old gates.new }
    ensures ok { IfOk result (Means gates.new (λ v. nat_eq (number v a.now) (number v b.now))) }
{
    let mut same = Signal::Constant(true);
    for i in 0..a.len() {
        let differ = gates.xor(a[i], b[i])?;
        same = gates.and(same, differ.turn())?;
    }
    Ok(same)
}

/// Whether the first number is less.
pub fn less(gates: &mut Gates, a: &[Signal], b: &[Signal]) -> Result<Signal, AllocError>
    requires a { AllBelow (size gates.old) a.now }
    requires b { AllBelow (size gates.old) b.now }
    requires long { length b.now ≡ length a.now }
    ensures grows { Grows gates.old gates.new }
    ensures ok { IfOk result (Means gates.new (λ v. nat_lt (number v a.now) (number v b.now))) }
{
    let mut less = Signal::Constant(false);
    for i in 0..a.len() {
        let differ = gates.xor(a[i], b[i])?;
        less = gates.choose(differ, b[i], less)?;
    }
    Ok(less)
}

/// Whether the first number is at most the second.
pub fn at_most(gates: &mut Gates, a: &[Signal], b: &[Signal]) -> Result<Signal, AllocError>
    requires a { AllBelow (size gates.old) a.now }
    requires b { AllBelow (size gates.old) b.now }
    requires long { length b.now ≡ length a.now }
    ensures grows { Grows gates.old gates.new }
    ensures ok { IfOk result (Means gates.new (λ v. nat_le (number v a.now) (number v b.now))) }
{
    let greater = less(gates, b, a)?;
    Ok(greater.turn())
}

/// Whether the first number is less, in two's complement: the highest bits count the other way.
pub fn less_signed(gates: &mut Gates, a: &[Signal], b: &[Signal]) -> Result<Signal, AllocError>
    requires a { AllBelow (size gates.old) a.now }
    requires b { AllBelow (size gates.old) b.now }
    requires long { length b.now ≡ length a.now }
    requires some { 0 < length a.now }
    ensures grows { Grows gates.old gates.new }
    ensures ok { IfOk result (Means gates.new (λ v. int_lt (signed (length a.now) (number v a.now)) (signed (length a.now) (number v b.now)))) }
{
    let top = a.len() - 1;
    let low = less(gates, &a[..top], &b[..top])?;
    let differ = gates.xor(a[top], b[top])?;
    gates.choose(differ, a[top], low)
}

/// Whether the first number is at most the second, in two's complement.
pub fn at_most_signed(gates: &mut Gates, a: &[Signal], b: &[Signal]) -> Result<Signal, AllocError>
    requires a { AllBelow (size gates.old) a.now }
    requires b { AllBelow (size gates.old) b.now }
    requires long { length b.now ≡ length a.now }
    requires some { 0 < length a.now }
    ensures grows { Grows gates.old gates.new }
    ensures ok { IfOk result (Means gates.new (λ v. int_le (signed (length a.now) (number v a.now)) (signed (length a.now) (number v b.now)))) }
{
    let greater = less_signed(gates, b, a)?;
    Ok(greater.turn())
}
