//! Operations bit by bit.

ghost use Rattle.std.specs.Prelude.{◌≡◌, length, map, bit_and, bit_or, bit_xor, if◌then◌else◌, IfOk};
ghost use Rattle.uc_circuit.specs.Signals.{signal_value, turned, number, Below, AllBelow};
ghost use Rattle.uc_circuit.specs.Building.{Grows, size};
ghost use Rattle.uc_circuit.specs.Meanings.{Amounts};

use crate::{Gates, Signal};
use std::alloc::{AllocError, Global};

/// Each signal turned.
pub fn turn_each(alloc: Global, a: &[Signal]) -> Result<Vec<Signal>, AllocError>
    ensures { IfOk result (λ r. r.items ≡ map turned a.now) }
{
    let mut turned = Vec::with_capacity(alloc, a.len())?;
    for signal in a {
        turned.push(signal.turn())?;
    }
    Ok(turned)
}

/// The bits that both have.
pub fn and_each(
    alloc: Global,
    gates: &mut Gates,
    a: &[Signal],
    b: &[Signal],
) -> Result<Vec<Signal>, AllocError>
    requires a { AllBelow (size gates.old) a.now }
    requires b { AllBelow (size gates.old) b.now }
    requires long { length b.now ≡ length a.now }
    ensures grows { Grows gates.old gates.new }
    ensures ok { IfOk result (λ r. Amounts gates.new (length a.now) (λ v. bit_and (number v a.now) (number v b.now)) r.items) }
{
    let mut bits = Vec::with_capacity(alloc, a.len())?;
    for i in 0..a.len() {
        bits.push(gates.and(a[i], b[i])?)?;
    }
    Ok(bits)
}

/// The bits that one has.
pub fn or_each(
    alloc: Global,
    gates: &mut Gates,
    a: &[Signal],
    b: &[Signal],
) -> Result<Vec<Signal>, AllocError>
    requires a { AllBelow (size gates.old) a.now }
    requires b { AllBelow (size gates.old) b.now }
    requires long { length b.now ≡ length a.now }
    ensures grows { Grows gates.old gates.new }
    ensures ok { IfOk result (λ r. Amounts gates.new (length a.now) (λ v. bit_or (number v a.now) (number v b.now)) r.items) }
{
    let mut bits = Vec::with_capacity(alloc, a.len())?;
    for i in 0..a.len() {
        bits.push(gates.or(a[i], b[i])?)?;
    }
    Ok(bits)
}

/// The bits in which they differ.
pub fn xor_each(
    alloc: Global,
    gates: &mut Gates,
    a: &[Signal],
    b: &[Signal],
) -> Result<Vec<Signal>, AllocError>
    requires a { AllBelow (size gates.old) a.now }
    requires b { AllBelow (size gates.old) b.now }
    requires long { length b.now ≡ length a.now }
    ensures grows { Grows gates.old gates.new }
    ensures ok { IfOk result (λ r. Amounts gates.new (length a.now) (λ v. bit_xor (number v a.now) (number v b.now)) r.items) }
{
    let mut bits = Vec::with_capacity(alloc, a.len())?;
    for i in 0..a.len() {
        bits.push(gates.xor(a[i], b[i])?)?;
    }
    Ok(bits)
}

/// The first signals where the condition is true, and else the second ones.
pub fn choose_each(
    alloc: Global,
    gates: &mut Gates,
    condition: Signal,
    a: &[Signal],
    b: &[Signal],
) -> Result<Vec<Signal>, AllocError>
    requires condition { Below (size gates.old) condition }
    requires a { AllBelow (size gates.old) a.now }
    requires b { AllBelow (size gates.old) b.now }
    requires long { length b.now ≡ length a.now }
    ensures grows { Grows gates.old gates.new }
    ensures ok { IfOk result (λ r. Amounts gates.new (length a.now) (λ v. if signal_value v condition then number v a.now else number v b.now) r.items) }
{
    let mut bits = Vec::with_capacity(alloc, a.len())?;
    for i in 0..a.len() {
        bits.push(gates.choose(condition, a[i], b[i])?)?;
    }
    Ok(bits)
}
