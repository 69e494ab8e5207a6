//! Sums, differences and negations.

ghost use Rattle.std.specs.Prelude.{◌≡◌, ◌+◌, ◌*◌, ◌^◌, ◌%◌, length, IfOk};
ghost use Rattle.uc_values.specs.Operators.{added, subtracted, negated};
ghost use Rattle.uc_circuit.specs.Signals.{signal_value, bit, number, Below, AllBelow};
ghost use Rattle.uc_circuit.specs.Building.{Grows, size};
ghost use Rattle.uc_circuit.specs.Meanings.{Amounts};
ghost use Rattle.uc_circuit.specs.Adding.{Adds};

use crate::{Gates, Signal, turn_each};
use std::alloc::{AllocError, Global};

/// The sum of three bits: its low bit and its carry.
fn add_bits(
    gates: &mut Gates,
    a: Signal,
    b: Signal,
    carry: Signal,
) -> Result<(Signal, Signal), AllocError>
    requires a { Below (size gates.old) a }
    requires b { Below (size gates.old) b }
    requires carry { Below (size gates.old) carry }
    ensures grows { Grows gates.old gates.new }
    ensures ok { IfOk result (λ r. Adds gates.new a b carry r.0 r.1) }
{
    let differ = gates.xor(a, b)?;
    let sum = gates.xor(differ, carry)?;
    let next = gates.choose(differ, carry, a)?;
    Ok((sum, next))
}

/// The sum of two numbers and a carry, without the carry that goes out.
pub fn add_each(
    alloc: Global,
    gates: &mut Gates,
    a: &[Signal],
    b: &[Signal],
    carry: Signal,
) -> Result<Vec<Signal>, AllocError>
    requires a { AllBelow (size gates.old) a.now }
    requires b { AllBelow (size gates.old) b.now }
    requires carry { Below (size gates.old) carry }
    requires long { length b.now ≡ length a.now }
    ensures grows { Grows gates.old gates.new }
    ensures ok { IfOk result (λ r. Amounts gates.new (length a.now) (λ v. (number v a.now + number v b.now + bit (signal_value v carry)) % 2 ^ length a.now) r.items) }
{
    let mut bits = Vec::with_capacity(alloc, a.len())?;
    let mut last = carry;
    for i in 0..a.len() {
        let (sum, next) = add_bits(gates, a[i], b[i], last)?;
        bits.push(sum)?;
        last = next;
    }
    Ok(bits)
}

/// The sum.
pub fn add(
    alloc: Global,
    gates: &mut Gates,
    a: &[Signal],
    b: &[Signal],
) -> Result<Vec<Signal>, AllocError>
    requires a { AllBelow (size gates.old) a.now }
    requires b { AllBelow (size gates.old) b.now }
    requires long { length b.now ≡ length a.now }
    ensures grows { Grows gates.old gates.new }
    ensures ok { IfOk result (λ r. Amounts gates.new (length a.now) (λ v. added (length a.now) (number v a.now) (number v b.now)) r.items) }
{
    add_each(alloc, gates, a, b, Signal::Constant(false))
}

/// The difference: the sum of the first, the second with each bit turned, and 1.
pub fn subtract(
    alloc: Global,
    gates: &mut Gates,
    a: &[Signal],
    b: &[Signal],
) -> Result<Vec<Signal>, AllocError>
    requires a { AllBelow (size gates.old) a.now }
    requires b { AllBelow (size gates.old) b.now }
    requires long { length b.now ≡ length a.now }
    ensures grows { Grows gates.old gates.new }
    ensures ok { IfOk result (λ r. Amounts gates.new (length a.now) (λ v. subtracted (length a.now) (number v a.now) (number v b.now)) r.items) }
{
    let turned = turn_each(alloc, b)?;
    add_each(alloc, gates, a, turned.as_slice(), Signal::Constant(true))
}

/// 0 minus the number.
pub fn negate(alloc: Global, gates: &mut Gates, a: &[Signal]) -> Result<Vec<Signal>, AllocError>
    requires a { AllBelow (size gates.old) a.now }
    ensures grows { Grows gates.old gates.new }
    ensures ok { IfOk result (λ r. Amounts gates.new (length a.now) (λ v. negated (length a.now) (number v a.now)) r.items) }
{
    let zeros = vec![in alloc; Signal::Constant(false); a.len()]?;
    subtract(alloc, gates, zeros.as_slice(), a)
}
