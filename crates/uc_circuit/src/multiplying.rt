//! Products.

ghost use Rattle.std.specs.Prelude.{◌≡◌, ◌≤◌, ◌<◌, ◌+◌, ◌*◌, ◌^◌, ◌%◌, length, IfOk};
ghost use Rattle.uc_values.specs.Operators.{multiplied};
ghost use Rattle.uc_circuit.specs.Signals.{signal_value, bit, number, Below, AllBelow};
ghost use Rattle.uc_circuit.specs.Building.{Grows, size};
ghost use Rattle.uc_circuit.specs.Meanings.{Amounts};

use crate::{Gates, Signal, add_each};
use std::alloc::{AllocError, Global};

/// The number where the signal is true, and else 0.
fn times_bit(
    alloc: Global,
    gates: &mut Gates,
    a: &[Signal],
    by: Signal,
) -> Result<Vec<Signal>, AllocError>
    requires a { AllBelow (size gates.old) a.now }
    requires by { Below (size gates.old) by }
    ensures grows { Grows gates.old gates.new }
    ensures ok { IfOk result (λ r. Amounts gates.new (length a.now) (λ v. number v a.now * bit (signal_value v by)) r.items) }
{
    let mut bits = Vec::with_capacity(alloc, a.len())?;
    for i in 0..a.len() {
        bits.push(gates.and(a[i], by)?)?;
    }
    Ok(bits)
}

/// The sum and one more row of a product: the number, shifted to the left, where the signal is true.
fn add_row(
    alloc: Global,
    gates: &mut Gates,
    sum: &[Signal],
    a: &[Signal],
    by: Signal,
    places: usize,
) -> Result<Vec<Signal>, AllocError>
    requires sum { AllBelow (size gates.old) sum.now }
    requires a { AllBelow (size gates.old) a.now }
    requires by { Below (size gates.old) by }
    requires long { length sum.now ≡ length a.now }
    requires places { places ≤ length a.now }
    ensures grows { Grows gates.old gates.new }
    ensures ok { IfOk result (λ r. Amounts gates.new (length a.now) (λ v. (number v sum.now + 2 ^ places * (number v a.now * bit (signal_value v by))) % 2 ^ length a.now) r.items) }
{
    let row = times_bit(alloc, gates, &a[..a.len() - places], by)?;
    let high = add_each(
        alloc,
        gates,
        &sum[places..],
        row.as_slice(),
        Signal::Constant(false),
    )?;
    let mut bits = Vec::from_slice(alloc, &sum[..places])?;
    bits.extend_from_slice(high.as_slice())?;
    Ok(bits)
}

/// The product: a row for each bit of the second number, each shorter by one than the row before.
pub fn multiply(
    alloc: Global,
    gates: &mut Gates,
    a: &[Signal],
    b: &[Signal],
) -> Result<Vec<Signal>, AllocError>
    requires a { AllBelow (size gates.old) a.now }
    requires b { AllBelow (size gates.old) b.now }
    requires long { length b.now ≡ length a.now }
    ensures grows { Grows gates.old gates.new }
    ensures ok { IfOk result (λ r. Amounts gates.new (length a.now) (λ v. multiplied (length a.now) (number v a.now) (number v b.now)) r.items) }
{
    let mut sum = vec![in alloc; Signal::Constant(false); a.len()]?;
    for i in 0..b.len() {
        sum = add_row(alloc, gates, sum.as_slice(), a, b[i], i)?;
    }
    Ok(sum)
}
