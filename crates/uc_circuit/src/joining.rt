//! Numbers of other widths, which take no gates.

ghost use Rattle.std.specs.Prelude.{◌≡◌, ◌≤◌, ◌<◌, ◌+◌, ◌-◌, length, IfOk};
ghost use Rattle.uc_values.specs.Operators.{concatenated, extracted, sign_extended};
ghost use Rattle.uc_circuit.specs.Signals.{number, AllBelow};
ghost use Rattle.uc_circuit.specs.Building.{Building, size};
ghost use Rattle.uc_circuit.specs.Meanings.{Amounts};

use crate::Signal;
use std::alloc::{AllocError, Global};

/// The first number as the high part.
pub fn concat(alloc: Global, high: &[Signal], low: &[Signal]) -> Result<Vec<Signal>, AllocError>
    ensures { IfOk result (λ r. (b : Building) → AllBelow (size b) high.now → AllBelow (size b) low.now → Amounts b (length high.now + length low.now) (λ v. concatenated (length low.now) (number v high.now) (number v low.now)) r.items) }
{
    let mut bits = Vec::from_slice(alloc, low)?;
    bits.extend_from_slice(high)?;
    Ok(bits)
}

/// The bits from high down to low, both included.
pub fn extract(
    alloc: Global,
    a: &[Signal],
    high: usize,
    low: usize,
) -> Result<Vec<Signal>, AllocError>
    requires low { low ≤ high }
    requires high { high < length a.now }
    ensures { IfOk result (λ r. (b : Building) → AllBelow (size b) a.now → Amounts b (high - low + 1) (λ v. extracted high low (number v a.now)) r.items) }
{
    let upper = &a[low..];
    let bits = Vec::from_slice(alloc, &upper[..high - low + 1])?;
    Ok(bits)
}

/// The number with so many zeros before it.
pub fn zero_extend(alloc: Global, a: &[Signal], more: usize) -> Result<Vec<Signal>, AllocError>
    ensures { IfOk result (λ r. (b : Building) → AllBelow (size b) a.now → Amounts b (length a.now + more) (λ v. number v a.now) r.items) }
{
    let zeros = vec![in alloc; Signal::Constant(false); more]?;
    let mut bits = Vec::from_slice(alloc, a)?;
    bits.extend_from_slice(zeros.as_slice())?;
    Ok(bits)
}

/// The number with so many copies of its highest bit before it.
pub fn sign_extend(alloc: Global, a: &[Signal], more: usize) -> Result<Vec<Signal>, AllocError>
    requires { 0 < length a.now }
    ensures { IfOk result (λ r. (b : Building) → AllBelow (size b) a.now → Amounts b (length a.now + more) (λ v. sign_extended (length a.now) more (number v a.now)) r.items) }
{
    let copies = vec![in alloc; a[a.len() - 1]; more]?;
    let mut bits = Vec::from_slice(alloc, a)?;
    bits.extend_from_slice(copies.as_slice())?;
    Ok(bits)
}
