//! Shifts.

ghost use Rattle.std.specs.Prelude.{◌≡◌, ◌≤◌, ◌<◌, ◌^◌, ℕ, length, nat_lt, IfOk};
ghost use Rattle.uc_circuit.specs.Signals.{number, Below, AllBelow};
ghost use Rattle.uc_circuit.specs.Building.{Grows, size};
ghost use Rattle.uc_circuit.specs.Meanings.{Means, Amounts};
ghost use Rattle.uc_circuit.specs.Shifting.{shifted, moved, fill_of};

use crate::{Gates, Signal, choose_each};
use std::alloc::{AllocError, Global};

/// Where a shift goes to.
#[derive(Clone, Copy, Debug, PartialEq, Eq)]
pub enum Shift {
    /// Filled with 0.
    Left,
    /// Filled with copies of the signal.
    Right(Signal),
}

impl Shift {
    /// The signal that fills.
    fn fill(self) -> Signal
        ensures { result ≡ fill_of self }
    {
        match self {
            Shift::Left => Signal::Constant(false),
            Shift::Right(fill) => fill,
        }
    }
}

/// The signals, moved by so many places.
fn move_by(
    alloc: Global,
    shift: Shift,
    a: &[Signal],
    places: usize,
) -> Result<Vec<Signal>, AllocError>
    requires { places ≤ length a.now }
    ensures { IfOk result (λ r. r.items ≡ moved shift a.now places) }
{
    match shift {
        Shift::Left => {
            let mut bits = vec![in alloc; Signal::Constant(false); places]?;
            bits.extend_from_slice(&a[..a.len() - places])?;
            Ok(bits)
        }
        Shift::Right(fill) => {
            let fills = vec![in alloc; fill; places]?;
            let mut bits = Vec::from_slice(alloc, &a[places..])?;
            bits.extend_from_slice(fills.as_slice())?;
            Ok(bits)
        }
    }
}

/// How many bits of an amount shift by fewer places than the width.
fn near_bits(width: usize) -> usize
    requires { width ≤ 64 }
    ensures within { result ≤ width }
    ensures near { (i : ℕ) → i < result → 2 ^ i < width }
    ensures far { width ≤ 2 ^ result }
{
    let mut places = 1;
    for bit in 0..width {
        if width <= places {
            return bit;
        }
        places *= 2;
    }
    width
}

/// The shift by an amount whose bits each shift by fewer places than the width: a choice for each bit.
fn shift_near(
    alloc: Global,
    gates: &mut Gates,
    shift: Shift,
    a: &[Signal],
    amount: &[Signal],
) -> Result<Vec<Signal>, AllocError>
    requires a { AllBelow (size gates.old) a.now }
    requires amount { AllBelow (size gates.old) amount.now }
    requires fill { Below (size gates.old) (fill_of shift) }
    requires narrow { length a.now ≤ 64 }
    requires near { (i : ℕ) → i < length amount.now → 2 ^ i < length a.now }
    ensures grows { Grows gates.old gates.new }
    ensures ok { IfOk result (λ r. Amounts gates.new (length a.now) (λ v. shifted v (length a.now) shift (number v a.now) (number v amount.now)) r.items) }
{
    let mut bits = Vec::from_slice(alloc, a)?;
    let mut places = 1;
    for i in 0..amount.len() {
        let moved = move_by(alloc, shift, bits.as_slice(), places)?;
        bits = choose_each(alloc, gates, amount[i], moved.as_slice(), bits.as_slice())?;
        places *= 2;
    }
    Ok(bits)
}

/// Whether one of the signals is true.
pub fn any(gates: &mut Gates, a: &[Signal]) -> Result<Signal, AllocError>
    requires { AllBelow (size gates.old) a.now }
    ensures grows { Grows gates.old gates.new }
    ensures ok { IfOk result (Means gates.new (λ v. nat_lt 0 (number v a.now))) }
{
    let mut found = Signal::Constant(false);
    for i in 0..a.len() {
        found = gates.or(found, a[i])?;
    }
    Ok(found)
}

/// The shift by an amount of the same width.
pub fn shift_by(
    alloc: Global,
    gates: &mut Gates,
    shift: Shift,
    a: &[Signal],
    amount: &[Signal],
) -> Result<Vec<Signal>, AllocError>
    requires a { AllBelow (size gates.old) a.now }
    requires amount { AllBelow (size gates.old) amount.now }
    requires fill { Below (size gates.old) (fill_of shift) }
    requires long { length amount.now ≡ length a.now }
    requires narrow { length a.now ≤ 64 }
    ensures grows { Grows gates.old gates.new }
    ensures ok { IfOk result (λ r. Amounts gates.new (length a.now) (λ v. shifted v (length a.now) shift (number v a.now) (number v amount.now)) r.items) }
{
    let near = near_bits(a.len());
    let bits = shift_near(alloc, gates, shift, a, &amount[..near])?;
    let far = any(gates, &amount[near..])?;
    let fills = vec![in alloc; shift.fill(); a.len()]?;
    choose_each(alloc, gates, far, fills.as_slice(), bits.as_slice())
}
