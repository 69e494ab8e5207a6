//! Each operation on constants against plain arithmetic: gates on constants fold, so that what comes out is constant too.

ghost use Rattle.std.specs.Prelude.{◌≡◌, ◌<◌, ◌≤◌, ◌^◌, length};
ghost use Rattle.uc_circuit.specs.Signals.{AllBelow};
ghost use Rattle.uc_circuit.specs.Building.{size};

use std::alloc::{AllocError, Global};
use std::process::Abort;
use std::test::Fail;
use uc_circuit::{
    Gates, Lit, Shift, Signal, add, and_each, at_most, at_most_signed, choose_each, concat,
    constant, equal, extract, less, less_signed, multiply, negate, or_each, shift_by, sign_extend,
    subtract, turn_each, xor_each, zero_extend,
};

#[derive(Clone, Copy, Debug, PartialEq, Eq)]
enum Operation {
    Add,
    Subtract,
    Multiply,
    Negate,
    Turn,
    And,
    Or,
    Xor,
    Choose,
    Left,
    Right,
    RightSigned,
    Concat,
    Lowest,
    SignExtend,
    ZeroExtend,
    Equal,
    Less,
    AtMost,
    LessSigned,
    AtMostSigned,
}

/// The number of constant signals.
fn number_of(bits: &[Signal]) -> Option<u64> {
    let mut number = 0u64;
    for signal in bits.iter().rev() {
        match signal {
            Signal::Constant(truth) => {
                number = number.wrapping_mul(2).wrapping_add(u64::from(*truth));
            }
            Signal::Of(_) => return None,
        }
    }
    Some(number)
}

fn modulus(width: u8) -> u64
    requires { width ≤ 3 }
    ensures { result ≡ 2 ^ width }
{
    1u64 << width
}

/// The signals of an operation.
fn signals(
    alloc: Global,
    gates: &mut Gates,
    operation: Operation,
    x: &[Signal],
    y: &[Signal],
) -> Result<Vec<Signal>, AllocError>
    requires x { AllBelow (size gates.old) x.now }
    requires y { AllBelow (size gates.old) y.now }
    requires long { length y.now ≡ length x.now }
    requires some { 0 < length x.now }
    requires narrow { length x.now ≤ 64 }
{
    match operation {
        Operation::Add => add(alloc, gates, x, y),
        Operation::Subtract => subtract(alloc, gates, x, y),
        Operation::Multiply => multiply(alloc, gates, x, y),
        Operation::Negate => negate(alloc, gates, x),
        Operation::Turn => turn_each(alloc, x),
        Operation::And => and_each(alloc, gates, x, y),
        Operation::Or => or_each(alloc, gates, x, y),
        Operation::Xor => xor_each(alloc, gates, x, y),
        Operation::Choose => choose_each(alloc, gates, x[x.len() - 1], x, y),
        Operation::Left => shift_by(alloc, gates, Shift::Left, x, y),
        Operation::Right => shift_by(alloc, gates, Shift::Right(Signal::Constant(false)), x, y),
        Operation::RightSigned => shift_by(alloc, gates, Shift::Right(x[x.len() - 1]), x, y),
        Operation::Concat => concat(alloc, x, y),
        Operation::Lowest => extract(alloc, x, 0, 0),
        Operation::SignExtend => sign_extend(alloc, x, 2),
        Operation::ZeroExtend => zero_extend(alloc, x, 2),
        Operation::Equal => single(alloc, equal(gates, x, y)),
        Operation::Less => single(alloc, less(gates, x, y)),
        Operation::AtMost => single(alloc, at_most(gates, x, y)),
        Operation::LessSigned => single(alloc, less_signed(gates, x, y)),
        Operation::AtMostSigned => single(alloc, at_most_signed(gates, x, y)),
    }
}

fn single(alloc: Global, signal: Result<Signal, AllocError>) -> Result<Vec<Signal>, AllocError> {
    vec![in alloc; signal?; 1]
}

/// What an operation on constants gives.
fn folded(
    alloc: Global,
    operation: Operation,
    width: u8,
    a: u64,
    b: u64,
) -> Result<Option<u64>, AllocError>
    requires some { 1 ≤ width }
    requires narrow { width ≤ 3 }
    requires a { a < 2 ^ width }
    requires b { b < 2 ^ width }
{
    let x = constant(alloc, width, a)?;
    let y = constant(alloc, width, b)?;
    let mut gates = Gates::new(alloc, 0);
    let bits = signals(alloc, &mut gates, operation, x.as_slice(), y.as_slice())?;
    Ok(number_of(bits.as_slice()))
}

/// The same by plain arithmetic.
fn expected(operation: Operation, width: u8, a: u64, b: u64) -> u64
    requires { width ≤ 3 }
{
    let whole = modulus(width);
    let half = whole / 2;
    let flip = |n: u64| n.wrapping_add(half) % whole;
    let high = a >= half;
    match operation {
        Operation::Add => a.wrapping_add(b) % whole,
        Operation::Subtract => a.wrapping_add(whole).wrapping_sub(b) % whole,
        Operation::Multiply => a.wrapping_mul(b) % whole,
        Operation::Negate => whole.wrapping_sub(a) % whole,
        Operation::Turn => whole.wrapping_sub(1).wrapping_sub(a),
        Operation::And => a & b,
        Operation::Or => a | b,
        Operation::Xor => a ^ b,
        Operation::Choose => if high { a } else { b },
        Operation::Left => if b < 8 { (a << b) % whole } else { 0 },
        Operation::Right => if b < 8 { a >> b } else { 0 },
        Operation::RightSigned => {
            if b >= 8 {
                0
            } else if high {
                (a.wrapping_sub(whole).wrapping_add(1 << 20) >> b) % whole
            } else {
                a >> b
            }
        }
        Operation::Concat => a.wrapping_mul(whole).wrapping_add(b),
        Operation::Lowest => a % 2,
        Operation::SignExtend => if high {
            a.wrapping_add(whole.wrapping_mul(3))
        } else {
            a
        },
        Operation::ZeroExtend => a,
        Operation::Equal => u64::from(a == b),
        Operation::Less => u64::from(a < b),
        Operation::AtMost => u64::from(a <= b),
        Operation::LessSigned => u64::from(flip(a) < flip(b)),
        Operation::AtMostSigned => u64::from(flip(a) <= flip(b)),
    }
}

const OPERATIONS: [Operation; 21] = [
    Operation::Add,
    Operation::Subtract,
    Operation::Multiply,
    Operation::Negate,
    Operation::Turn,
    Operation::And,
    Operation::Or,
    Operation::Xor,
    Operation::Choose,
    Operation::Left,
    Operation::Right,
    Operation::RightSigned,
    Operation::Concat,
    Operation::Lowest,
    Operation::SignExtend,
    Operation::ZeroExtend,
    Operation::Equal,
    Operation::Less,
    Operation::AtMost,
    Operation::LessSigned,
    Operation::AtMostSigned,
];

fn agree_at(rt: &impl Abort, alloc: Global, width: u8) -> Result<(), AllocError>
    requires some { 1 ≤ width }
    requires narrow { width ≤ 3 }
{
    let whole = modulus(width);
    for a in 0..whole {
        for b in 0..whole {
            for operation in OPERATIONS {
                let found = folded(alloc, operation, width, a, b)?;
                let wanted = expected(operation, width, a, b);
                assert_eq!(rt;
                    found,
                    Some(wanted),
                    "{operation:?} of {a} and {b} at width {width}"
                );
            }
        }
    }
    Ok(())
}

#[test]
fn operations_agree_with_arithmetic(rt: HostRuntime) -> Result<(), Fail> {
    agree_at(&rt, rt.alloc(), 1)?;
    agree_at(&rt, rt.alloc(), 2)?;
    agree_at(&rt, rt.alloc(), 3)?;
    Ok(())
}

const A: Signal = Signal::Of(Lit { var: 0, neg: false });

const B: Signal = Signal::Of(Lit { var: 1, neg: true });

fn check_signal(rt: &impl Abort, found: Signal, wanted: Signal) {
    assert_eq!(rt; found, wanted);
}

/// A conjunction in both orders, and the disjunction that is its negation, are one gate.
fn share_conjunctions(rt: &impl Abort, gates: &mut Gates) -> Result<(), AllocError>
    requires { 2 ≤ size gates.old }
    ensures { 2 ≤ size gates.new }
{
    let both = gates.and(A, B)?;
    check_signal(rt, gates.and(B, A)?, both);
    assert_eq!(rt; gates.len(), 3, "one gate for both");
    let either = gates.or(A.turn(), B.turn())?;
    check_signal(rt, either, both.turn());
    Ok(())
}

/// Differences of a signal and of its negation are one gate, and so is a choice of opposites.
fn share_differences(rt: &impl Abort, gates: &mut Gates) -> Result<(), AllocError>
    requires { 2 ≤ size gates.old }
    ensures { 2 ≤ size gates.new }
{
    let differ = gates.xor(A, B)?;
    check_signal(rt, gates.xor(A.turn(), B)?, differ.turn());
    let chosen = gates.choose(A, B, B.turn())?;
    check_signal(rt, chosen, differ.turn());
    Ok(())
}

fn share_all(rt: &impl Abort, gates: &mut Gates) -> Result<(), AllocError>
    requires { 2 ≤ size gates.old }
{
    share_conjunctions(rt, gates)?;
    share_differences(rt, gates)?;
    check_signal(rt, gates.and(A, A.turn())?, Signal::Constant(false));
    assert_eq!(rt; gates.len(), 4);
    Ok(())
}

#[test]
fn gates_are_shared(rt: HostRuntime) -> Result<(), Fail> {
    let alloc = rt.alloc();
    let mut gates = Gates::new(alloc, 2);
    share_all(&rt, &mut gates)?;
    let circuit = gates.into_circuit(alloc)?;
    assert_eq!(rt; circuit.len(), 4);
    Ok(())
}
