//! The operations on bit-vectors, row by row.

use crate::bits::{Pair, Single, on_concat, on_pair, on_single};
use std::alloc::Global;
use std::process::Abort;
use std::test::Fail;
use uc_linear::LinearError;
use uc_values::Value;

type PairRow = (Pair, u8, u64, u64, u64);

type ComparisonRow = (Pair, u8, u64, u64, bool);

type SingleRow = (Single, u8, u64, u8, u64);

type ConcatRow = ((u8, u64), (u8, u64), (u8, u64));

/// All bits of the greatest width.
const ALL: u64 = u64::MAX;

/// The operation, the width, both bit-vectors, and what it gives.
fn pairs() -> [PairRow; 32] {
    [
        (Pair::Add, 1, 1, 1, 0),
        (Pair::Add, 4, 15, 1, 0),
        (Pair::Add, 8, 200, 100, 44),
        (Pair::Add, 64, ALL, 2, 1),
        (Pair::Sub, 4, 0, 1, 15),
        (Pair::Sub, 8, 100, 200, 156),
        (Pair::Sub, 16, 500, 300, 200),
        (Pair::Mul, 4, 7, 3, 5),
        (Pair::Mul, 8, 16, 16, 0),
        (Pair::Mul, 32, 65_537, 65_537, 131_073),
        (Pair::And, 4, 0b1100, 0b1010, 0b1000),
        (Pair::And, 8, 0xf0, 0x3c, 0x30),
        (Pair::And, 64, ALL, 0x1234, 0x1234),
        (Pair::Or, 4, 0b1100, 0b1010, 0b1110),
        (Pair::Or, 8, 0xf0, 0x0f, 0xff),
        (Pair::Or, 8, 0, 0, 0),
        (Pair::Xor, 4, 0b1100, 0b1010, 0b0110),
        (Pair::Xor, 8, 0xff, 0x0f, 0xf0),
        (Pair::Xor, 64, ALL, ALL, 0),
        (Pair::Shl, 4, 0b0011, 1, 0b0110),
        (Pair::Shl, 4, 0b1001, 2, 0b0100),
        (Pair::Shl, 8, 1, 7, 128),
        (Pair::Shl, 8, 255, 8, 0),
        (Pair::Lshr, 4, 0b1100, 2, 0b0011),
        (Pair::Lshr, 8, 128, 7, 1),
        (Pair::Lshr, 8, 255, 8, 0),
        (Pair::Lshr, 64, ALL, 64, 0),
        (Pair::Ashr, 4, 0b1100, 1, 0b1110),
        (Pair::Ashr, 8, 128, 7, 255),
        (Pair::Ashr, 8, 64, 3, 8),
        (Pair::Ashr, 8, 128, 200, 255),
        (Pair::Ashr, 8, 127, 9, 0),
    ]
}

/// The comparison, the width, both bit-vectors, and whether it holds.
fn comparisons() -> [ComparisonRow; 13] {
    [
        (Pair::Slt, 4, 15, 0, true),
        (Pair::Slt, 4, 7, 8, false),
        (Pair::Slt, 8, 128, 127, true),
        (Pair::Slt, 4, 3, 3, false),
        (Pair::Sle, 4, 8, 7, true),
        (Pair::Sle, 4, 5, 5, true),
        (Pair::Sle, 4, 0, 15, false),
        (Pair::Ult, 4, 15, 0, false),
        (Pair::Ult, 4, 7, 8, true),
        (Pair::Ult, 8, 9, 9, false),
        (Pair::Ule, 8, 9, 9, true),
        (Pair::Ule, 4, 8, 7, false),
        (Pair::Ule, 4, 0, 15, true),
    ]
}

/// The operation, the width, the bit-vector, and the width and the bits of what it gives.
fn singles() -> [SingleRow; 16] {
    [
        (Single::Neg, 4, 1, 4, 15),
        (Single::Neg, 4, 8, 4, 8),
        (Single::Neg, 8, 0, 8, 0),
        (Single::Not, 4, 0b0101, 4, 0b1010),
        (Single::Not, 8, 0, 8, 255),
        (Single::Not, 64, 0, 64, ALL),
        (Single::Extract(3, 0), 8, 0xab, 4, 0xb),
        (Single::Extract(7, 4), 8, 0xab, 4, 0xa),
        (Single::Extract(5, 2), 8, 0b1011_0100, 4, 0b1101),
        (Single::Extract(63, 63), 64, 1 << 63, 1, 1),
        (Single::ZeroExt(4), 4, 15, 8, 15),
        (Single::ZeroExt(60), 4, 8, 64, 8),
        (Single::ZeroExt(0), 8, 200, 8, 200),
        (Single::SignExt(4), 4, 15, 8, 255),
        (Single::SignExt(4), 4, 7, 8, 7),
        (
            Single::SignExt(32),
            32,
            0x8000_0000,
            64,
            0xffff_ffff_8000_0000,
        ),
    ]
}

/// Two bit-vectors with their widths, and the width and the bits of both together.
fn concats() -> [ConcatRow; 4] {
    [
        ((4, 0xa), (4, 0xb), (8, 0xab)),
        ((1, 1), (3, 0), (4, 0b1000)),
        ((8, 0), (8, 255), (16, 255)),
        ((32, 1), (32, 2), (64, 0x1_0000_0002)),
    ]
}

/// The width and the bits of a bit-vector.
fn bits_of(value: Option<Value>) -> Option<(u8, u64)> {
    match &value {
        Some(Value::Bv(width, bits)) => Some((*width, *bits)),
        _ => None,
    }
}

fn truth_of(value: Option<Value>) -> Option<bool> {
    match &value {
        Some(Value::Bool(truth)) => Some(*truth),
        _ => None,
    }
}

/// The first row that is not as in the theory.
fn wrong_pair(alloc: Global) -> Result<Option<usize>, LinearError> {
    for (row, (pair, width, a, b, bits)) in pairs().into_iter().enumerate() {
        if bits_of(on_pair(alloc, pair, width, a, b)?) != Some((width, bits)) {
            return Ok(Some(row));
        }
    }
    Ok(None)
}

fn wrong_comparison(alloc: Global) -> Result<Option<usize>, LinearError> {
    for (row, (pair, width, a, b, truth)) in comparisons().into_iter().enumerate() {
        if truth_of(on_pair(alloc, pair, width, a, b)?) != Some(truth) {
            return Ok(Some(row));
        }
    }
    Ok(None)
}

fn wrong_single(alloc: Global) -> Result<Option<usize>, LinearError> {
    for (row, (single, width, a, wide, bits)) in singles().into_iter().enumerate() {
        if bits_of(on_single(alloc, single, width, a)?) != Some((wide, bits)) {
            return Ok(Some(row));
        }
    }
    Ok(None)
}

fn wrong_concat(alloc: Global) -> Result<Option<usize>, LinearError> {
    for (row, (high, low, both)) in concats().into_iter().enumerate() {
        if bits_of(on_concat(alloc, high, low)?) != Some(both) {
            return Ok(Some(row));
        }
    }
    Ok(None)
}

/// No row is wrong.
fn check_none(rt: &impl Abort, wrong: Option<usize>) {
    assert_eq!(rt; wrong, None);
}

#[test]
fn bit_vectors_are_as_in_the_theory(rt: HostRuntime) -> Result<(), Fail> {
    let alloc = rt.alloc();
    check_none(&rt, wrong_pair(alloc)?);
    check_none(&rt, wrong_comparison(alloc)?);
    check_none(&rt, wrong_single(alloc)?);
    check_none(&rt, wrong_concat(alloc)?);
    Ok(())
}
