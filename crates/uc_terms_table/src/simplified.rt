//! For every rule a term before it and after.

use crate::words::Word::{self, *};
use crate::words::built;
use std::alloc::{AllocError, Global};
use std::test::Fail;
use uc_simplify::simplify;
use uc_terms::Terms;

/// The words of a term, and those of what it is simplified to.
type Row = (&'static [Word], &'static [Word]);

const P: Word = Truth(0);

const Q: Word = Truth(1);

const X: Word = Byte(3);

const Y: Word = Byte(4);

const Z: Word = Byte(5);

const I: Word = Integer(6);

const J: Word = Integer(7);

const K: Word = Integer(8);

/// The greatest integer of 128 bits.
const MOST: Word = Number(i128::MAX);

/// Rules for truths, conditionals and equalities.
const TRUTHS: [Row; 26] = [
    (&[True], &[True]),
    (&[True, Not], &[False]),
    (&[P, Not, Not], &[P]),
    (&[P, Q, And, Q, And], &[P, Q, And]),
    (&[Q, P, P, And, And], &[Q, P, And]),
    (&[P, True, And], &[P]),
    (&[P, False, And], &[False]),
    (&[P, Q, And, P, Not, And], &[False]),
    (&[P, P, Or], &[P]),
    (&[P, True, Or], &[True]),
    (&[P, False, Or], &[P]),
    (&[P, P, Not, Or], &[True]),
    (&[True, X, Y, If], &[X]),
    (&[False, X, Y, If], &[Y]),
    (&[P, X, X, If], &[X]),
    (&[P, Not, X, Y, If], &[P, Y, X, If]),
    (&[P, True, False, If], &[P]),
    (&[P, False, True, If], &[P, Not]),
    (&[Bits(1), Bits(2), Equal], &[False]),
    (&[P, True, Equal], &[P]),
    (&[False, P, Equal], &[P, Not]),
    (&[X, X, Equal], &[True]),
    (&[Y, X, Equal, X, Y, Equal, And], &[Y, X, Equal]),
    (&[X, Y, X, Y, EqualPairs], &[True]),
    (&[X, Y, X, Z, EqualPairs], &[Y, Z, Equal]),
    (&[X, Y, X, Z, EqualStores], &[Y, Z, Equal]),
];

/// Rules for bit-vectors.
const BITS: [Row; 41] = [
    (&[Bits(200), Bits(100), BvAdd], &[Bits(44)]),
    (&[Bits(128), Bits(127), Slt], &[True]),
    (&[Bits(128), Bits(127), Ult], &[False]),
    (&[X, X, Ule], &[True]),
    (&[X, X, Sle], &[True]),
    (&[X, X, Slt], &[False]),
    (&[X, X, Ult], &[False]),
    (&[Y, X, BvAdd, X, Y, BvAdd, Equal], &[True]),
    (&[Bits(3), X, BvAdd], &[X, Bits(3), BvAdd]),
    (&[X, Bits(0), BvAdd], &[X]),
    (&[X, Bits(0), BvSub], &[X]),
    (&[X, Bits(0), BvOr], &[X]),
    (&[X, Bits(0), BvXor], &[X]),
    (&[X, Bits(0), Shl], &[X]),
    (&[X, Bits(0), Lshr], &[X]),
    (&[X, Bits(0), Ashr], &[X]),
    (&[X, Bits(1), BvMul], &[X]),
    (&[X, Bits(255), BvAnd], &[X]),
    (&[X, Bits(0), BvMul], &[Bits(0)]),
    (&[X, Bits(0), BvAnd], &[Bits(0)]),
    (&[X, Bits(255), BvOr], &[Bits(255)]),
    (&[X, X, BvAnd], &[X]),
    (&[X, X, BvOr], &[X]),
    (&[X, X, BvSub], &[Bits(0)]),
    (&[X, X, BvXor], &[Bits(0)]),
    (&[X, Bits(8), Shl], &[Bits(0)]),
    (&[X, Bits(9), Lshr], &[Bits(0)]),
    (&[X, BvNot, BvNot], &[X]),
    (&[X, BvNeg, BvNeg], &[X]),
    (&[X, Extract(7, 0)], &[X]),
    (&[X, Y, Concat, ExtractWide(7, 0)], &[Y]),
    (&[X, Y, Concat, ExtractWide(15, 8)], &[X]),
    (
        &[X, Y, Concat, ExtractWide(11, 4), Extract(3, 1)],
        &[Y, Extract(7, 5)],
    ),
    (&[X, Y, Concat, ExtractWide(11, 9)], &[X, Extract(3, 1)]),
    (&[X, ZeroExt(8), ExtractWide(7, 0)], &[X]),
    (&[X, SignExt(8), ExtractWide(5, 2)], &[X, Extract(5, 2)]),
    (&[X, ZeroExt(8), ExtractWide(15, 8)], &[Bits(0)]),
    (&[Bits(200), SignExt(8)], &[Wide(65480)]),
    (&[X, ZeroExt(0)], &[X]),
    (&[X, ZeroExt(8), ZeroExtWide(4)], &[X, ZeroExt(12)]),
    (&[X, SignExt(8), SignExtWide(4)], &[X, SignExt(12)]),
];

/// Rules for integers.
const INTEGERS: [Row; 28] = [
    (&[Number(2), Number(3), Add], &[Number(5)]),
    (&[MOST, Number(1), Add], &[MOST, Number(1), Add]),
    (&[Number(3), Scale(-4)], &[Number(-12)]),
    (&[MOST, Scale(2)], &[MOST, Scale(2)]),
    (&[I, Number(0), Add], &[I]),
    (&[I, I, Scale(-1), Add], &[Number(0)]),
    (&[I, Scale(1)], &[I]),
    (&[I, Scale(0)], &[Number(0)]),
    (&[I, Scale(3), Scale(2)], &[I, Scale(6)]),
    (&[I, I, Add], &[I, Scale(2)]),
    (&[J, I, Add, I, J, Add, Equal], &[True]),
    (&[I, J, Add, I, Scale(-1), Add], &[J]),
    (&[I, Number(1), Add, Number(2), Add], &[I, Number(3), Add]),
    (&[I, J, Add, Scale(2)], &[I, Scale(2), J, Scale(2), Add]),
    (&[I, I, Le], &[True]),
    (&[Number(3), Number(2), Le], &[False]),
    (&[I, Number(1), Add, I, Le], &[False]),
    (&[I, J, Le], &[I, J, Le]),
    (&[I, K, Add, J, K, Add, Le], &[I, J, Le]),
    (&[I, Scale(-1), J, Scale(-1), Le], &[J, I, Le]),
    (&[I, Number(2), Add, Number(5), Le], &[I, Number(3), Le]),
    (&[Number(2), I, Number(5), Add, Le], &[Number(-3), I, Le]),
    (&[I, Number(1), Add, I, Equal], &[False]),
    (&[I, K, Add, J, K, Add, Equal], &[I, J, Equal]),
    (
        &[I, Number(2), Add, Number(5), Equal],
        &[I, Number(3), Equal],
    ),
    (&[I, J, Equal, J, I, Equal, And], &[I, J, Equal]),
    (
        &[I, J, Scale(-1), Add, Number(3), Equal],
        &[I, J, Number(3), Add, Equal],
    ),
    (
        &[J, Scale(-1), I, Add, Number(3), Equal],
        &[J, I, Number(-3), Add, Equal],
    ),
];

/// Rules for records and arrays.
const PLACES: [Row; 5] = [
    (&[X, Y, SecondField], &[Y]),
    (&[X, Y, X, HeldAfter], &[Y]),
    (&[Bits(1), Y, Bits(1), HeldAfter], &[Y]),
    (&[Bits(1), Y, Bits(2), HeldAfter], &[Bits(2), Held]),
    (&[X, Y, Z, HeldAfter], &[X, Y, Z, HeldAfter]),
];

/// Whether a term is simplified to the other.
fn holds(alloc: Global, row: &Row) -> Result<bool, AllocError> {
    let mut terms = Terms::new(alloc)?;
    holds_among(alloc, &mut terms, row)
}

/// Whether it is where both are made among these terms.
fn holds_among(alloc: Global, terms: &mut Terms, row: &Row) -> Result<bool, AllocError> {
    let Some(before) = built(terms, alloc, row.0)? else {
        return Ok(false);
    };
    let answer = simplify(alloc, terms, before)?;
    let Some(after) = built(terms, alloc, row.1)? else {
        return Ok(false);
    };
    Ok(answer == after)
}

/// The place of the first row that does not hold.
fn first_wrong(alloc: Global, rows: &[Row]) -> Result<Option<usize>, AllocError> {
    for place in 0..rows.len() {
        if !holds(alloc, &rows[place])? {
            return Ok(Some(place));
        }
    }
    Ok(None)
}

#[test]
fn rows_of_truths(rt: HostRuntime) -> Result<(), Fail> {
    assert_eq!(rt; first_wrong(rt.alloc(), &TRUTHS)?, None);
    Ok(())
}

#[test]
fn rows_of_bits(rt: HostRuntime) -> Result<(), Fail> {
    assert_eq!(rt; first_wrong(rt.alloc(), &BITS)?, None);
    Ok(())
}

#[test]
fn rows_of_integers(rt: HostRuntime) -> Result<(), Fail> {
    assert_eq!(rt; first_wrong(rt.alloc(), &INTEGERS)?, None);
    Ok(())
}

#[test]
fn rows_of_places(rt: HostRuntime) -> Result<(), Fail> {
    assert_eq!(rt; first_wrong(rt.alloc(), &PLACES)?, None);
    Ok(())
}
