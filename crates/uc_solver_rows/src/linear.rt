//! Worked examples.

use std::alloc::{AllocError, Global};
use std::process::Abort;
use uc_linear::{
    Form, LinearError, Wide, WideOp, add, combine, difference, product, scale, sum, tighten,
};

/// A form; where the pairs make none, its constant alone.
fn form(alloc: Global, constant: i128, pairs: &[(u32, i128)]) -> Result<Form, AllocError> {
    let pairs = Vec::from_slice(alloc, pairs)?;
    match Form::of(constant, pairs) {
        Some(form) => Ok(form),
        None => Ok(Form::number(alloc, constant)),
    }
}

fn is(form: &Form, constant: i128, pairs: &[(u32, i128)]) -> bool {
    form.constant() == constant && form.pairs() == pairs
}

fn sum_is(
    alloc: Global,
    a: &Form,
    b: &Form,
    constant: i128,
    pairs: &[(u32, i128)],
) -> Result<bool, LinearError> {
    Ok(is(&add(alloc, a, b)?, constant, pairs))
}

fn multiple_is(
    alloc: Global,
    a: &Form,
    factor: i128,
    constant: i128,
    pairs: &[(u32, i128)],
) -> Result<bool, LinearError> {
    Ok(is(&scale(alloc, a, factor)?, constant, pairs))
}

/// Whether twice the first form and once the second give these.
fn combination_is(
    alloc: Global,
    a: &Form,
    b: &Form,
    constant: i128,
    pairs: &[(u32, i128)],
) -> Result<bool, LinearError> {
    Ok(is(&combine(alloc, 2, a, 1, b)?, constant, pairs))
}

fn copy_is(
    alloc: Global,
    a: &Form,
    constant: i128,
    pairs: &[(u32, i128)],
) -> Result<bool, AllocError> {
    Ok(is(&a.copy(alloc)?, constant, pairs))
}

fn check_forms(rt: &impl Abort, alloc: Global, a: &Form, b: &Form) -> Result<(), LinearError> {
    assert!(rt; sum_is(alloc, a, b, 6, &[(3, 7), (4, 3)])?);
    assert!(rt; multiple_is(alloc, a, -3, -3, &[(0, -6), (4, -9)])?);
    assert!(rt; multiple_is(alloc, a, 0, 0, &[])?);
    assert!(rt; combination_is(alloc, a, b, 7, &[(0, 2), (3, 7), (4, 6)])?);
    assert!(rt; copy_is(alloc, a, 1, &[(0, 2), (4, 3)])?);
    Ok(())
}

#[test]
fn sums_multiples_and_combinations(rt: HostRuntime) -> Result<(), LinearError> {
    let alloc = rt.alloc();
    let a = form(alloc, 1, &[(0, 2), (4, 3)])?;
    let b = form(alloc, 5, &[(0, -2), (3, 7)])?;
    check_forms(&rt, alloc, &a, &b)
}

#[test]
fn only_rising_pairs_make_a_form(rt: HostRuntime) -> Result<(), AllocError> {
    let alloc = rt.alloc();
    let twice = Vec::from_slice(alloc, &[(1u32, 2i128), (1, 3)])?;
    assert!(rt; Form::of(0, twice).is_none());
    let nothing = Vec::from_slice(alloc, &[(1u32, 0i128)])?;
    assert!(rt; Form::of(0, nothing).is_none());
    let rising = Vec::from_slice(alloc, &[(1u32, 2i128), (2, 3)])?;
    assert!(rt; Form::of(0, rising).is_some());
    Ok(())
}

/// The constant and the pairs of a row.
type Row = (i128, &'static [(u32, i128)]);

/// Rows, and what they are tightened to.
const TIGHTENED: [(Row, Row); 4] = [
    ((-3, &[(0, 2), (1, -2)]), (-1, &[(0, 1), (1, -1)])),
    ((7, &[(0, 6), (1, -9)]), (3, &[(0, 2), (1, -3)])),
    ((7, &[]), (7, &[])),
    ((i128::MIN, &[(0, i128::MIN)]), (-1, &[(0, -1)])),
];

#[test]
fn rows_are_tightened(rt: HostRuntime) -> Result<(), AllocError> {
    let alloc = rt.alloc();
    for ((constant, pairs), (tight, tight_pairs)) in TIGHTENED {
        let mut row = form(alloc, constant, pairs)?;
        tighten(&mut row);
        assert!(rt; is(&row, tight, tight_pairs));
    }
    Ok(())
}

#[test]
fn what_leaves_128_bits_is_told(rt: HostRuntime) -> Result<(), LinearError> {
    let alloc = rt.alloc();
    let r = form(alloc, i128::MAX, &[(0, 1)])?;
    let s = form(alloc, 1, &[])?;
    let cases = [
        (
            told(combine(alloc, 1, &r, 1, &s)),
            wide(WideOp::Add, i128::MAX, 1),
        ),
        (told(add(alloc, &r, &s)), wide(WideOp::Add, i128::MAX, 1)),
        (told(scale(alloc, &r, 2)), wide(WideOp::Mul, i128::MAX, 2)),
        (told(sum(i128::MIN, -1)), wide(WideOp::Add, i128::MIN, -1)),
        (
            told(difference(i128::MIN, 1)),
            wide(WideOp::Sub, i128::MIN, 1),
        ),
        (
            told(product(i128::MIN, -1)),
            wide(WideOp::Mul, i128::MIN, -1),
        ),
    ];
    for (told, want) in cases {
        assert!(rt; told == Some(want));
    }
    Ok(())
}

fn wide(op: WideOp, a: i128, b: i128) -> Wide {
    Wide { op, a, b }
}

fn told<T: Drop>(answer: Result<T, LinearError>) -> Option<Wide> {
    match answer {
        Err(LinearError::Wide(wide)) => Some(wide),
        _ => None,
    }
}
