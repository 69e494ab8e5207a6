//! The operations on truth values, integers, functions, arrays and records, row by row.

use crate::others::{
    all_of, applied, are_equal, choice, constant, difference, is_at_most, made_record, multiple,
    on_truth, one_of, record, selected, stored, sum, taken_field, told,
};
use std::alloc::Global;
use std::test::Fail;
use uc_linear::{LinearError, Wide, WideOp};
use uc_values::{Value, lookup};

/// Three truth values, whether all hold, and whether one does.
fn junctions() -> [(bool, bool, bool, bool, bool); 4] {
    [
        (true, true, true, true, true),
        (true, false, true, false, true),
        (false, false, true, false, true),
        (false, false, false, false, false),
    ]
}

/// The test, both integers, and the one that is chosen.
fn choices() -> [(bool, i128, i128, i128); 3] {
    [(true, 5, 6, 5), (false, 5, 6, 6), (false, 0, -3, -3)]
}

/// Both integers, whether they are equal, and whether the first is at most the second.
fn comparisons() -> [(i128, i128, bool, bool); 4] {
    [
        (3, 3, true, true),
        (3, 4, false, true),
        (4, 3, false, false),
        (-5, 2, false, true),
    ]
}

/// Three integers and their sum.
fn sums() -> [(i128, i128, i128, i128); 4] {
    [
        (1, 2, 3, 6),
        (-4, 4, 0, 0),
        (10, -25, 5, -10),
        (i128::MAX, i128::MIN, 1, 0),
    ]
}

/// The factor, the integer and the multiple.
fn multiples() -> [(i128, i128, i128); 4] {
    [(3, 7, 21), (-2, 5, -10), (0, 9, 0), (-1, -8, 8)]
}

/// The only row of a function, an argument, and the result.
fn applications() -> [((i128, i128), i128, i128); 3] {
    [((3, 5), 3, 5), ((3, 5), 4, 0), ((-1, 8), -1, 8)]
}

/// An array with two exceptions.
fn two() -> [(i128, i128); 2] {
    [(3, 5), (4, 6)]
}

/// An index, and the element of `two` there.
fn selections() -> [(i128, i128); 3] {
    [(3, 5), (4, 6), (7, 0)]
}

/// An index and an element that are stored in `two`, an index that is read, and the element there.
fn stores() -> [(i128, i128, i128, i128); 4] {
    [(3, 9, 3, 9), (3, 9, 4, 6), (8, 1, 8, 1), (8, 1, 7, 0)]
}

/// The parts of a record.
fn records() -> [(bool, i128); 3] {
    [(true, 1), (false, -2), (true, 300)]
}

fn is_truth(value: Value, truth: bool) -> bool {
    value == Value::Bool(truth)
}

fn is_number(value: Value, number: i128) -> bool {
    value == Value::Int(number)
}

/// Whether an array holds the element at the index.
fn holds(array: Value, index: i128, element: i128) -> bool {
    *lookup(&array, &Value::Int(index)) == Value::Int(element)
}

/// Whether all rows are as they should be.
fn junctions_hold(alloc: Global) -> Result<bool, LinearError> {
    for (a, b, c, all, one) in junctions() {
        if !is_truth(all_of(alloc, a, b, c)?, all) || !is_truth(one_of(alloc, a, b, c)?, one) {
            return Ok(false);
        }
    }
    Ok(true)
}

fn choices_hold(alloc: Global) -> Result<bool, LinearError> {
    for (test, a, b, chosen) in choices() {
        if !is_number(choice(alloc, test, a, b)?, chosen) {
            return Ok(false);
        }
    }
    Ok(true)
}

fn comparisons_hold(alloc: Global) -> Result<bool, LinearError> {
    for (a, b, equal, at_most) in comparisons() {
        if !is_truth(are_equal(alloc, a, b)?, equal) {
            return Ok(false);
        }
        if !is_truth(is_at_most(alloc, a, b)?, at_most) {
            return Ok(false);
        }
    }
    Ok(true)
}

fn sums_hold(alloc: Global) -> Result<bool, LinearError> {
    for (a, b, c, total) in sums() {
        if !is_number(sum(alloc, a, b, c)?, total) {
            return Ok(false);
        }
    }
    Ok(true)
}

/// The operation that leaves 128 bits in a sum, if one does.
fn wide_in_sum(alloc: Global, a: i128, b: i128, c: i128) -> Option<Wide> {
    match sum(alloc, a, b, c) {
        Err(LinearError::Wide(wide)) => Some(wide),
        _ => None,
    }
}

fn multiples_hold(alloc: Global) -> Result<bool, LinearError> {
    for (factor, a, product) in multiples() {
        if !is_number(multiple(alloc, factor, a)?, product) {
            return Ok(false);
        }
    }
    Ok(true)
}

fn applications_hold(alloc: Global) -> Result<bool, LinearError> {
    for (row, argument, result) in applications() {
        if !is_number(applied(alloc, row, argument)?, result) {
            return Ok(false);
        }
    }
    Ok(true)
}

fn selections_hold(alloc: Global) -> Result<bool, LinearError> {
    for (index, element) in selections() {
        if !is_number(selected(alloc, &two(), index)?, element) {
            return Ok(false);
        }
    }
    Ok(true)
}

fn stores_hold(alloc: Global) -> Result<bool, LinearError> {
    for (index, element, read, found) in stores() {
        if !holds(stored(alloc, &two(), index, element)?, read, found) {
            return Ok(false);
        }
    }
    Ok(true)
}

fn records_hold(alloc: Global) -> Result<bool, LinearError> {
    for (truth, number) in records() {
        if !is_made(alloc, truth, number)? {
            return Ok(false);
        }
        if !is_truth(taken_field(alloc, truth, number, false)?, truth) {
            return Ok(false);
        }
        if !is_number(taken_field(alloc, truth, number, true)?, number) {
            return Ok(false);
        }
    }
    Ok(true)
}

/// Whether a record is made of its parts.
fn is_made(alloc: Global, truth: bool, number: i128) -> Result<bool, LinearError> {
    let made = made_record(alloc, truth, number)?;
    Ok(made == record(alloc, truth, number)?)
}

#[test]
fn truth_values_and_integers_are_as_in_arithmetic(rt: HostRuntime) -> Result<(), Fail> {
    let alloc = rt.alloc();
    assert!(rt; is_truth(on_truth(alloc, true)?, false));
    assert!(rt; is_truth(on_truth(alloc, false)?, true));
    assert!(rt; junctions_hold(alloc)?);
    assert!(rt; choices_hold(alloc)?);
    assert!(rt; comparisons_hold(alloc)?);
    assert!(rt; sums_hold(alloc)?);
    let wide = Wide {
        op: WideOp::Add,
        a: i128::MAX,
        b: 1,
    };
    assert_eq!(rt; wide_in_sum(alloc, i128::MAX, 1, 0), Some(wide));
    assert!(rt; multiples_hold(alloc)?);
    Ok(())
}

#[test]
fn symbols_and_functions_are_as_the_model_says(rt: HostRuntime) -> Result<(), Fail> {
    let alloc = rt.alloc();
    assert!(rt; is_number(constant(alloc, -7)?, -7));
    assert!(rt; is_number(constant(alloc, 0)?, 0));
    assert!(rt; is_number(constant(alloc, i128::MAX)?, i128::MAX));
    assert!(rt; is_number(told(alloc, Value::Int(-7))?, -7));
    assert!(rt; is_number(told(alloc, Value::Int(12))?, 12));
    assert!(rt; is_number(told(alloc, Value::Bool(true))?, 0));
    assert!(rt; applications_hold(alloc)?);
    Ok(())
}

#[test]
fn arrays_and_records_are_as_in_their_theories(rt: HostRuntime) -> Result<(), Fail> {
    let alloc = rt.alloc();
    assert!(rt; selections_hold(alloc)?);
    assert!(rt; stores_hold(alloc)?);
    assert!(rt; is_number(difference(alloc, &[(3, 5)], &[])?, 3));
    assert!(rt; is_number(difference(alloc, &[], &[(7, 1)])?, 7));
    assert!(rt; is_number(difference(alloc, &two(), &[(3, 5)])?, 4));
    assert!(rt; records_hold(alloc)?);
    Ok(())
}
