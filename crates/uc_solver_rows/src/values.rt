//! Worked examples.

ghost use Rattle.std.specs.Prelude.{◌≡◌, length, IfOk};

use std::alloc::{AllocError, Global};
use std::process::Abort;
use uc_items::{Boxed, Items};
use uc_values::{
    Field, Row, Table, Ty, Typed, Unfit, Value, bits, copy, copy_all, copy_ty, field, fits, lookup,
    same, store, with_field, word, zero,
};

fn array(alloc: Global, default: Value) -> Result<Value, AllocError> {
    Ok(Value::Arr(Boxed::new(alloc, default)?, Items::new(alloc)))
}

fn two_values(alloc: Global, first: Value, second: Value) -> Result<Items<Value>, AllocError>
    ensures { IfOk result (λ vs. length vs ≡ 2) }
{
    let mut values = Items::new(alloc);
    values.push(first)?;
    values.push(second)?;
    Ok(values)
}

fn two_fields(alloc: Global, first: Ty, second: Ty) -> Result<Ty, AllocError> {
    let mut fields = Items::new(alloc);
    fields.push(Field { name: 0, ty: first })?;
    fields.push(Field {
        name: 1,
        ty: second,
    })?;
    Ok(Ty::Rec(fields))
}

fn array_type(alloc: Global, index: Ty, element: Ty) -> Result<Ty, AllocError> {
    Ok(Ty::Arr(Boxed::new(alloc, index)?, Boxed::new(alloc, element)?))
}

/// Whether an array holds a number at an index.
fn holds(array: &Value, index: i128, element: i128) -> bool {
    *lookup(array, &Value::Int(index)) == Value::Int(element)
}

/// How many indices of an array have an element of their own.
fn exceptions(array: &Value) -> Option<usize> {
    match array {
        Value::Arr(_, rows) => Some(rows.len()),
        _ => None,
    }
}

#[test]
fn a_store_changes_one_index(rt: HostRuntime) -> Result<(), AllocError> {
    let alloc = rt.alloc();
    let zeros = array(alloc, Value::Int(0))?;
    let stored = store(alloc, &zeros, &Value::Int(3), &Value::Int(5))?;
    assert!(rt; holds(&stored, 3, 5));
    assert!(rt; holds(&stored, 4, 0));
    let again = store(alloc, &stored, &Value::Int(3), &Value::Int(6))?;
    assert!(rt; exceptions(&again) == Some(1));
    Ok(())
}

/// Twos, but one at false.
fn half(alloc: Global) -> Result<Value, AllocError> {
    let twos = array(alloc, Value::Int(2))?;
    store(alloc, &twos, &Value::Bool(false), &Value::Int(1))
}

/// Twos, but one at false and at true.
fn full(alloc: Global) -> Result<Value, AllocError> {
    let half = half(alloc)?;
    store(alloc, &half, &Value::Bool(true), &Value::Int(1))
}

/// Whether arrays of integers by truths are the same.
fn are_same(alloc: Global, left: &Value, right: &Value) -> Result<bool, AllocError> {
    let ty = array_type(alloc, Ty::Bool, Ty::Int)?;
    Ok(same(left, right, &ty))
}

fn are_others(alloc: Global, ones: &Value, array: Value) -> Result<bool, AllocError> {
    Ok(!are_same(alloc, ones, &array)?)
}

/// What is one at false and at true is the same as ones, and yet is another value.
fn check_full(rt: &impl Abort, alloc: Global, ones: &Value) -> Result<(), AllocError> {
    let full = full(alloc)?;
    assert!(rt; are_same(alloc, ones, &full)?);
    assert!(rt; are_same(alloc, &full, ones)?);
    assert!(rt; *ones != full);
    Ok(())
}

#[test]
fn arrays_are_the_same_where_they_agree_at_every_index(rt: HostRuntime) -> Result<(), AllocError> {
    let alloc = rt.alloc();
    let ones = array(alloc, Value::Int(1))?;
    assert!(rt; are_others(alloc, &ones, array(alloc, Value::Int(2))?)?);
    assert!(rt; are_others(alloc, &ones, half(alloc)?)?);
    check_full(&rt, alloc, &ones)
}

#[test]
fn parts_of_records(rt: HostRuntime) -> Result<(), AllocError> {
    let alloc = rt.alloc();
    let before = Value::Rec(two_values(alloc, Value::Bool(true), Value::Bool(false))?);
    let after = with_field(alloc, &before, 1, &Value::Bool(true))?;
    assert!(rt; after == Value::Rec(two_values(alloc, Value::Bool(true), Value::Bool(true))?));
    assert!(rt; *field(&before, 1) == Value::Bool(false));
    Ok(())
}

fn bits_of(ty: Ty) -> Option<u64> {
    bits(&ty)
}

#[test]
fn bits_of_types(rt: HostRuntime) -> Result<(), AllocError> {
    let alloc = rt.alloc();
    assert!(rt; bits_of(Ty::Bool) == Some(1));
    assert!(rt; bits_of(Ty::Bv(64)) == Some(64));
    for (labels, count) in [(1, 1), (2, 1), (4, 2), (5, 3), (4_096, 12)] {
        assert!(rt; bits_of(Ty::Enum(0, labels)) == Some(count));
    }
    assert!(rt; bits_of(Ty::Int) == None);
    assert!(rt; bits_of(Ty::Un(0)) == None);
    assert!(rt; bits_of(two_fields(alloc, Ty::Bv(3), Ty::Enum(0, 5))?) == Some(6));
    assert!(rt; bits_of(two_fields(alloc, Ty::Bool, Ty::Int)?) == None);
    assert!(rt; bits_of(array_type(alloc, Ty::Bool, Ty::Bool)?) == None);
    Ok(())
}

/// A record of bits and of an array.
fn bits_and_array(alloc: Global) -> Result<Ty, AllocError> {
    let array = array_type(alloc, Ty::Bool, Ty::Enum(2, 3))?;
    two_fields(alloc, Ty::Bv(4), array)
}

fn is_type_copied(alloc: Global, ty: &Ty) -> Result<bool, AllocError> {
    Ok(copy_ty(alloc, ty)? == *ty)
}

fn is_value_copied(alloc: Global, value: &Value) -> Result<bool, AllocError> {
    Ok(copy(alloc, value)? == *value)
}

#[test]
fn copies_and_zeros(rt: HostRuntime) -> Result<(), AllocError> {
    let alloc = rt.alloc();
    let ty = bits_and_array(alloc)?;
    let value = zero(alloc, &ty)?;
    assert!(rt; fits(&ty, &value));
    assert!(rt; is_type_copied(alloc, &ty)?);
    assert!(rt; is_value_copied(alloc, &value)?);
    Ok(())
}

fn is_typed(ty: Ty, value: Value) -> bool {
    Typed::new(ty, value).is_ok()
}

#[test]
fn only_fitting_values_are_typed(rt: HostRuntime) {
    assert!(rt; !is_typed(Ty::Bv(4), Value::Bv(4, 16)));
    assert!(rt; is_typed(Ty::Bv(4), Value::Bv(4, 15)));
}

fn row(alloc: Global, arguments: &[Value], number: i128) -> Result<Row, AllocError> {
    Ok(Row {
        arguments: copy_all(alloc, arguments)?,
        result: Value::Int(number),
    })
}

/// The table with the results 1 and 2 for the same arguments, and 0 elsewhere.
fn table_of_two(alloc: Global, arguments: &[Value]) -> Result<Table, AllocError> {
    let mut rows = Items::new(alloc);
    rows.push(row(alloc, arguments, 1)?)?;
    rows.push(row(alloc, arguments, 2)?)?;
    Ok(Table {
        rows,
        default: Value::Int(0),
    })
}

#[test]
fn the_first_row_with_the_arguments_counts(rt: HostRuntime) -> Result<(), AllocError> {
    let alloc = rt.alloc();
    let arguments = two_values(alloc, Value::Bool(true), Value::Int(7))?;
    let table = table_of_two(alloc, arguments.as_slice())?;
    assert!(rt; *table.result(arguments.as_slice()) == Value::Int(1));
    assert!(rt; *table.result(&[]) == Value::Int(0));
    Ok(())
}

#[test]
fn operators_on_bits(rt: HostRuntime) {
    let cases = [
        (word::add(8, 200, 100), 44),
        (word::add(64, u64::MAX, 1), 0),
        (word::subtract(8, 1, 2), 255),
        (word::multiply(8, 16, 17), 16),
        (word::negate(8, 0), 0),
        (word::negate(8, 1), 255),
        (word::complement(3, 5), 2),
        (word::shift_left(8, 3, 7), 128),
        (word::shift_left(8, 3, 8), 0),
        (word::shift_right(200, 64), 0),
        (word::shift_right_signed(8, 200, 3), 249),
        (word::shift_right_signed(8, 200, 9), 255),
        (word::shift_right_signed(8, 100, 9), 0),
        (word::concat(4, 10, 8, 1), 2_561),
        (word::extract(5, 2, 52), 13),
        (word::sign_extend(4, 4, 8), 248),
    ];
    for (got, want) in cases {
        assert!(rt; got == want);
    }
    assert!(rt; word::signed(4, 8) == -8);
}
