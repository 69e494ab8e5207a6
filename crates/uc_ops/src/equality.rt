//! When two operations are equal: by a code of their kind and numbers, and by the types that they hold.

ghost use Rattle.std.specs.Prelude.{◌≡◌, pos};
ghost use Rattle.std.specs.Option.{option_copied};
ghost use Rattle.uc_ops.specs.Equality.{code, constant_code, op_code, held_type, equal_types, equal_fields, equal_held, equal_codes, type_tests};

use crate::op::Op;
use uc_values::{Field, Ty, Value};

/// The kind of an operation or constant, and the numbers that it holds.
#[derive(Clone, Copy, Debug)]
pub struct Code {
    pub kind: u8,
    pub first: u32,
    pub second: u32,
    pub number: i128,
}

fn with_numbers(kind: u8, first: u32, second: u32) -> Code
    ensures { result ≡ code kind first second (pos 0) }
{
    Code {
        kind,
        first,
        second,
        number: 0,
    }
}

/// The code of an operation that holds no number.
fn bare(kind: u8) -> Code
    ensures { result ≡ code kind 0 0 (pos 0) }
{
    with_numbers(kind, 0, 0)
}

/// The code with a number.
fn with_number(kind: u8, first: u32, number: i128) -> Code
    ensures { result ≡ code kind first 0 number }
{
    Code {
        kind,
        first,
        second: 0,
        number,
    }
}

/// The code of a constant; a record and an array have one code.
fn constant_code(value: &Value) -> Code
    ensures { result ≡ constant_code value.now }
{
    match value {
        Value::Bool(truth) => with_numbers(1, u32::from(*truth), 0),
        Value::Int(number) => with_number(2, 0, *number),
        Value::Bv(width, bits) => with_number(3, u32::from(*width), i128::from(*bits)),
        Value::Enum(number, label) => with_numbers(4, *number, *label),
        Value::Un(number, place) => with_number(5, *number, i128::from(*place)),
        Value::Rec(_) | Value::Arr(_, _) => bare(6),
    }
}

/// The code of an operation.
pub(crate) fn op_code(op: &Op) -> Code
    ensures { result ≡ op_code op.now }
{
    match op {
        Op::Symbol(number, _) => with_numbers(0, *number, 0),
        Op::Const(_, value) => constant_code(value),
        Op::Not => bare(7),
        Op::And => bare(8),
        Op::Or => bare(9),
        Op::Eq => bare(10),
        Op::Ite => bare(11),
        Op::Add => bare(12),
        Op::Scale(factor) => with_number(13, 0, *factor),
        Op::Le => bare(14),
        Op::BvAdd => bare(15),
        Op::BvSub => bare(16),
        Op::BvMul => bare(17),
        Op::BvNeg => bare(18),
        Op::BvAnd => bare(19),
        Op::BvOr => bare(20),
        Op::BvXor => bare(21),
        Op::BvNot => bare(22),
        Op::Concat => bare(23),
        Op::Extract(high, low) => with_numbers(24, u32::from(*high), u32::from(*low)),
        Op::ZeroExt(more) => with_numbers(25, u32::from(*more), 0),
        Op::SignExt(more) => with_numbers(26, u32::from(*more), 0),
        Op::Shl => bare(27),
        Op::Lshr => bare(28),
        Op::Ashr => bare(29),
        Op::Slt => bare(30),
        Op::Sle => bare(31),
        Op::Ult => bare(32),
        Op::Ule => bare(33),
        Op::App(number, _) => with_numbers(34, *number, 0),
        Op::Select => bare(35),
        Op::Store => bare(36),
        Op::Diff => bare(37),
        Op::MkRec(_) => bare(38),
        Op::GetField(place) => with_numbers(39, *place, 0),
    }
}

pub(crate) fn equal_codes(a: &Code, b: &Code) -> bool
    ensures { result ≡ equal_codes a.now b.now }
{
    a.kind == b.kind && a.first == b.first && a.second == b.second && a.number == b.number
}

/// The type that an operation holds.
fn held_type(op: &Op) -> Option<&Ty>
    ensures { option_copied result ≡ held_type op.now }
{
    match op {
        Op::Symbol(_, ty) | Op::Const(ty, _) | Op::App(_, ty) | Op::MkRec(ty) => Some(ty),
        _ => None,
    }
}

/// Whether two operations hold equal types, or both none.
pub(crate) fn equal_held(a: &Op, b: &Op) -> bool
    ensures { result ≡ equal_held (held_type a.now) (held_type b.now) }
{
    match (held_type(a), held_type(b)) {
        (Some(left), Some(right)) => equal_types(left, right),
        (None, None) => true,
        _ => false,
    }
}

/// Whether two types are one. It takes no memory.
#[cycle(equal_types)]
pub fn equal_types(a: &Ty, b: &Ty) -> bool
    ensures { result ≡ equal_types a.now b.now }
{
    match a {
        Ty::Bool => {
            let Ty::Bool = b else {
                return false;
            };
            true
        }
        Ty::Int => {
            let Ty::Int = b else {
                return false;
            };
            true
        }
        Ty::Bv(width) => {
            let Ty::Bv(own) = b else {
                return false;
            };
            width == own
        }
        Ty::Enum(number, labels) => {
            let Ty::Enum(other, own) = b else {
                return false;
            };
            number == other && labels == own
        }
        Ty::Un(number) => {
            let Ty::Un(own) = b else {
                return false;
            };
            number == own
        }
        Ty::Rec(fields) => {
            let Ty::Rec(own) = b else {
                return false;
            };
            equal_fields(fields.as_slice(), own.as_slice())
        }
        Ty::Arr(index, element) => {
            let Ty::Arr(i, e) = b else {
                return false;
            };
            if !equal_types(index.get(), i.get()) {
                return false;
            }
            equal_types(element.get(), e.get())
        }
    }
}

#[cycle(equal_types)]
fn equal_fields(fields: &[Field<Ty>], own: &[Field<Ty>]) -> bool
    ensures { result ≡ equal_fields (type_tests fields.now) own.now }
{
    if fields.len() != own.len() {
        return false;
    }
    for place in 0..fields.len() {
        if fields[place].name != own[place].name {
            return false;
        }
        if !equal_types(&fields[place].ty, &own[place].ty) {
            return false;
        }
    }
    true
}
