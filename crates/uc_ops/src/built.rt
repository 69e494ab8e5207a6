//! Operations that give a value that they look up or put together.

ghost use Rattle.std.specs.Prelude.{◌≡◌, map, slice_get, IfOk};
ghost use Rattle.std.specs.Option.{option_map, option_copied};
ghost use Rattle.uc_values.specs.Values.{field_of};
ghost use Rattle.uc_values.specs.Arrays.{at, store};
ghost use Rattle.uc_values.specs.Tables.{result_of};
ghost use Rattle.uc_ops.specs.Typing.{types_at, part_type};
ghost use Rattle.uc_ops.specs.Meaning.{part, apply, fitting};
ghost use Rattle.uc_ops.specs.Differences.{difference};
ghost use Rattle.uc_ops.specs.Met.{IsBuilt};

use crate::difference::difference;
use crate::model::Model;
use crate::node::Node;
use crate::op::Op;
use crate::part::{copy_part, copy_parts, item, part, truth};
use crate::term_id::TermId;
use crate::typing::part_type;
use std::alloc::{AllocError, Global};
use uc_items::{Items, at};
use uc_values::{Ty, Value, copy, fits, lookup, store, zero};

/// The value that an operation looks up or puts together.
pub(crate) fn built(
    alloc: Global,
    model: &Model,
    op: &Op,
    nodes: &[Node],
    given: &[Value],
    parts: &[TermId],
) -> Result<Value, AllocError>
    requires { IsBuilt op.now }
    ensures { IfOk result (λ v. v ≡ apply model.now op.now (types_at nodes.now parts.now) (map (part given.now) parts.now)) }
{
    match op {
        Op::Symbol(number, ty) => {
            let value = at(model.symbols.as_slice(), *number as usize);
            fitting(alloc, ty, value)
        }
        Op::Const(_, value) => copy(alloc, value),
        Op::Ite => {
            if truth(given, parts, 0) {
                copy_part(alloc, given, parts, 1)
            } else {
                copy_part(alloc, given, parts, 2)
            }
        }
        Op::App(number, ty) => applied(alloc, model, *number, ty, given, parts),
        Op::Select => selected(alloc, given, parts),
        Op::Store => changed(alloc, given, parts),
        Op::Diff => differing(alloc, nodes, given, parts),
        Op::MkRec(_) => Ok(Value::Rec(Items::from_vec(copy_parts(alloc, given, parts)?))),
        Op::GetField(place) => field(alloc, given, parts, *place as usize),
        _ => unreachable!(),
    }
}

/// The value, or where there is none that fits the type, the one that counts as 0.
fn fitting(alloc: Global, ty: &Ty, value: Option<&Value>) -> Result<Value, AllocError>
    ensures { IfOk result (λ v. v ≡ fitting ty.now (option_copied value.entry)) }
{
    match value {
        Some(value) => {
            if fits(ty, value) {
                copy(alloc, value)
            } else {
                zero(alloc, ty)
            }
        }
        None => zero(alloc, ty),
    }
}

/// What a function gives for the values of the parts.
fn applied(
    alloc: Global,
    model: &Model,
    number: u32,
    ty: &Ty,
    given: &[Value],
    parts: &[TermId],
) -> Result<Value, AllocError>
    ensures { IfOk result (λ v. v
        ≡ fitting ty.now (option_map (λ table. result_of table (map (part given.now) parts.now)) (slice_get model.now.tables number))) }
{
    match at(model.tables.as_slice(), number as usize) {
        Some(table) => {
            let arguments = copy_parts(alloc, given, parts)?;
            fitting(alloc, ty, Some(table.result(&arguments)))
        }
        None => fitting(alloc, ty, None),
    }
}

/// The element of the first part at the second.
fn selected(alloc: Global, given: &[Value], parts: &[TermId]) -> Result<Value, AllocError>
    ensures { IfOk result (λ v. v ≡ at (part (map (part given.now) parts.now) 0) (part (map (part given.now) parts.now) 1)) }
{
    let absent = Value::Bool(false);
    let array = part(given, parts, 0, &absent);
    let index = part(given, parts, 1, &absent);
    copy(alloc, lookup(array, index))
}

/// The first part with the element at the second changed to the third.
fn changed(alloc: Global, given: &[Value], parts: &[TermId]) -> Result<Value, AllocError>
    ensures { IfOk result (λ v. v
        ≡ store (part (map (part given.now) parts.now) 0) (part (map (part given.now) parts.now) 1) (part (map (part given.now) parts.now) 2)) }
{
    let absent = Value::Bool(false);
    let array = part(given, parts, 0, &absent);
    let index = part(given, parts, 1, &absent);
    let element = part(given, parts, 2, &absent);
    store(alloc, array, index, element)
}

/// An index at which the first two parts differ.
fn differing(
    alloc: Global,
    nodes: &[Node],
    given: &[Value],
    parts: &[TermId],
) -> Result<Value, AllocError>
    ensures { IfOk result (λ v. v
        ≡ difference (part_type (types_at nodes.now parts.now) 0) (part (map (part given.now) parts.now) 0) (part (map (part given.now) parts.now) 1)) }
{
    let absent = Value::Bool(false);
    let left = part(given, parts, 0, &absent);
    let right = part(given, parts, 1, &absent);
    match part_type(nodes, parts, 0) {
        Some(ty) => difference(alloc, ty, left, right),
        None => difference(alloc, &Ty::Bool, left, right),
    }
}

/// A field of the record that is the first part.
fn field(
    alloc: Global,
    given: &[Value],
    parts: &[TermId],
    place: usize,
) -> Result<Value, AllocError>
    ensures { IfOk result (λ v. v ≡ field_of (part (map (part given.now) parts.now) 0) place) }
{
    let absent = Value::Bool(false);
    match part(given, parts, 0, &absent) {
        Value::Rec(fields) => copy(alloc, item(fields.as_slice(), place, &absent)),
        _ => Ok(absent),
    }
}
