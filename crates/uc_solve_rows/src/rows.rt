//! Terms of finitely many values.

ghost use Rattle.std.specs.Prelude.{◌≡◌, ◌<◌, length, IfOk, OnOk};
ghost use Rattle.uc_values.specs.declared.ty.Ty.TheVariants.{Bool, Enum, Bv};
ghost use Rattle.uc_ops.specs.Typing.{type_at};
ghost use Rattle.uc_terms.specs.Built.{Keeps};
ghost use Rattle.uc_solve_rows.specs.Records.{record_type};

use crate::building::{bits, made, symbol};
use crate::passing::{Outcome, passed};
use std::alloc::{AllocError, Global};
use std::test::Fail;
use uc_items::Items;
use uc_terms::{Model, Op, TermId, Terms};
use uc_values::{Field, Ty, Value};

/// A model of these symbols, without functions.
fn model_of(alloc: Global, symbols: Vec<Value>) -> Model {
    Model {
        symbols: Items::from_vec(symbols),
        tables: Items::new(alloc),
    }
}

/// A model for each number of 2 bits.
fn numbers(alloc: Global) -> Result<Vec<Model>, AllocError> {
    let mut models = Vec::new(alloc);
    for number in 0..4u64 {
        models.push(model_of(alloc, vec![in alloc; Value::Bv(2, number)]?))?;
    }
    Ok(models)
}

/// No number of 2 bits is below 0.
pub(crate) fn never_below_zero(alloc: Global) -> Result<Outcome, Fail> {
    let models = numbers(alloc)?;
    never_below_zero_under(alloc, models.as_slice())
}

#[tactic(auto, using(crate::proofs::Suiting::valid_bits))]
fn never_below_zero_under(alloc: Global, models: &[Model]) -> Result<Outcome, Fail> {
    let mut terms = Terms::new(alloc)?;
    let s = symbol(&mut terms, alloc, 0, Ty::Bv(2))?;
    let zero = bits(&mut terms, alloc, 2, 0)?;
    let t = made(&mut terms, alloc, Op::Ult, &[s, zero])?;
    passed(alloc, &mut terms, t, models)
}

/// 15 of 4 bits is -1, which is below 0.
pub(crate) fn negative_number(alloc: Global) -> Result<Outcome, Fail> {
    let models = vec![in alloc; model_of(alloc, Vec::new(alloc))]?;
    let mut terms = Terms::new(alloc)?;
    let fifteen = bits(&mut terms, alloc, 4, 15)?;
    let zero = bits(&mut terms, alloc, 4, 0)?;
    let t = made(&mut terms, alloc, Op::Slt, &[fifteen, zero])?;
    passed(alloc, &mut terms, t, models.as_slice())
}

/// Records of a label of five and of two bits.
fn record_ty(alloc: Global) -> Result<Ty, AllocError>
    ensures { IfOk result (λ t. t ≡ record_type) }
{
    let mut fields = Items::new(alloc);
    fields.push(Field {
        name: 0,
        ty: Ty::Enum(0, 5),
    })?;
    fields.push(Field {
        name: 1,
        ty: Ty::Bv(2),
    })?;
    Ok(Ty::Rec(fields))
}

fn record(alloc: Global, label: u32, number: u64) -> Result<Value, AllocError> {
    let mut values = Items::new(alloc);
    values.push(Value::Enum(0, label))?;
    values.push(Value::Bv(2, number))?;
    Ok(Value::Rec(values))
}

/// Each record, and beside it the bits that stand for its fields.
fn records(alloc: Global) -> Result<Vec<Model>, AllocError> {
    let mut models = Vec::new(alloc);
    for label in 0..5u32 {
        for number in 0..4u64 {
            let own = record(alloc, label, number)?;
            let label = Value::Bv(3, u64::from(label));
            let symbols = vec![in alloc; own, label, Value::Bv(2, number)]?;
            models.push(model_of(alloc, symbols))?;
        }
    }
    Ok(models)
}

/// A record is itself: the goal says no more than that there are five labels, which makes twenty records.
#[tactic(auto, using(crate::proofs::Suiting::valid_record))]
pub(crate) fn any_record(alloc: Global) -> Result<Outcome, Fail> {
    let models = records(alloc)?;
    let mut terms = Terms::new(alloc)?;
    let r = symbol(&mut terms, alloc, 0, record_ty(alloc)?)?;
    let t = made(&mut terms, alloc, Op::Eq, &[r, r])?;
    passed(alloc, &mut terms, t, models.as_slice())
}

/// That a record has the fourth label.
#[tactic(auto, using(crate::proofs::Suiting::label_suits, crate::proofs::Suiting::field_suits, crate::proofs::Suiting::label_field))]
fn has_fourth_label(terms: &mut Terms, alloc: Global, r: TermId) -> Result<TermId, AllocError>
    requires there { r < length terms.old }
    requires ty { type_at terms.old r ≡ record_type }
    ensures there { IfOk result (λ t. t < length terms.new) }
    ensures ty { IfOk result (λ t. type_at terms.new t ≡ Bool) }
    ensures keeps { OnOk result (Keeps terms.old terms.new) }
{
    let label = made(terms, alloc, Op::GetField(0), &[r])?;
    let fourth = made(
        terms,
        alloc,
        Op::Const(Ty::Enum(0, 5), Value::Enum(0, 3)),
        &[],
    )?;
    made(terms, alloc, Op::Eq, &[label, fourth])
}

/// That the bits of a record are below 2.
#[tactic(auto, using(crate::proofs::Suiting::field_suits, crate::proofs::Suiting::bits_field))]
fn has_low_bits(terms: &mut Terms, alloc: Global, r: TermId) -> Result<TermId, AllocError>
    requires there { r < length terms.old }
    requires ty { type_at terms.old r ≡ record_type }
    ensures there { IfOk result (λ t. t < length terms.new) }
    ensures ty { IfOk result (λ t. type_at terms.new t ≡ Bool) }
    ensures keeps { OnOk result (Keeps terms.old terms.new) }
{
    let number = made(terms, alloc, Op::GetField(1), &[r])?;
    let two = bits(terms, alloc, 2, 2)?;
    made(terms, alloc, Op::Ult, &[number, two])
}

/// The record has the fourth label exactly where its bits are below 2: two records, and eight of the others.
pub(crate) fn fourth_where_low(alloc: Global) -> Result<Outcome, Fail> {
    let models = records(alloc)?;
    fourth_where_low_under(alloc, models.as_slice())
}

#[tactic(auto, using(crate::proofs::Suiting::valid_record))]
fn fourth_where_low_under(alloc: Global, models: &[Model]) -> Result<Outcome, Fail> {
    let mut terms = Terms::new(alloc)?;
    let r = symbol(&mut terms, alloc, 0, record_ty(alloc)?)?;
    let label = has_fourth_label(&mut terms, alloc, r)?;
    let low = has_low_bits(&mut terms, alloc, r)?;
    let t = made(&mut terms, alloc, Op::Eq, &[label, low])?;
    passed(alloc, &mut terms, t, models)
}
