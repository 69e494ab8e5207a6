//! An operation on symbols, evaluated under a model that gives these their values.

ghost use Rattle.std.specs.Prelude.{◌≡◌, ◌<◌, ◌≤◌, [], ◌∷◌, length, All, IfOk, OnOk};
ghost use Rattle.uc_ops.specs.Typing.{Suits, Valid, type_of, type_at, types_at};
ghost use Rattle.uc_terms.specs.Built.{Keeps};

use std::alloc::{AllocError, Global};
use uc_items::Items;
use uc_linear::LinearError;
use uc_terms::{Model, Op, TermId, Terms, eval};
use uc_values::{Ty, Value, copy_ty};

/// A model of one symbol.
pub(crate) fn model_of_one(alloc: Global, a: Value) -> Result<Model, AllocError> {
    Ok(model_of(alloc, vec![in alloc; a]?))
}

pub(crate) fn model_of_two(alloc: Global, a: Value, b: Value) -> Result<Model, AllocError> {
    Ok(model_of(alloc, vec![in alloc; a, b]?))
}

pub(crate) fn model_of_three(
    alloc: Global,
    a: Value,
    b: Value,
    c: Value,
) -> Result<Model, AllocError> {
    Ok(model_of(alloc, vec![in alloc; a, b, c]?))
}

/// A model of these symbols, without functions.
pub(crate) fn model_of(alloc: Global, symbols: Vec<Value>) -> Model {
    Model {
        symbols: Items::from_vec(symbols),
        tables: Items::new(alloc),
    }
}

/// The number of an operation on parts, with its type.
pub(crate) fn made(
    terms: &mut Terms,
    alloc: Global,
    op: Op,
    parts: &[TermId],
) -> Result<TermId, AllocError>
    requires there { All (λ p. p < length terms.old) parts.now }
    requires suits { Suits op (types_at terms.old parts.now) }
    ensures there { IfOk result (λ t. t < length terms.new) }
    ensures ty { IfOk result (λ t. type_at terms.new t ≡ type_of op (types_at terms.old parts.now)) }
    ensures keeps { OnOk result (Keeps terms.old terms.new) }
{
    let t = terms.mk(alloc, op, parts)?;
    Ok(t)
}

/// The number of a symbol, with its type.
fn symbol(terms: &mut Terms, alloc: Global, number: u32, ty: Ty) -> Result<TermId, AllocError>
    requires { Valid ty }
    ensures there { IfOk result (λ t. t < length terms.new) }
    ensures ty { IfOk result (λ t. type_at terms.new t ≡ ty) }
    ensures keeps { OnOk result (Keeps terms.old terms.new) }
{
    made(terms, alloc, Op::Symbol(number, ty), &[])
}

/// A symbol of each type, numbered from 0.
fn symbols(terms: &mut Terms, alloc: Global, types: &[Ty]) -> Result<Vec<TermId>, AllocError>
    requires valid { All Valid types.now }
    requires few { length types.now ≤ 3 }
    ensures there { IfOk result (λ ts. All (λ t. t < length terms.new) ts.items) }
    ensures types { IfOk result (λ ts. types_at terms.new ts.items ≡ types.now) }
{
    let mut symbols = Vec::new(alloc);
    for place in 0..types.len() {
        let ty = copy_ty(alloc, &types[place])?;
        let added = symbol(terms, alloc, place as u32, ty)?;
        symbols.push(added)?;
    }
    Ok(symbols)
}

/// The operation on symbols of these types.
fn applied(terms: &mut Terms, alloc: Global, op: Op, types: &[Ty]) -> Result<TermId, AllocError>
    requires valid { All Valid types.now }
    requires few { length types.now ≤ 3 }
    requires suits { Suits op types.now }
    ensures { IfOk result (λ t. t < length terms.new) }
{
    let parts = symbols(terms, alloc, types)?;
    let t = made(terms, alloc, op, parts.as_slice())?;
    Ok(t)
}

/// The value of an operation on the first symbols, which have these types.
fn of_all(alloc: Global, op: Op, types: &[Ty], model: &Model) -> Result<Value, LinearError>
    requires valid { All Valid types.now }
    requires few { length types.now ≤ 3 }
    requires suits { Suits op types.now }
{
    let mut terms = Terms::new(alloc)?;
    of_all_among(alloc, &mut terms, op, types, model)
}

/// The same where the terms are made among these.
fn of_all_among(
    alloc: Global,
    terms: &mut Terms,
    op: Op,
    types: &[Ty],
    model: &Model,
) -> Result<Value, LinearError>
    requires valid { All Valid types.now }
    requires few { length types.now ≤ 3 }
    requires suits { Suits op types.now }
{
    let t = applied(terms, alloc, op, types)?;
    eval(alloc, terms, t, model)
}

/// The value of an operation without parts.
#[tactic(auto, using(crate::proofs::Suiting::none_valid))]
pub(crate) fn of_none(alloc: Global, op: Op, model: &Model) -> Result<Value, LinearError>
    requires { Suits op [] }
{
    of_all(alloc, op, &[], model)
}

/// The value of an operation on the first symbol.
#[tactic(auto, using(crate::proofs::Suiting::one_valid))]
pub(crate) fn of_one(alloc: Global, op: Op, first: Ty, model: &Model) -> Result<Value, LinearError>
    requires first { Valid first }
    requires suits { Suits op (first ∷ []) }
{
    of_all(alloc, op, &[first], model)
}

/// The value of an operation on the first two symbols.
#[tactic(auto, using(crate::proofs::Suiting::two_valid))]
pub(crate) fn of_two(
    alloc: Global,
    op: Op,
    first: Ty,
    second: Ty,
    model: &Model,
) -> Result<Value, LinearError>
    requires first { Valid first }
    requires second { Valid second }
    requires suits { Suits op (first ∷ second ∷ []) }
{
    of_all(alloc, op, &[first, second], model)
}

/// The value of an operation on the first three symbols.
#[tactic(auto, using(crate::proofs::Suiting::three_valid))]
pub(crate) fn of_three(
    alloc: Global,
    op: Op,
    first: Ty,
    second: Ty,
    third: Ty,
    model: &Model,
) -> Result<Value, LinearError>
    requires first { Valid first }
    requires second { Valid second }
    requires third { Valid third }
    requires suits { Suits op (first ∷ second ∷ third ∷ []) }
{
    of_all(alloc, op, &[first, second, third], model)
}
