//! Models through the map of a lowered term.

ghost use Rattle.std.specs.Prelude.{◌≡◌, ◌<◌, ℕ, length, All, IfOk, [], slice_index_or};
ghost use Rattle.std.specs.Option.{option_copied};
ghost use Rattle.uc_ops.specs.Typing.{type_at};
ghost use Rattle.uc_ops.specs.Meaning.{fitting};
ghost use Rattle.uc_terms.specs.Subterms.{EvenlyTyped};
ghost use Rattle.uc_terms.specs.Values.{value};
ghost use Rattle.uc_lower.specs.Lowering.{IsFiniteTerm, IsSymbol};
ghost use Rattle.uc_solver.specs.Codes.{IsSymbolPair, AreCodes, IsReadFrom, AreRead, GoesBack};

use crate::codes::decoded;
use crate::symbols::model_of;
use std::alloc::{AllocError, Global};
use uc_items::{Items, at};
use uc_terms::{Model, Op, TermId, Terms};
use uc_values::{Ty, Value, copy, fits, zero};

/// The model of a term that a model of the lowered term gives by the map: each symbol of the term has the value that the terms
/// tell which stand for its innermost fields, and any that fits where they tell none.
pub fn through_map(
    alloc: Global,
    terms: &Terms,
    t: TermId,
    pairs: &[(TermId, TermId)],
    model: &Model,
) -> Result<Model, AllocError>
    requires there { t < length terms.now }
    requires even { EvenlyTyped terms.now t }
    requires finite { IsFiniteTerm terms.now t }
    requires pairs { All (IsSymbolPair terms.now) pairs.now }
    ensures { IfOk result (λ m. GoesBack m model.now terms.now t pairs.now) }
{
    let _well_typed = terms.nodes();
    let codes = codes(alloc, terms, pairs, model)?;
    let values = values(alloc, terms, codes.as_slice())?;
    let found = model_of(alloc, terms, t, values.as_slice())?;
    Ok(found)
}

/// For each term the values of what stands for it.
fn codes(
    alloc: Global,
    terms: &Terms,
    pairs: &[(TermId, TermId)],
    model: &Model,
) -> Result<Vec<Items<Value>>, AllocError>
    requires { All (IsSymbolPair terms.now) pairs.now }
    ensures { IfOk result (λ cs. AreCodes model.now terms.now pairs.now cs.items) }
{
    let mut codes = none(alloc, terms.len() as usize)?;
    for place in 0..pairs.len() {
        let pair = pairs[place];
        let value = symbol_value(alloc, terms, pair.1, model)?;
        codes[pair.0.index()].push(value)?;
    }
    Ok(codes)
}

/// So many empty lists.
fn none(alloc: Global, count: usize) -> Result<Vec<Items<Value>>, AllocError>
    ensures long { IfOk result (λ cs. length cs.items ≡ count) }
    ensures empty { IfOk result (λ cs. (k : ℕ) → slice_index_or cs.items k [] ≡ []) }
{
    let mut lists: Vec<Items<Value>> = Vec::new(alloc);
    for _place in 0..count {
        lists.push(Items::new(alloc))?;
    }
    Ok(lists)
}

/// The value of a symbol under a model.
fn symbol_value(alloc: Global, terms: &Terms, t: TermId, model: &Model) -> Result<Value, AllocError>
    requires there { t < length terms.now }
    requires symbol { IsSymbol terms.now t }
    ensures { IfOk result (λ v. v ≡ value model.now terms.now t) }
{
    match terms.op(t) {
        Op::Symbol(number, ty) => {
            let found = at(model.symbols.as_slice(), *number as usize);
            let value = fitting(alloc, ty, found)?;
            Ok(value)
        }
        _ => unreachable!(),
    }
}

/// The value, or where there is none that fits the type, the one that counts as 0.
fn fitting(alloc: Global, ty: &Ty, found: Option<&Value>) -> Result<Value, AllocError>
    ensures { IfOk result (λ v. v ≡ fitting ty.now (option_copied found.entry)) }
{
    match found {
        Some(value) if fits(ty, value) => copy(alloc, value),
        _ => zero(alloc, ty),
    }
}

/// The values of the symbols, by their numbers.
fn values(alloc: Global, terms: &Terms, codes: &[Items<Value>]) -> Result<Vec<Value>, AllocError>
    requires { length codes.now ≡ length terms.now }
    ensures { IfOk result (λ vs. AreRead terms.now codes.now vs.items) }
{
    let mut values: Vec<Value> = Vec::new(alloc);
    for place in 0..codes.len() {
        values.push(value_at(alloc, terms, place, codes[place].as_slice())?)?;
    }
    Ok(values)
}

/// The value of the term at a place, where it is a symbol, from the values of what stands for it.
fn value_at(
    alloc: Global,
    terms: &Terms,
    place: usize,
    codes: &[Value],
) -> Result<Value, AllocError>
    requires { place < length terms.now }
    ensures { IfOk result (λ v. IsSymbol terms.now place → IsReadFrom (type_at terms.now place) codes.now v) }
{
    let t = term_at(terms, place);
    match terms.op(t) {
        Op::Symbol(_, _) => decoded(alloc, terms.ty(t), codes),
        _ => Ok(Value::Bool(false)),
    }
}

/// The term at a place.
fn term_at(terms: &Terms, place: usize) -> TermId
    requires { place < length terms.now }
    ensures { result ≡ place }
{
    let count = terms.len() as usize;
    prove!(place < count);
    TermId::new(place as u32)
}
