//! The trace that a model tells.

ghost use Rattle.std.specs.Prelude.{◌≡◌, ◌<◌, ◌++◌, List, drop, map, length, slice_get, IfOk, IsTrue, All};
ghost use Rattle.std.specs.List.{flat_map};
ghost use Rattle.std.specs.Option.{option_copied};
ghost use Rattle.uc_linear.specs.Exact.{OnWide};
ghost use Rattle.uc_values.specs.declared.value.Value.{Value as AValue};
ghost use Rattle.uc_values.specs.Values.{truth_of};
ghost use Rattle.uc_ops.specs.Meaning.{part, fitting};
ghost use Rattle.uc_obligations.specs.Reading.{position_read, choice_read, hit_read, beginning_with, AreNumbers, IsFitting, AreConstantsOf, MeetsIn, IsToldBy};

use std::alloc::{AllocError, Global};
use uc_flat::{Flat, FlatPosition};
use uc_flat_copies::FlatCopies;
use uc_items::{Items, at};
use uc_linear::LinearError;
use uc_symstep::{Choice, Hit, SymState};
use uc_terms::{Model, TermId, Terms, eval_all};
use uc_values::{Ty, Value, copy, copy_all, fits, zero};

/// The trace of the states under a model, whose constants get values that fit their types. There is none where no value fits, and where the
/// goal is not true with these constants.
pub(crate) fn trace_of(
    alloc: Global,
    terms: &Terms,
    f: &Flat,
    goal: TermId,
    states: &[SymState],
    model: Model,
) -> Result<Option<FlatCopies>, LinearError>
    requires { goal < length terms.now }
    ensures told { IfOk result (IsToldBy f.now terms.now goal states.now model) }
    ensures wide { OnWide result (MeetsIn f.now terms.now model) }
{
    let Some(constants) = constants_of(alloc, f, &model)? else {
        return Ok(None);
    };
    let model = beginning_with(alloc, constants.as_slice(), model)?;
    let all = all_terms(alloc, terms.len())?;
    let values = eval_all(alloc, terms, all.as_slice(), &model)?;
    let all_values = values.as_slice();
    if !is_true(all_values, goal) {
        return Ok(None);
    }
    let positions = positions(alloc, all_values, states)?;
    let mut copies = Items::new(alloc);
    copies.push(positions)?;
    Ok(Some(FlatCopies { constants, copies }))
}

/// A value that fits its type for each constant: that of the model, where it fits. There are none where none fits.
fn constants_of(alloc: Global, f: &Flat, model: &Model) -> Result<Option<Items<Value>>, AllocError>
    ensures { IfOk result (AreConstantsOf f.now model.now) }
{
    let mut values = Items::new(alloc);
    let constants = f.constants.as_slice();
    for place in 0..constants.len() {
        let given = at(model.symbols.as_slice(), place);
        let Some(value) = fitting(alloc, &constants[place].ty, given)? else {
            return Ok(None);
        };
        values.push(value)?;
    }
    Ok(Some(values))
}

/// The value where it fits the type, else the one that counts as 0. There is none where that does not fit.
fn fitting(alloc: Global, ty: &Ty, given: Option<&Value>) -> Result<Option<Value>, AllocError>
    ensures { IfOk result (IsFitting ty.now (option_copied given.entry)) }
{
    let value = given_or_zero(alloc, ty, given)?;
    if fits(ty, &value) {
        Ok(Some(value))
    } else {
        Ok(None)
    }
}

/// The value where it fits the type, else the one that counts as 0.
fn given_or_zero(alloc: Global, ty: &Ty, given: Option<&Value>) -> Result<Value, AllocError>
    ensures { IfOk result (λ v. v ≡ fitting ty.now (option_copied given.entry)) }
{
    match given {
        Some(value) => {
            if fits(ty, value) {
                copy(alloc, value)
            } else {
                zero(alloc, ty)
            }
        }
        None => zero(alloc, ty),
    }
}

/// The model with these values as its first symbols.
fn beginning_with(alloc: Global, values: &[Value], model: Model) -> Result<Model, AllocError>
    ensures { IfOk result (λ m. m ≡ beginning_with values.now model) }
{
    let mut symbols = copy_all(alloc, values)?;
    let Model {
        symbols: given,
        tables,
    } = model;
    let others = copy_all(alloc, behind(given.as_slice(), values.len()))?;
    symbols.append(others)?;
    Ok(Model { symbols, tables })
}

/// The values behind the first ones.
fn behind(values: &[Value], first: usize) -> &[Value]
    ensures { result.now ≡ drop first values.now }
{
    if first <= values.len() {
        &values[first..]
    } else {
        &[]
    }
}

/// The numbers of so many terms.
fn all_terms(alloc: Global, count: u32) -> Result<Items<TermId>, AllocError>
    ensures { IfOk result (AreNumbers count) }
{
    let mut all = Items::new(alloc);
    for number in 0..count {
        let term = TermId::new(number);
        all.push(term)?;
    }
    Ok(all)
}

/// The positions of states, given the value of each term.
fn positions(
    alloc: Global,
    values: &[Value],
    states: &[SymState],
) -> Result<Items<FlatPosition>, AllocError>
    ensures { IfOk result (λ ps. ps ≡ map (position_read values.now) states.now) }
{
    let mut positions = Items::new(alloc);
    for state in states {
        let position = position(alloc, values, state)?;
        positions.push(position)?;
    }
    Ok(positions)
}

/// The position of a state, given the value of each term.
fn position(alloc: Global, values: &[Value], state: &SymState) -> Result<FlatPosition, AllocError>
    ensures { IfOk result (λ p. p ≡ position_read values.now state.now) }
{
    let mut cells = Items::new(alloc);
    let terms = state.cells.as_slice();
    for term in terms {
        let value = value_of(alloc, values, *term)?;
        cells.push(value)?;
    }
    let choices = choices(alloc, values, state.choices.as_slice())?;
    let sites = sites(alloc, values, state.sites.as_slice())?;
    Ok(FlatPosition {
        cells,
        choices,
        sites,
    })
}

/// The values of the choices that are taken.
fn choices(alloc: Global, values: &[Value], all: &[Choice]) -> Result<Items<Value>, AllocError>
    ensures { IfOk result (λ vs. vs ≡ flat_map (choice_read values.now) all.now) }
{
    let mut taken = Items::new(alloc);
    for choice in all {
        let more = choice_value(alloc, values, choice)?;
        taken.append(more)?;
    }
    Ok(taken)
}

/// The value of a choice, where it is taken.
fn choice_value(
    alloc: Global,
    values: &[Value],
    choice: &Choice,
) -> Result<Items<Value>, AllocError>
    ensures { IfOk result (λ vs. vs ≡ choice_read values.now choice.now) }
{
    let mut taken = Items::new(alloc);
    if is_true(values, choice.taken) {
        let value = value_of(alloc, values, choice.term)?;
        taken.push(value)?;
    }
    Ok(taken)
}

/// The sites whose assertions are taken and false.
fn sites(alloc: Global, values: &[Value], all: &[Hit]) -> Result<Items<u32>, AllocError>
    ensures { IfOk result (λ ns. ns ≡ flat_map (hit_read values.now) all.now) }
{
    let mut failed = Items::new(alloc);
    for hit in all {
        let more = site(alloc, values, hit)?;
        failed.append(more)?;
    }
    Ok(failed)
}

/// The site, where its assertion is taken and false.
fn site(alloc: Global, values: &[Value], hit: &Hit) -> Result<Items<u32>, AllocError>
    ensures { IfOk result (λ ns. ns ≡ hit_read values.now hit.now) }
{
    let mut failed = Items::new(alloc);
    if is_true(values, hit.failed) {
        failed.push(hit.site)?;
    }
    Ok(failed)
}

/// The value of a term.
fn value_of(alloc: Global, values: &[Value], term: TermId) -> Result<Value, AllocError>
    ensures { IfOk result (λ v. v ≡ part values.now term) }
{
    match at(values, term.index()) {
        Some(value) => Ok(copy(alloc, value)?),
        None => Ok(Value::Bool(false)),
    }
}

/// Whether a term is true.
fn is_true(values: &[Value], term: TermId) -> bool
    ensures { result ≡ truth_of (part values.now term) }
{
    match at(values, term.index()) {
        Some(value) => truth_in(value),
        None => false,
    }
}

fn truth_in(value: &Value) -> bool
    ensures { result ≡ truth_of value.now }
{
    match value {
        Value::Bool(truth) => *truth,
        _ => false,
    }
}
