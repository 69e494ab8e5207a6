//! Models that give symbols their values.

ghost use Rattle.std.specs.Prelude.{◌≡◌, ◌<◌, ◌≤◌, length, IfOk, OnOk};
ghost use Rattle.uc_ops.specs.Meaning.{part};
ghost use Rattle.uc_terms.specs.Subterms.{EvenlyTyped};
ghost use Rattle.uc_solver.specs.Symbols.{AppliesNone, FitSymbols, HasValues, IsFilled, IsPut, IsGiven};

use std::alloc::{AllocError, Global};
use uc_items::Items;
use uc_terms::{Model, Op, TermId, Terms, subterms};
use uc_values::{Value, copy};

/// The model that gives each symbol of a term the value at its number. Takes a step for each number up to the term's.
pub fn model_of(
    alloc: Global,
    terms: &Terms,
    t: TermId,
    values: &[Value],
) -> Result<Model, AllocError>
    requires there { t < length terms.now }
    requires even { EvenlyTyped terms.now t }
    requires no_function { AppliesNone terms.now t }
    requires long { length terms.now ≤ length values.now }
    requires fit { FitSymbols terms.now t values.now }
    ensures { IfOk result (λ m. HasValues m terms.now t values.now) }
{
    let _shared = terms.len();
    let marks = subterms(alloc, terms, &[t])?;
    let mut symbols: Items<Value> = Items::new(alloc);
    for place in 0..marks.len() {
        give(alloc, terms, marks[place], place, values, &mut symbols)?;
    }
    Ok(Model {
        symbols,
        tables: Items::new(alloc),
    })
}

/// Gives the term at a place its value, where it is a symbol and marked.
fn give(
    alloc: Global,
    terms: &Terms,
    marked: bool,
    place: usize,
    values: &[Value],
    symbols: &mut Items<Value>,
) -> Result<(), AllocError>
    requires there { place < length terms.now }
    requires long { length terms.now ≤ length values.now }
    ensures { OnOk result (IsGiven terms.now marked place (part values.now place) symbols.old symbols.new) }
{
    if !marked {
        return Ok(());
    }
    match &terms.node(place).op {
        Op::Symbol(number, _) => {
            let value = copy(alloc, &values[place])?;
            put(symbols, *number, value)?;
            Ok(())
        }
        _ => Ok(()),
    }
}

/// Puts a value at a number, behind others where the list ends before.
fn put(symbols: &mut Items<Value>, number: u32, value: Value) -> Result<(), AllocError>
    ensures { OnOk result (IsPut symbols.old symbols.new number value) }
{
    let place = number as usize;
    fill(symbols, place + 1)?;
    symbols.set(place, value);
    Ok(())
}

/// Makes a list at least so long.
fn fill(symbols: &mut Items<Value>, count: usize) -> Result<(), AllocError>
    ensures { OnOk result (IsFilled symbols.old symbols.new count) }
{
    for _place in symbols.len()..count {
        symbols.push(Value::Bool(false))?;
    }
    Ok(())
}
