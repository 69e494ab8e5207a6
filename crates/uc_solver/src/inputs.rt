//! Models from the values of inputs.

ghost use Rattle.std.specs.Prelude.{◌≡◌, ◌<◌, ◌≤◌, length, All, IfOk};
ghost use Rattle.std.specs.List.{AllZip};
ghost use Rattle.uc_terms.specs.Subterms.{EvenlyTyped, FitsTerm};
ghost use Rattle.uc_log.specs.Atoms.{Agrees};
ghost use Rattle.uc_lower.specs.Lowering.{IsLoweredTerm};
ghost use Rattle.uc_blast.specs.Blasting.{IsOpaqueBit, AreDifferent};
ghost use Rattle.uc_solver.specs.Inputs.{bits_value, IsTermBit, IsWithin, with_bit, AreSet, AreBitValues};

use crate::symbols::model_of;
use std::alloc::{AllocError, Global};
use uc_log::Atom;
use uc_terms::{Model, TermId, Terms};
use uc_values::{Ty, Value};

/// The model of a lowered term under which each atom, a bit of a symbol, has the value of its input. A bit without an atom is 0.
pub fn model_of_inputs(
    alloc: Global,
    terms: &Terms,
    t: TermId,
    atoms: &[Atom],
    inputs: &[bool],
) -> Result<Model, AllocError>
    requires lowered { IsLoweredTerm terms.now t }
    requires even { EvenlyTyped terms.now t }
    requires opaque { All (IsOpaqueBit terms.now t) atoms.now }
    requires different { AreDifferent atoms.now }
    requires long { length atoms.now ≡ length inputs.now }
    ensures agrees { IfOk result (λ m. AllZip (Agrees m terms.now) atoms.now inputs.now) }
    ensures fits { IfOk result (λ m. FitsTerm m terms.now t) }
{
    let _well_typed = terms.nodes();
    let words = words(alloc, terms, atoms, inputs)?;
    let values = values(alloc, terms, words.as_slice())?;
    let model = model_of(alloc, terms, t, values.as_slice())?;
    Ok(model)
}

/// The bits of the terms, by their numbers.
fn words(
    alloc: Global,
    terms: &Terms,
    atoms: &[Atom],
    inputs: &[bool],
) -> Result<Vec<u64>, AllocError>
    requires bits { All (IsTermBit terms.now) atoms.now }
    requires different { AreDifferent atoms.now }
    requires long { length atoms.now ≡ length inputs.now }
    ensures { IfOk result (λ ws. AreSet terms.now atoms.now inputs.now (length atoms.now) ws.items) }
{
    let _well_typed = terms.nodes();
    let mut words: Vec<u64> = vec![in alloc; 0; terms.len() as usize]?;
    for place in 0..atoms.len() {
        set(&mut words, &atoms[place], inputs[place]);
    }
    Ok(words)
}

/// Sets the bit of an atom, where its input is true.
fn set(words: &mut Vec<u64>, atom: &Atom, input: bool)
    requires { IsWithin (length words.old.items) atom.now }
    ensures { words.new.items ≡ with_bit words.old.items atom.now input }
{
    if let Atom::Bit(term, bit) = atom {
        if input {
            words[term.index()] |= 1u64 << *bit;
        }
    }
}

/// The values of the terms with these bits, by their numbers.
fn values(alloc: Global, terms: &Terms, words: &[u64]) -> Result<Vec<Value>, AllocError>
    requires { length words.now ≡ length terms.now }
    ensures { IfOk result (λ vs. AreBitValues terms.now words.now vs.items) }
{
    let mut values: Vec<Value> = Vec::new(alloc);
    for place in 0..words.len() {
        values.push(bits_value(&terms.node(place).ty, words[place]))?;
    }
    Ok(values)
}

/// The boolean or the bit-vector of a type with these bits.
fn bits_value(ty: &Ty, word: u64) -> Value
    ensures { result ≡ bits_value ty.now word }
{
    match ty {
        Ty::Bool => Value::Bool(word % 2 == 1),
        Ty::Bv(width) => Value::Bv(*width, word),
        _ => Value::Bool(false),
    }
}
