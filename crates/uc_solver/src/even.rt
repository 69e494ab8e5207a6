//! Whether each number in a term has one type.

ghost use Rattle.std.specs.Prelude.{◌≡◌, ℕ, ◌<◌, ◌≤◌, nat_eq, length, IfOk, Some};
ghost use Rattle.std.specs.Bool.{Decides};
ghost use Rattle.std.specs.HashMap.{get};
ghost use Rattle.uc_terms.specs.Subterms.{EvenlyTyped};
ghost use Rattle.uc_solver.specs.Signatures.{AreEven, IsEarlier, IsStep};

use crate::signature::{Kind, have_one_signature, number_in};
use std::alloc::{AllocError, Global};
use std::collections::HashMap;
use uc_terms::{TermId, Terms, subterms};

/// Whether each symbol number among the subterms has one type, and each function number one type of its result and one list of
/// types of its arguments. Takes a step for each number up to the term's for symbols, and one for functions, an application's with its arguments.
pub fn is_evenly_typed(alloc: Global, terms: &Terms, t: TermId) -> Result<bool, AllocError>
    requires { t < length terms.now }
    ensures { IfOk result (λ b. Decides b (EvenlyTyped terms.now t)) }
{
    let _well_typed = terms.nodes();
    let marks = subterms(alloc, terms, &[t])?;
    if !are_even(alloc, Kind::Symbols, terms, marks.as_slice())? {
        return Ok(false);
    }
    let functions = are_even(alloc, Kind::Functions, terms, marks.as_slice())?;
    Ok(functions)
}

/// Whether the terms that are marked give each number of the kind one signature.
fn are_even(alloc: Global, kind: Kind, terms: &Terms, marks: &[bool]) -> Result<bool, AllocError>
    requires { length marks.now ≤ length terms.now }
    ensures { IfOk result (λ b. Decides b (AreEven kind terms.now marks.now (length marks.now))) }
{
    let mut first: HashMap<u32, TermId> = HashMap::new(alloc);
    for place in 0..marks.len() {
        if !fits_first(kind, terms, marks[place], place, &mut first)? {
            return Ok(false);
        }
    }
    Ok(true)
}

/// Whether the term at a place has the signature of the first term of its number. Where it is that term, the map has it from now on.
fn fits_first(
    kind: Kind,
    terms: &Terms,
    marked: bool,
    place: usize,
    first: &mut HashMap<u32, TermId>,
) -> Result<bool, AllocError>
    requires there { place < length terms.now }
    requires earlier { (number j : ℕ) → get nat_eq first.old number ≡ Some j → IsEarlier kind terms.now place number j }
    ensures { IfOk result (IsStep kind terms.now marked place (get nat_eq first.old) (get nat_eq first.new)) }
{
    if !marked {
        return Ok(true);
    }
    let Some(number) = number_in(kind, &terms.node(place).op) else {
        return Ok(true);
    };
    let here = term_at(terms, place);
    let known = first.get(&number).copied();
    match known {
        Some(other) => Ok(have_one_signature(kind, terms, other, here, number)),
        None => {
            first.insert(number, here)?;
            Ok(true)
        }
    }
}

/// The term at a place.
fn term_at(terms: &Terms, place: usize) -> TermId
    requires { place < length terms.now }
    ensures { result ≡ place }
{
    let count = terms.len() as usize;
    prove!(place < count);
    TermId::new(place as u32)
}
