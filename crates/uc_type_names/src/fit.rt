//! Values that are asked for: as many, and each of its type.

ghost use Rattle.std.specs.Prelude.{◌≡◌};
ghost use Rattle.uc_rules.specs.Expressions.{applied};
ghost use Rattle.uc_rules.specs.Faults.{first_of};
ghost use Rattle.uc_rules.specs.Rows.{all_judged, all_suit, suits};
ghost use Rattle.uc_rules.specs.Statements.{fit_faults};
ghost use Rattle.uc_type_names.specs.Fits.{are_judged, are_misfits};

use uc_items::at;
use uc_rules::{Fault, Outcome, Rule, note_where, same_type};
use uc_syntax::Place;
use uc_values::Ty;

/// An application that gives this type: the number of arguments is judged whatever their types.
pub fn applied(gives: Option<Ty>, parameters: &[Option<Ty>], arguments: &[Option<Ty>]) -> Outcome
    ensures { result ≡ applied gives parameters.now arguments.now }
{
    if parameters.len() != arguments.len() {
        return Outcome::Breaks(Rule::WrongType);
    }
    if !are_judged(parameters, arguments) {
        return Outcome::Unjudged;
    }
    if !all_suit(parameters, arguments) {
        return Outcome::Breaks(Rule::WrongType);
    }
    match gives {
        Some(ty) => Outcome::Has(ty),
        None => Outcome::Unjudged,
    }
}

/// Notes where values aren't as many as are asked for, or one has another type.
pub fn note_misfit(
    first: &mut Option<Fault>,
    place: Place,
    asked: &[Option<Ty>],
    values: &[Option<Ty>],
)
    ensures { first.new ≡ first_of first.old (fit_faults place asked.now values.now) }
{
    let are_misfits = are_misfits(asked, values);
    note_where(first, are_misfits, Rule::WrongType, place);
}

fn are_misfits(asked: &[Option<Ty>], values: &[Option<Ty>]) -> bool
    ensures { result ≡ are_misfits asked.now values.now }
{
    if asked.len() != values.len() {
        return true;
    }
    if !are_judged(asked, values) {
        return false;
    }
    !all_suit(asked, values)
}

fn are_judged(asked: &[Option<Ty>], values: &[Option<Ty>]) -> bool
    ensures { result ≡ are_judged asked.now values.now }
{
    all_judged(asked) && all_judged(values)
}

/// Whether each has a type.
fn all_judged(types: &[Option<Ty>]) -> bool
    ensures { result ≡ all_judged types.now }
{
    for ty in types {
        if ty.is_none() {
            return false;
        }
    }
    true
}

/// Whether the types of two lists are the same, one by one.
fn all_suit(asked: &[Option<Ty>], values: &[Option<Ty>]) -> bool
    ensures { result ≡ all_suit asked.now values.now }
{
    for (k, expected) in asked.iter().enumerate() {
        match at(values, k) {
            Some(ty) => {
                if !suits(ty, expected) {
                    return false;
                }
            }
            None => return true,
        }
    }
    true
}

fn suits(ty: &Option<Ty>, expected: &Option<Ty>) -> bool
    ensures { result ≡ suits ty.now expected.now }
{
    match ty {
        Some(ty) => match expected {
            Some(expected) => same_type(ty, expected),
            None => false,
        },
        None => false,
    }
}
