//! Selections, by what stands before them and the types of their parts.

ghost use Rattle.std.specs.Prelude.{◌≡◌, List, IfOk};
ghost use Rattle.uc_syntax.specs.declared.declaration.Module.{Module};
ghost use Rattle.uc_rules.specs.Expressions.{Part, Wrong, select, standing_faults, told};
ghost use Rattle.uc_rules.specs.Faults.{broken, first_of};
ghost use Rattle.uc_read_names.specs.Reading.{standing_meant};
ghost use Rattle.uc_rules.specs.Rows.{element_on, extract_on, field_on, update_on};
ghost use Rattle.uc_rules.specs.declared.outcome.Outcome.TheVariants.{Breaks};
ghost use Rattle.uc_rules.specs.declared.rule.Rule.TheVariants.{BadCopy};
ghost use Rattle.uc_expression_rules.specs.Judging.{Selects, on_value};
ghost use Rattle.uc_syntax.specs.declared.expression.Selection.TheVariants.{Copy, Element, Extract, Field, Update};

use std::alloc::{AllocError, Global};
use uc_read_names::{Scope, Standing};
use uc_rules::{Fault, Outcome, Rule, element_on, extract_on, field_on, note, update_on};
use uc_syntax::{Identifier, Place};
use uc_values::Ty;

/// Notes a fault that stands before a selection. It is told then.
#[tactic(auto, unfolding(uc_rules::specs::Faults::first_of))]
pub(crate) fn note_standing(standing: Standing, first: &mut Option<Fault>) -> Standing
    ensures told { (ms : List Module) → standing_meant ms result ≡ told (standing_meant ms standing) }
    ensures faults { (ms : List Module) → first.new ≡ first_of first.old (standing_faults (standing_meant ms standing)) }
{
    if let Standing::Wrong(fault) = &standing {
        note(first, fault.rule, fault.place);
    }
    standing.told()
}

/// A field of a record, or a name of an instance.
fn select_field(
    alloc: Global,
    scope: &Scope<'_, '_>,
    begin: Place,
    before: Standing,
    place: Place,
    name: Identifier,
) -> Result<Standing, AllocError>
    ensures { IfOk result (λ s. standing_meant scope.now.system.modules s ≡ select scope.now begin (standing_meant scope.now.system.modules before) (Field place name)) }
{
    match before {
        Standing::Inside(_, home) => scope.member(alloc, place, home, name.name),
        other => {
            let read = scope.read(begin, other);
            field_of(alloc, read, place, name.name)
        }
    }
}

fn field_of(alloc: Global, read: Standing, place: Place, name: u32) -> Result<Standing, AllocError>
    ensures { (ms : List Module) → IfOk result (λ s. standing_meant ms s ≡ on_value place (λ t. field_on t name) (standing_meant ms read)) }
{
    match read {
        Standing::Value(ty) => {
            let outcome = field_on(alloc, &ty, name)?;
            Ok(Standing::of_outcome(place, outcome))
        }
        other => Ok(other),
    }
}

/// A copy's number.
fn select_copy(
    scope: &Scope<'_, '_>,
    begin: Place,
    before: Standing,
    place: Place,
    number: u128,
) -> Standing
    ensures { standing_meant scope.now.system.modules result ≡ select scope.now begin (standing_meant scope.now.system.modules before) (Copy place number) }
{
    match before {
        Standing::Inside(_, _) => wrong_copy(place),
        Standing::State(ty) => scope.copied(begin, place, ty, number),
        other => {
            let read = scope.read(begin, other);
            copy_of(read, place)
        }
    }
}

fn wrong_copy(place: Place) -> Standing
    ensures { (ms : List Module) → standing_meant ms result ≡ Wrong (broken BadCopy place) }
{
    Standing::Wrong(Fault {
        rule: Rule::BadCopy,
        place,
    })
}

fn copy_of(read: Standing, place: Place) -> Standing
    ensures { (ms : List Module) → standing_meant ms result ≡ on_value place (λ t. Breaks BadCopy) (standing_meant ms read) }
{
    match read {
        Standing::Value(_) => wrong_copy(place),
        other => other,
    }
}

/// An element of an array, by the type of its index.
fn select_element(
    alloc: Global,
    read: Standing,
    place: Place,
    index: &Option<Ty>,
) -> Result<Standing, AllocError>
    ensures { (ms : List Module) → IfOk result (λ s. standing_meant ms s ≡ on_value place (λ t. element_on t index.now) (standing_meant ms read)) }
{
    match read {
        Standing::Value(ty) => {
            let outcome = element_on(alloc, &ty, index)?;
            Ok(Standing::of_outcome(place, outcome))
        }
        other => Ok(other),
    }
}

/// An array with a new element, by the types of its index and of its value.
fn select_update(
    alloc: Global,
    read: Standing,
    place: Place,
    index: &Option<Ty>,
    value: &Option<Ty>,
) -> Result<Standing, AllocError>
    ensures { (ms : List Module) → IfOk result (λ s. standing_meant ms s ≡ on_value place (λ t. update_on t index.now value.now) (standing_meant ms read)) }
{
    match read {
        Standing::Value(ty) => {
            let outcome = update_on(alloc, &ty, index, value)?;
            Ok(Standing::of_outcome(place, outcome))
        }
        other => Ok(other),
    }
}

/// The bits from `high` down to `low`.
fn select_extract(read: Standing, place: Place, high: u128, low: u128) -> Standing
    ensures { (ms : List Module) → standing_meant ms result ≡ on_value place (λ t. extract_on t high low) (standing_meant ms read) }
{
    match read {
        Standing::Value(ty) => Standing::of_outcome(place, extract_on(&ty, high, low)),
        other => other,
    }
}

/// What stands behind a field. A fault is noted.
pub(crate) fn after_field(
    alloc: Global,
    scope: &Scope<'_, '_>,
    begin: Place,
    before: Standing,
    place: Place,
    name: Identifier,
    first: &mut Option<Fault>,
) -> Result<Standing, AllocError>
    ensures { IfOk result (λ s. Selects scope.now begin (standing_meant scope.now.system.modules before) (Field place name) first.old first.new (standing_meant scope.now.system.modules s)) }
{
    let selected = select_field(alloc, scope, begin, before, place, name)?;
    Ok(note_standing(selected, first))
}

/// What stands behind a copy's number. A fault is noted.
pub(crate) fn after_copy(
    scope: &Scope<'_, '_>,
    begin: Place,
    before: Standing,
    place: Place,
    number: u128,
    first: &mut Option<Fault>,
) -> Standing
    ensures { Selects scope.now begin (standing_meant scope.now.system.modules before) (Copy place number) first.old first.new (standing_meant scope.now.system.modules result) }
{
    let selected = select_copy(scope, begin, before, place, number);
    note_standing(selected, first)
}

/// What stands behind an index of a type. A fault is noted.
pub(crate) fn after_element(
    alloc: Global,
    scope: &Scope<'_, '_>,
    begin: Place,
    before: Standing,
    place: Place,
    index: Option<Ty>,
    first: &mut Option<Fault>,
) -> Result<Standing, AllocError>
    ensures { IfOk result (λ s. (i : Part) → index ≡ (i scope.now).type → Selects scope.now begin (standing_meant scope.now.system.modules before) (Element place i) first.old first.new (standing_meant scope.now.system.modules s)) }
{
    let read = scope.read(begin, before);
    let selected = select_element(alloc, read, place, &index)?;
    Ok(note_standing(selected, first))
}

/// What stands behind a new element by the types of its index and its value. A fault is noted.
pub(crate) fn after_update(
    alloc: Global,
    scope: &Scope<'_, '_>,
    begin: Place,
    before: Standing,
    place: Place,
    index: Option<Ty>,
    value: Option<Ty>,
    first: &mut Option<Fault>,
) -> Result<Standing, AllocError>
    ensures { IfOk result (λ s. (i v : Part) → index ≡ (i scope.now).type → value ≡ (v scope.now).type → Selects scope.now begin (standing_meant scope.now.system.modules before) (Update place i v) first.old first.new (standing_meant scope.now.system.modules s)) }
{
    let read = scope.read(begin, before);
    let selected = select_update(alloc, read, place, &index, &value)?;
    Ok(note_standing(selected, first))
}

/// What stands behind an extraction. A fault is noted.
pub(crate) fn after_extract(
    scope: &Scope<'_, '_>,
    begin: Place,
    before: Standing,
    place: Place,
    high: u128,
    low: u128,
    first: &mut Option<Fault>,
) -> Standing
    ensures { Selects scope.now begin (standing_meant scope.now.system.modules before) (Extract place high low) first.old first.new (standing_meant scope.now.system.modules result) }
{
    let read = scope.read(begin, before);
    let selected = select_extract(read, place, high, low);
    note_standing(selected, first)
}
