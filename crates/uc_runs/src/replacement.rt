//! A value with a part replaced.

ghost use Rattle.std.specs.Prelude.{◌≡◌, IfOk};
ghost use Rattle.uc_values.specs.Arrays.{at, store};
ghost use Rattle.uc_values.specs.Values.{with_field};
ghost use Rattle.uc_meaning.specs.Expressions.{element_type, fields_of, field_number, reads, value};
ghost use Rattle.uc_meaning.specs.Overflow.{met};
ghost use Rattle.uc_meaning.specs.Code.{replaced};
ghost use Rattle.uc_operators.specs.Overflows.{first_wide, TellsWide};
ghost use Rattle.uc_readings.specs.Scopes.{scope_in};
ghost use Rattle.uc_readings.specs.Readings.{reading_of};
ghost use Rattle.uc_runs.specs.Targets.{parts_met};

use crate::with_field;
use std::alloc::{AllocError, Global};
use uc_evaluator::reading;
use uc_items::beside;
use uc_layout::Layout;
use uc_operators::EvalError;
use uc_readings::{Said, ScopeRef, element, field};
use uc_syntax::{Expr, TargetPart};
use uc_values::{Value, store};

/// The value with the part behind fields and indices replaced, where the indices are read in a scope.
pub fn replaced(
    alloc: Global,
    layout: &Layout,
    scope: &ScopeRef<'_>,
    whole: Said,
    parts: &[TargetPart],
    new: Value,
) -> Result<Value, EvalError>
    ensures value { IfOk result (λ v. v ≡ replaced layout.now (scope_in scope.now) (reading_of whole) parts.now new) }
    ensures wide { TellsWide (first_wide (parts_met layout.now (scope_in scope.now) parts.now)) result }
{
    let Some((first, rest)) = parts.split_first() else {
        drop(whole);
        return Ok(new);
    };
    match first {
        TargetPart::Field(_, name) => {
            let inner = field(alloc, &whole, name.name);
            let ((whole, new), inner) = beside((whole, new), inner)?;
            let part = replaced(alloc, layout, scope, inner, rest, new);
            let (outer, part) = beside(whole, part)?;
            Ok(changed(alloc, outer, name.name, part))
        }
        TargetPart::Element(_, index) => {
            let found = found_element(alloc, layout, scope, &whole, index);
            let ((whole, new), (index, inner)) = beside((whole, new), found)?;
            let part = replaced(alloc, layout, scope, inner, rest, new);
            let ((outer, index), part) = beside((whole, index), part)?;
            let value = stored(alloc, outer, index, part)?;
            Ok(value)
        }
    }
}

/// The record with a field changed.
fn changed(alloc: Global, whole: Said, name: u32, part: Value) -> Value
    ensures { result ≡ with_field whole.value (field_number (fields_of whole.ty) name) part }
{
    let Said { ty, value } = whole;
    with_field(alloc, &ty, value, name, part)
}

/// The value of an index, and the element there.
fn found_element(
    alloc: Global,
    layout: &Layout,
    scope: &ScopeRef<'_>,
    whole: &Said,
    index: &Expr,
) -> Result<(Value, Said), EvalError>
    ensures index { IfOk result (λ p. p.0 ≡ value layout.now (scope_in scope.now) index.now) }
    ensures element { IfOk result (λ p. reading_of p.1 ≡ reads (element_type whole.now.ty) (at whole.now.value p.0)) }
    ensures wide { TellsWide (first_wide (met layout.now (scope_in scope.now) index.now)) result }
{
    let Said { ty: _, value } = reading(alloc, layout, scope, index)?;
    let inner = element(alloc, whole, &value);
    let (index, inner) = beside(value, inner)?;
    Ok((index, inner))
}

/// The array with an element stored.
fn stored(alloc: Global, whole: Said, index: Value, part: Value) -> Result<Value, AllocError>
    ensures { IfOk result (λ v. v ≡ store whole.value index part) }
{
    let value = store(alloc, &whole.value, &index, &part);
    drop((whole, index, part));
    value
}
