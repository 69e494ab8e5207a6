//! The fields of a target before its first index.

ghost use Rattle.std.specs.Prelude.{◌≡◌, IfOk};
ghost use Rattle.uc_meaning.specs.Expressions.{reading, name as name_says};
ghost use Rattle.uc_meaning.specs.Overflow.{met, name_met};
ghost use Rattle.uc_meaning.specs.Steps.{fields_before, from_index, part_reading};
ghost use Rattle.uc_operators.specs.Overflows.{first_wide, TellsWide};
ghost use Rattle.uc_readings.specs.Scopes.{scope_in};
ghost use Rattle.uc_readings.specs.Readings.{reading_of};

use std::alloc::{AllocError, Global};
use uc_evaluator::name_reading;
use uc_items::Items;
use uc_layout::Layout;
use uc_operators::EvalError;
use uc_readings::{Said, ScopeRef, field};
use uc_syntax::TargetPart;

/// The fields before the first index.
pub(crate) fn fields_before(alloc: Global, parts: &[TargetPart]) -> Result<Items<u32>, AllocError>
    ensures { IfOk result (λ fs. fs ≡ fields_before parts.now) }
{
    let mut fields = Items::new(alloc);
    for part in parts {
        match part {
            TargetPart::Field(_, name) => {
                fields.push(name.name)?;
            }
            TargetPart::Element(_, _) => {
                return Ok(fields);
            }
        }
    }
    Ok(fields)
}

/// What follows from the first index on.
#[tactic(auto, unfolding(uc_meaning::specs::Steps::from_index))]
pub(crate) fn from_index(parts: &[TargetPart]) -> &[TargetPart]
    ensures { result.now ≡ from_index parts.now }
{
    match parts.split_first() {
        Some((TargetPart::Field(_, _), rest)) => from_index(rest),
        _ => parts,
    }
}

/// The part of a name that fields lead to.
pub(crate) fn part_of_name(
    alloc: Global,
    layout: &Layout,
    scope: &ScopeRef<'_>,
    name: u32,
    is_primed: bool,
    fields: &[u32],
) -> Result<Said, EvalError>
    ensures value { IfOk result (λ r. reading_of r ≡ part_reading (name_says layout.now (reading layout.now) (scope_in scope.now) name is_primed) fields.now) }
    ensures wide { TellsWide (first_wide (name_met layout.now (met layout.now) (scope_in scope.now) name is_primed)) result }
{
    let whole = name_reading(alloc, layout, scope, name, is_primed)?;
    Ok(part(alloc, whole, fields)?)
}

/// The part that fields lead to.
fn part(alloc: Global, whole: Said, fields: &[u32]) -> Result<Said, AllocError>
    ensures { IfOk result (λ r. reading_of r ≡ part_reading (reading_of whole) fields.now) }
{
    let mut here = whole;
    for name in fields {
        here = field(alloc, &here, *name)?;
    }
    Ok(here)
}
