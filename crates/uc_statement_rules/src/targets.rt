//! Targets with their parts, and assignments.

ghost use Rattle.std.specs.Prelude.{◌≡◌, ◌++◌, IfOk, OnOk};
ghost use Rattle.uc_expression_rules.specs.Judging.{Finds, FindsOutcome, FindsOwn};
ghost use Rattle.uc_rules.specs.Expressions.{judged};
ghost use Rattle.uc_rules.specs.Faults.{first_of};
ghost use Rattle.uc_rules.specs.Outcomes.{faults_in, type_in};
ghost use Rattle.uc_rules.specs.Rows.{element_on, field_on};
ghost use Rattle.uc_rules.specs.Statements.{assign_faults, part_inner, part_outcome, part_place, parts_faults, parts_type, target_own};
ghost use Rattle.uc_statement_rules.specs.Judging.{JudgesTargets};

use crate::written::target_outcome;
use std::alloc::{AllocError, Global};
use uc_expression_rules::{judge, judge_all};
use uc_items::Items;
use uc_read_names::Scope;
use uc_rules::{Fault, element_on, field_on, settle};
use uc_syntax::{Expr, Identifier, Place, Target, TargetPart};
use uc_type_names::note_misfit;
use uc_values::Ty;

/// The type of what stands behind a part of a target, where nothing is broken. Its faults are noted.
fn judge_part(
    alloc: Global,
    scope: &Scope<'_, '_>,
    before: &Option<Ty>,
    part: &TargetPart,
    first: &mut Option<Fault>,
) -> Result<Option<Ty>, AllocError>
    ensures { IfOk result (λ t. Finds first.old first.new t (part_inner scope.now part.now ++ faults_in (part_place part.now) (part_outcome scope.now before.now part.now)) (type_in (part_outcome scope.now before.now part.now))) }
{
    match part {
        TargetPart::Field(place, name) => {
            let ty = judge_field(alloc, before, *place, *name, first)?;
            Ok(ty)
        }
        TargetPart::Element(place, index) => {
            let ty = judge_element(alloc, scope, before, *place, index, first)?;
            Ok(ty)
        }
    }
}

fn judge_field(
    alloc: Global,
    before: &Option<Ty>,
    place: Place,
    name: Identifier,
    first: &mut Option<Fault>,
) -> Result<Option<Ty>, AllocError>
    ensures { IfOk result (λ t. FindsOutcome first.old first.new t place (field_on before.now name.name)) }
{
    let outcome = field_on(alloc, before, name.name)?;
    Ok(settle(first, place, outcome))
}

fn judge_element(
    alloc: Global,
    scope: &Scope<'_, '_>,
    before: &Option<Ty>,
    place: Place,
    index: &Expr,
    first: &mut Option<Fault>,
) -> Result<Option<Ty>, AllocError>
    ensures { IfOk result (λ t. Finds first.old first.new t ((judged index.now scope.now).faults ++ faults_in place (element_on before.now (judged index.now scope.now).type)) (type_in (element_on before.now (judged index.now scope.now).type))) }
{
    let index = judge(alloc, scope, index, first)?;
    let outcome = element_on(alloc, before, &index)?;
    Ok(settle(first, place, outcome))
}

/// The type of a target behind all of its parts.
#[tactic(auto, using(crate::proofs::Parts::parts_begin, crate::proofs::Parts::parts_more, crate::proofs::Parts::parts_end))]
fn judge_parts(
    alloc: Global,
    scope: &Scope<'_, '_>,
    start: Option<Ty>,
    parts: &[TargetPart],
    first: &mut Option<Fault>,
) -> Result<Option<Ty>, AllocError>
    ensures { IfOk result (λ t. Finds first.old first.new t (parts_faults scope.now start parts.now) (parts_type scope.now start parts.now)) }
{
    let mut ty = start;
    for part in parts {
        ty = judge_part(alloc, scope, &ty, part, first)?;
    }
    Ok(ty)
}

/// The type of a target, where nothing in it is broken. Its faults are noted.
fn judge_target(
    alloc: Global,
    scope: &Scope<'_, '_>,
    target: &Target,
    first: &mut Option<Fault>,
) -> Result<Option<Ty>, AllocError>
    ensures { IfOk result (λ t. FindsOwn first.old first.new t (target_own scope.now target.now)) }
{
    let outcome = target_outcome(alloc, scope, target.name, target.is_primed)?;
    let start = settle(first, target.place, outcome);
    let ty = judge_parts(alloc, scope, start, target.parts.as_slice(), first)?;
    Ok(ty)
}

/// The types of several targets.
pub(crate) fn judge_targets(
    alloc: Global,
    scope: &Scope<'_, '_>,
    targets: &[Target],
    first: &mut Option<Fault>,
) -> Result<Items<Option<Ty>>, AllocError>
    ensures { IfOk result (λ ts. JudgesTargets scope.now targets.now first.old first.new ts) }
{
    let mut types = Items::new(alloc);
    for target in targets {
        let ty = judge_target(alloc, scope, target, first)?;
        types.push(ty)?;
    }
    Ok(types)
}

/// Notes the faults of an assignment: those of its targets and values, and that they differ in number or in type, at its first token.
pub(crate) fn judge_assignment(
    alloc: Global,
    scope: &Scope<'_, '_>,
    place: Place,
    targets: &[Target],
    sources: &[Expr],
    first: &mut Option<Fault>,
) -> Result<(), AllocError>
    ensures { OnOk result (first.new ≡ first_of first.old (assign_faults scope.now place targets.now sources.now)) }
{
    let written = judge_targets(alloc, scope, targets, first)?;
    let values = judge_all(alloc, scope, sources, first)?;
    note_misfit(first, place, written.as_slice(), values.as_slice());
    Ok(())
}
