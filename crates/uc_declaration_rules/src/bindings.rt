//! Bindings of instances.

ghost use Rattle.std.specs.Prelude.{◌≡◌, Some, OnOk};
ghost use Rattle.uc_declaration_rules.specs.Judging.{bound_faults, judged_and_bound, kind_faults, output_faults, value_faults, valued_faults};
ghost use Rattle.uc_names.specs.Senses.{module_in, value_meant};
ghost use Rattle.uc_rules.specs.Declarations.{output_typed, output_valued};
ghost use Rattle.uc_rules.specs.Faults.{first_of};
ghost use Rattle.uc_rules.specs.Names.{value_named};
ghost use Rattle.uc_rules.specs.Outcomes.{faults_in};
ghost use Rattle.uc_rules.specs.Rows.{same_outcome};
ghost use Rattle.std.specs.Option.{option_map};

use std::alloc::{AllocError, Global};
use uc_expression_rules::{judge, name_of};
use uc_names::Value;
use uc_read_names::Scope;
use uc_rules::{Fault, Rule, note, same_outcome, settle};
use uc_statement_rules::is_written;
use uc_syntax::{Binding, Place, VariableKind};
use uc_values::Ty;

/// Notes the faults of the expression that is bound and, where the instance's module is there, by its place among the modules, those of the
/// binding.
pub(crate) fn judge_binding(
    alloc: Global,
    scope: &Scope<'_, '_>,
    number: Option<usize>,
    binding: &Binding,
    first: &mut Option<Fault>,
) -> Result<(), AllocError>
    ensures { OnOk result (first.new ≡ first_of first.old (judged_and_bound scope.now (option_map (module_in scope.now.system.modules) number) binding.now)) }
{
    let ty = judge(alloc, scope, &binding.expression, first)?;
    match number {
        None => Ok(()),
        Some(number) => note_binding(alloc, scope, number, binding, ty, first),
    }
}

/// Notes the faults of a binding by the type of its expression: a name that is neither an input nor an output of the module at a place,
/// another type, and an output that is bound to no variable and no output of this module.
fn note_binding(
    alloc: Global,
    scope: &Scope<'_, '_>,
    number: usize,
    binding: &Binding,
    ty: Option<Ty>,
    first: &mut Option<Fault>,
) -> Result<(), AllocError>
    ensures { OnOk result (first.new ≡ first_of first.old (bound_faults scope.now (module_in scope.now.system.modules number) binding.now ty)) }
{
    let place = binding.identifier.place;
    match scope.value_in(number, binding.identifier.name) {
        None => {
            note(first, Rule::UnknownName, place);
            Ok(())
        }
        Some(value) => note_value(alloc, scope, number, binding, value, ty, first),
    }
}

fn note_value(
    alloc: Global,
    scope: &Scope<'_, '_>,
    number: usize,
    binding: &Binding,
    value: Value<'_>,
    ty: Option<Ty>,
    first: &mut Option<Fault>,
) -> Result<(), AllocError>
    ensures { OnOk result (first.new ≡ first_of first.old (value_faults scope.now (module_in scope.now.system.modules number) binding.now ty (Some (value_meant value.entry)))) }
{
    let place = binding.identifier.place;
    match value {
        Value::Label(_) => {
            note(first, Rule::UnknownName, place);
            Ok(())
        }
        Value::Variable(variable) => {
            let bound = scope.type_in(alloc, number, variable.ty)?;
            note_kind(scope, binding, variable.kind, ty, &bound, first);
            Ok(())
        }
    }
}

#[tactic(auto, unfolding(uc_rules::specs::Faults::first_of))]
fn note_kind(
    scope: &Scope<'_, '_>,
    binding: &Binding,
    kind: VariableKind,
    ty: Option<Ty>,
    bound: &Option<Ty>,
    first: &mut Option<Fault>,
)
    ensures { first.new ≡ first_of first.old (kind_faults scope.now binding.now kind ty bound.now) }
{
    let place = binding.identifier.place;
    match kind {
        VariableKind::Input => {
            note_same(place, ty, bound, first);
        }
        VariableKind::Output => note_output(scope, binding, ty, bound, first),
        VariableKind::Variable => note(first, Rule::UnknownName, place),
        VariableKind::Constant => note(first, Rule::UnknownName, place),
    }
}

fn note_same(place: Place, ty: Option<Ty>, bound: &Option<Ty>, first: &mut Option<Fault>)
    ensures { first.new ≡ first_of first.old (faults_in place (same_outcome ty bound.now)) }
{
    settle(first, place, same_outcome(ty, bound));
}

/// Notes an output that is bound to what is no variable and no output, or to one of another type.
fn note_output(
    scope: &Scope<'_, '_>,
    binding: &Binding,
    ty: Option<Ty>,
    bound: &Option<Ty>,
    first: &mut Option<Fault>,
)
    ensures { first.new ≡ first_of first.old (output_faults scope.now binding.now ty bound.now) }
{
    let place = binding.identifier.place;
    match name_of(&binding.expression) {
        None => note_typed(place, &ty, first),
        Some(name) => note_output_named(scope, place, name, ty, bound, first),
    }
}

#[tactic(auto, unfolding(uc_rules::specs::Faults::first_of))]
fn note_typed(place: Place, ty: &Option<Ty>, first: &mut Option<Fault>)
    ensures { first.new ≡ first_of first.old (output_typed place ty.now) }
{
    match ty {
        None => {}
        Some(_) => note(first, Rule::NotAssignable, place),
    }
}

fn note_output_named(
    scope: &Scope<'_, '_>,
    place: Place,
    name: u32,
    ty: Option<Ty>,
    bound: &Option<Ty>,
    first: &mut Option<Fault>,
)
    ensures { first.new ≡ first_of first.old (output_valued place ty bound.now (value_named scope.now.system scope.now.home name)) }
{
    match scope.value(name) {
        None => note_typed(place, &ty, first),
        Some(_) => note_output_valued(place, is_written(scope, name), ty, bound, first),
    }
}

#[tactic(auto, unfolding(uc_rules::specs::Faults::first_of))]
fn note_output_valued(
    place: Place,
    is_written: bool,
    ty: Option<Ty>,
    bound: &Option<Ty>,
    first: &mut Option<Fault>,
)
    ensures { first.new ≡ first_of first.old (valued_faults place is_written ty bound.now) }
{
    if is_written {
        note_same(place, ty, bound, first);
    } else {
        note(first, Rule::NotAssignable, place);
    }
}
