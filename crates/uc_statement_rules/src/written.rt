//! Names that are written: targets and `havoc`.

ghost use Rattle.std.specs.Prelude.{◌≡◌, ◌&&◌, ◌||◌, Bool, not, if◌then◌else◌, Option, Some, IfOk};
ghost use Rattle.uc_lexer.specs.declared.place.Place.{Place};
ghost use Rattle.uc_names.specs.Senses.{value_meant};
ghost use Rattle.uc_rules.specs.Expressions.{Context, ValueOf, Wrong, bound_named, standing};
ghost use Rattle.uc_rules.specs.Faults.{broken};
ghost use Rattle.uc_rules.specs.Names.{is_name_of, value_named};
ghost use Rattle.uc_rules.specs.Outcomes.{outcome_of};
ghost use Rattle.uc_rules.specs.Statements.{havoc_standing, is_written_kind, is_written_value, kind_written, role_written, target_standing, value_written, written_from};
ghost use Rattle.uc_rules.specs.Types.{type_of};
ghost use Rattle.uc_rules.specs.declared.rule.Rule.TheVariants.{BadPrime, NotAssignable, UnknownName};
ghost use Rattle.uc_values.specs.declared.ty.Ty.{Ty};

use std::alloc::{AllocError, Global};
use uc_lookup::Variable;
use uc_names::Value;
use uc_read_names::{Scope, copy_type};
use uc_rules::{Known, Outcome, Role, Rule};
use uc_syntax::VariableKind;
use uc_values::Ty;

/// What a target gives: the type of its name, or the rule that it breaks. In a next block it bears a prime, elsewhere it bears none.
pub(crate) fn target_outcome(
    alloc: Global,
    scope: &Scope<'_, '_>,
    name: u32,
    is_primed: bool,
) -> Result<Outcome, AllocError>
    ensures { IfOk result (λ o. (place : Place) → standing place o ≡ target_standing scope.now place name is_primed) }
{
    let in_next = scope.is_in_next();
    let variable_fits = target_fits(in_next, is_primed);
    let local_fits = local_fits(in_next, is_primed);
    let outcome = written(alloc, scope, name, variable_fits, local_fits)?;
    Ok(outcome)
}

/// What `havoc` of a name gives. In a next block it means the same with a prime and without one.
pub(crate) fn havoc_outcome(
    alloc: Global,
    scope: &Scope<'_, '_>,
    name: u32,
    is_primed: bool,
) -> Result<Outcome, AllocError>
    ensures { IfOk result (λ o. (place : Place) → standing place o ≡ havoc_standing scope.now place name is_primed) }
{
    let variable_fits = havoc_fits(scope.is_in_next(), is_primed);
    let outcome = written(alloc, scope, name, variable_fits, !is_primed)?;
    Ok(outcome)
}

fn target_fits(in_next: bool, is_primed: bool) -> bool
    ensures { result ≡ (if in_next then is_primed else not is_primed) }
{
    if in_next { is_primed } else { !is_primed }
}

fn local_fits(in_next: bool, is_primed: bool) -> bool
    ensures { result ≡ (not in_next && not is_primed) }
{
    !in_next && !is_primed
}

fn havoc_fits(in_next: bool, is_primed: bool) -> bool
    ensures { result ≡ (in_next || not is_primed) }
{
    in_next || !is_primed
}

/// What a name gives that is written, where its prime fits for a variable and for a local as told.
fn written(
    alloc: Global,
    scope: &Scope<'_, '_>,
    name: u32,
    variable_fits: bool,
    local_fits: bool,
) -> Result<Outcome, AllocError>
    ensures { IfOk result (λ o. (place : Place) → standing place o ≡ written_from scope.now place name variable_fits local_fits (bound_named scope.now name)) }
{
    match scope.known(name) {
        Some(known) => {
            let outcome = local_written(alloc, known, local_fits)?;
            Ok(outcome)
        }
        None => {
            let outcome = module_written(alloc, scope, name, variable_fits)?;
            Ok(outcome)
        }
    }
}

/// A local or a result is written, where its prime fits.
fn local_written(alloc: Global, known: &Known, fits: bool) -> Result<Outcome, AllocError>
    ensures { IfOk result (λ o. (c : Context) (place : Place) → standing place o ≡ role_written c place fits known.now.role known.now.ty) }
{
    match known.role {
        Role::Parameter => Ok(Outcome::Breaks(Rule::NotAssignable)),
        Role::Counter => Ok(Outcome::Breaks(Rule::NotAssignable)),
        Role::Result => {
            let outcome = value_where(alloc, &known.ty, fits)?;
            Ok(outcome)
        }
        Role::Local => {
            let outcome = value_where(alloc, &known.ty, fits)?;
            Ok(outcome)
        }
    }
}

fn value_where(alloc: Global, ty: &Option<Ty>, fits: bool) -> Result<Outcome, AllocError>
    ensures { IfOk result (λ o. (place : Place) → standing place o ≡ (if fits then ValueOf ty.now else Wrong (broken BadPrime place))) }
{
    if !fits {
        return Ok(Outcome::Breaks(Rule::BadPrime));
    }
    let ty = copy_type(alloc, ty)?;
    Ok(outcome_of(ty))
}

/// A part with its type.
pub(crate) fn outcome_of(ty: Option<Ty>) -> Outcome
    ensures { result ≡ outcome_of ty }
{
    match ty {
        Some(ty) => Outcome::Has(ty),
        None => Outcome::Unjudged,
    }
}

/// A name of the module is written, where its prime fits.
fn module_written(
    alloc: Global,
    scope: &Scope<'_, '_>,
    name: u32,
    fits: bool,
) -> Result<Outcome, AllocError>
    ensures { IfOk result (λ o. (place : Place) → standing place o ≡ value_written scope.now place name fits (value_named scope.now.system scope.now.home name)) }
{
    match scope.value(name) {
        None => Ok(Outcome::Breaks(unwritten(scope, name))),
        Some(value) => {
            let outcome = some_written(alloc, scope, name, fits, value)?;
            Ok(outcome)
        }
    }
}

fn some_written(
    alloc: Global,
    scope: &Scope<'_, '_>,
    name: u32,
    fits: bool,
    value: Value<'_>,
) -> Result<Outcome, AllocError>
    ensures { IfOk result (λ o. (place : Place) → standing place o ≡ value_written scope.now place name fits (Some (value_meant value.entry))) }
{
    match value {
        Value::Label(_) => Ok(Outcome::Breaks(Rule::NotAssignable)),
        Value::Variable(variable) => {
            let outcome = variable_written(alloc, scope, name, fits, variable)?;
            Ok(outcome)
        }
    }
}

/// The rule that a name breaks that is written and is no value.
fn unwritten(scope: &Scope<'_, '_>, name: u32) -> Rule
    ensures { result ≡ (if is_name_of scope.now.system scope.now.home name then NotAssignable else UnknownName) }
{
    if scope.has_name(name) {
        Rule::NotAssignable
    } else {
        Rule::UnknownName
    }
}

/// A variable or an output is written, by the procedure around it too.
fn variable_written(
    alloc: Global,
    scope: &Scope<'_, '_>,
    name: u32,
    fits: bool,
    variable: Variable<'_>,
) -> Result<Outcome, AllocError>
    ensures { IfOk result (λ o. (place : Place) → standing place o ≡ kind_written scope.now place name fits variable.entry.kind (type_of scope.now.system scope.now.home variable.entry.ty.now)) }
{
    if !is_written_kind(variable.kind) {
        return Ok(Outcome::Breaks(Rule::NotAssignable));
    }
    if !fits {
        return Ok(Outcome::Breaks(Rule::BadPrime));
    }
    if !scope.may_modify(name) {
        return Ok(Outcome::Breaks(Rule::NotModifies));
    }
    let ty = scope.type_of(alloc, variable.ty)?;
    Ok(outcome_of(ty))
}

fn is_written_kind(kind: VariableKind) -> bool
    ensures { result ≡ is_written_kind kind }
{
    match kind {
        VariableKind::Variable => true,
        VariableKind::Output => true,
        VariableKind::Input => false,
        VariableKind::Constant => false,
    }
}

/// Whether a name of the module is a variable or an output.
pub fn is_written(scope: &Scope<'_, '_>, name: u32) -> bool
    ensures { result ≡ is_written_value (value_named scope.now.system scope.now.home name) }
{
    match scope.value(name) {
        Some(value) => is_written_value(value),
        None => false,
    }
}

fn is_written_value(value: Value<'_>) -> bool
    ensures { result ≡ is_written_value (Some (value_meant value.entry)) }
{
    match value {
        Value::Variable(variable) => is_written_kind(variable.kind),
        Value::Label(_) => false,
    }
}
