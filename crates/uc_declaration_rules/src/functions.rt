//! Functions and defines.

ghost use Rattle.std.specs.Prelude.{◌≡◌, OnOk};
ghost use Rattle.std.specs.List.{flat_map};
ghost use Rattle.uc_meaning.specs.Lookup.{System};
ghost use Rattle.uc_rules.specs.Declarations.{define_faults, function_faults, in_module};
ghost use Rattle.uc_rules.specs.Faults.{first_of};
ghost use Rattle.uc_rules.specs.Types.{scalar_faults, type_found, type_of};
ghost use Rattle.uc_syntax.specs.declared.declaration.Module.{Module};
ghost use Rattle.uc_values.specs.Types.{is_scalar};

use crate::home::Home;
use crate::parameters::note_parameters;
use std::alloc::{AllocError, Global};
use uc_expression_rules::judge;
use uc_read_names::Scope;
use uc_rules::{Fault, Role, Rule, note_where, same_outcome, settle};
use uc_syntax::{Expr, Parameter, Place, TypeExpr};
use uc_values::Ty;

/// Notes the faults of a function: those of its parameters and of its result, and each of them that is no scalar.
pub(crate) fn judge_function(
    alloc: Global,
    home: &Home<'_, '_>,
    parameters: &[Parameter<TypeExpr>],
    ty: &TypeExpr,
    first: &mut Option<Fault>,
) -> Result<(), AllocError>
    ensures { OnOk result (first.new ≡ first_of first.old (function_faults home.now.system home.now.home parameters.now ty.now)) }
{
    let mut scope = home.scope(alloc);
    judge_function_in(alloc, &mut scope, parameters, ty, first)
}

/// The same in a scope that is outside all others.
fn judge_function_in(
    alloc: Global,
    scope: &mut Scope<'_, '_>,
    parameters: &[Parameter<TypeExpr>],
    ty: &TypeExpr,
    first: &mut Option<Fault>,
) -> Result<(), AllocError>
    requires { scope.old ≡ in_module scope.old.system scope.old.home }
    ensures { OnOk result (first.new ≡ first_of first.old (function_faults scope.old.system scope.old.home parameters.now ty.now)) }
{
    note_parameters(alloc, scope, Role::Parameter, parameters, first)?;
    let given = scope.note_type(alloc, ty, first)?;
    note_scalars(alloc, scope, parameters, first)?;
    note_scalar(first, place_of(ty), &given);
    Ok(())
}

/// Notes each parameter that is no scalar, at its name.
fn note_scalars(
    alloc: Global,
    scope: &Scope<'_, '_>,
    parameters: &[Parameter<TypeExpr>],
    first: &mut Option<Fault>,
) -> Result<(), AllocError>
    ensures { OnOk result (first.new ≡ first_of first.old (flat_map (λ p. scalar_faults p.identifier.place (type_of scope.now.system scope.now.home p.ty)) parameters.now)) }
{
    for parameter in parameters {
        let ty = scope.type_of(alloc, &parameter.ty)?;
        note_scalar(first, parameter.identifier.place, &ty);
    }
    Ok(())
}

/// Notes a type that is known and is no scalar.
#[tactic(auto, unfolding(uc_rules::specs::Faults::first_of))]
fn note_scalar(first: &mut Option<Fault>, place: Place, ty: &Option<Ty>)
    ensures { first.new ≡ first_of first.old (scalar_faults place ty.now) }
{
    if let Some(ty) = ty {
        note_where(first, !is_scalar(ty), Rule::ArrayShape, place);
    }
}

fn is_scalar(ty: &Ty) -> bool
    ensures { result ≡ is_scalar ty.now }
{
    match ty {
        Ty::Rec(_) => false,
        Ty::Arr(_, _) => false,
        _ => true,
    }
}

/// Where a written type begins.
fn place_of(ty: &TypeExpr) -> Place
    ensures { (s : System) (m : Module) → result ≡ (type_found s m ty.now).place }
{
    match ty {
        TypeExpr::Boolean(place) => *place,
        TypeExpr::Integer(place) => *place,
        TypeExpr::Bits(place, _) => *place,
        TypeExpr::Enumeration(place, _) => *place,
        TypeExpr::Record(place, _) => *place,
        TypeExpr::Array(place, _, _) => *place,
        TypeExpr::Named(place, _) => *place,
        TypeExpr::OfModule(place, _, _) => *place,
    }
}

/// Notes the faults of a define: those of its parameters, of its type and of its body, and a body of another type, at the word `define`.
pub(crate) fn judge_define(
    alloc: Global,
    home: &Home<'_, '_>,
    place: Place,
    parameters: &[Parameter<TypeExpr>],
    ty: &TypeExpr,
    body: &Expr,
    first: &mut Option<Fault>,
) -> Result<(), AllocError>
    ensures { OnOk result (first.new ≡ first_of first.old (define_faults home.now.system home.now.home place parameters.now ty.now body.now)) }
{
    let mut scope = home.scope(alloc);
    judge_define_in(alloc, &mut scope, place, parameters, ty, body, first)
}

/// The same in a scope that is outside all others.
fn judge_define_in(
    alloc: Global,
    scope: &mut Scope<'_, '_>,
    place: Place,
    parameters: &[Parameter<TypeExpr>],
    ty: &TypeExpr,
    body: &Expr,
    first: &mut Option<Fault>,
) -> Result<(), AllocError>
    requires { scope.old ≡ in_module scope.old.system scope.old.home }
    ensures { OnOk result (first.new ≡ first_of first.old (define_faults scope.old.system scope.old.home place parameters.now ty.now body.now)) }
{
    note_parameters(alloc, scope, Role::Parameter, parameters, first)?;
    let written = scope.note_type(alloc, ty, first)?;
    let given = judge(alloc, scope, body, first)?;
    settle(first, place, same_outcome(given, &written));
    Ok(())
}
