//! Declarations by their forms.

ghost use Rattle.std.specs.Prelude.{◌≡◌, ◌&&◌, nat_le, OnOk};
ghost use Rattle.uc_declaration_rules.specs.Judging.{import_faults};
ghost use Rattle.uc_rules.specs.Declarations.{declaration_faults, hyper_faults};
ghost use Rattle.uc_rules.specs.Expressions.{condition_faults};
ghost use Rattle.uc_rules.specs.Faults.{first_of};
ghost use Rattle.uc_rules.specs.Types.{type_faults};

use crate::control::judge_control;
use crate::functions::{judge_define, judge_function};
use crate::home::Home;
use crate::instances::judge_instance;
use crate::procedures::{judge_body, judge_procedure};
use std::alloc::{AllocError, Global};
use uc_expression_rules::note_condition;
use uc_read_names::Scope;
use uc_rules::{Fault, Rule, note_where};
use uc_syntax::{Decl, Expr, Identifier, Place, TypeExpr};

/// Notes the faults of a declaration.
#[tactic(auto, unfolding(uc_rules::specs::Faults::first_of))]
pub fn judge_declaration(
    alloc: Global,
    home: &Home<'_, '_>,
    declaration: &Decl,
    first: &mut Option<Fault>,
) -> Result<(), AllocError>
    ensures { OnOk result (first.new ≡ first_of first.old (declaration_faults home.now.system home.now.home declaration.now)) }
{
    match declaration {
        Decl::OpaqueType(_, _) => Ok(()),
        Decl::TypeAlias(_, _, ty) => note_written(alloc, home, ty, first),
        Decl::TypeImport(_, identifier) => {
            note_import(alloc, home, *identifier, first);
            Ok(())
        }
        Decl::Variables(_, _, _, ty) => note_written(alloc, home, ty, first),
        Decl::Function(_, _, parameters, ty) => {
            judge_function(alloc, home, parameters.as_slice(), ty, first)
        }
        Decl::Define(place, _, parameters, ty, body) => {
            judge_define(alloc, home, *place, parameters.as_slice(), ty, body, first)
        }
        Decl::Procedure(_, procedure) => judge_procedure(alloc, home, procedure, first),
        Decl::Instance(_, identifier, module_name, bindings) => {
            let bindings = bindings.as_slice();
            judge_instance(alloc, home, *identifier, *module_name, bindings, first)
        }
        Decl::Init(_, block) => judge_body(alloc, home.scope(alloc), block.as_slice(), first),
        Decl::Next(_, block) => {
            judge_body(alloc, home.scope(alloc).in_next(), block.as_slice(), first)
        }
        Decl::Invariant(_, _, formula) => judge_formula(alloc, home.scope(alloc), formula, first),
        Decl::Axiom(_, _, formula) => {
            judge_formula(alloc, home.scope(alloc).in_axiom(), formula, first)
        }
        Decl::Hyperinvariant(place, count, _, formula) => {
            judge_hyper(alloc, home, *place, *count, formula, first)
        }
        Decl::Hyperaxiom(place, count, _, formula) => {
            judge_hyper(alloc, home, *place, *count, formula, first)
        }
        Decl::Control(_, commands) => judge_control(alloc, home, commands.as_slice(), first),
    }
}

/// Notes the faults of a written type.
fn note_written(
    alloc: Global,
    home: &Home<'_, '_>,
    ty: &TypeExpr,
    first: &mut Option<Fault>,
) -> Result<(), AllocError>
    ensures { OnOk result (first.new ≡ first_of first.old (type_faults home.now.system home.now.home ty.now)) }
{
    let scope = home.scope(alloc);
    note_written_in(alloc, &scope, ty, first)
}

/// The same in a scope.
fn note_written_in(
    alloc: Global,
    scope: &Scope<'_, '_>,
    ty: &TypeExpr,
    first: &mut Option<Fault>,
) -> Result<(), AllocError>
    ensures { OnOk result (first.new ≡ first_of first.old (type_faults scope.now.system scope.now.home ty.now)) }
{
    scope.note_type(alloc, ty, first)?;
    Ok(())
}

/// Notes a module whose types are brought in and that isn't there, at its name.
fn note_import(
    alloc: Global,
    home: &Home<'_, '_>,
    identifier: Identifier,
    first: &mut Option<Fault>,
)
    ensures { first.new ≡ first_of first.old (import_faults home.now.system identifier) }
{
    let scope = home.scope(alloc);
    let is_there = scope.module_named(identifier.name).is_some();
    note_where(first, !is_there, Rule::UnknownName, identifier.place);
}

/// Notes the faults of a formula that stands in a scope.
fn judge_formula(
    alloc: Global,
    scope: Scope<'_, '_>,
    formula: &Expr,
    first: &mut Option<Fault>,
) -> Result<(), AllocError>
    ensures { OnOk result (first.new ≡ first_of first.old (condition_faults scope.entry formula.now)) }
{
    note_condition(alloc, &scope, formula, first)
}

/// Notes the faults of a hyper formula, and a number of copies that it may not speak of, at its first token.
fn judge_hyper(
    alloc: Global,
    home: &Home<'_, '_>,
    place: Place,
    count: u128,
    formula: &Expr,
    first: &mut Option<Fault>,
) -> Result<(), AllocError>
    ensures { OnOk result (first.new ≡ first_of first.old (hyper_faults home.now.system home.now.home place count formula.now)) }
{
    note_where(first, !is_copy_count(count), Rule::BadCopy, place);
    judge_formula(alloc, home.scope(alloc).in_copies(count), formula, first)?;
    Ok(())
}

/// Whether a hyper formula may speak of so many copies: 2 to 8.
fn is_copy_count(count: u128) -> bool
    ensures { result ≡ (nat_le 2 count && nat_le count 8) }
{
    2 <= count && count <= 8
}
