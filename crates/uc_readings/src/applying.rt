//! What an applied name stands for.

ghost use Rattle.std.specs.Prelude.{◌≡◌, [], Some, slice_get, IfOk};
ghost use Rattle.uc_meaning.specs.Lookup.{module_at, define_of, function_of};
ghost use Rattle.uc_meaning.specs.Types.{type_of_written};
ghost use Rattle.uc_meaning.specs.Cells.{function_number};
ghost use Rattle.uc_meaning.specs.Expressions.{reads, applied, applied_in, applied_name, applied_function, result_in_table, bind};
ghost use Rattle.uc_lookup.specs.Parts.{defined_parts, signature_parts};
ghost use Rattle.uc_readings.specs.Scopes.{scope_in};
ghost use Rattle.uc_readings.specs.Readings.{reading_of};
ghost use Rattle.uc_readings.specs.Sources.{Applies, with_locals};

use crate::{Said, ScopeRef, truth};
use std::alloc::{AllocError, Global};
use uc_items::{Items, at};
use uc_layout::Layout;
use uc_lookup::{Defined, Signature, define_of, function_of};
use uc_meaning::Local;
use uc_syntax::{Expr, Module, Parameter, TypeExpr};
use uc_type_reader::type_of_written;
use uc_values::{Table, Ty, Value, copy};

/// What an applied name stands for.
#[derive(Drop)]
pub enum Applied<'a> {
    /// What the application says.
    Known(Said),
    /// A define: its type, its parameters with the values of the arguments, and its body.
    Define(Ty, Items<Local>, &'a Expr),
}

/// What a name stands for in a scope that is applied to arguments: a define, else a function.
#[tactic(auto, unfolding(uc_meaning::specs::Expressions::applied))]
pub fn application<'a>(
    alloc: Global,
    layout: &'a Layout,
    scope: &ScopeRef<'_>,
    name: u32,
    arguments: &[Value],
) -> Result<Applied<'a>, AllocError>
    ensures { IfOk result (λ a. Applies (scope_in scope.now) arguments.now a (applied layout.now (scope_in scope.now) name arguments.now)) }
{
    match layout.system().module_at(scope.path) {
        Some(code) => application_in(alloc, layout, scope, code, name, arguments),
        None => Ok(Applied::Known(truth(false))),
    }
}

/// What an applied name of a module stands for.
fn application_in<'a>(
    alloc: Global,
    layout: &'a Layout,
    scope: &ScopeRef<'_>,
    code: &'a Module,
    name: u32,
    arguments: &[Value],
) -> Result<Applied<'a>, AllocError>
    ensures { IfOk result (λ a. Applies (scope_in scope.now) arguments.now a (applied_in layout.now (scope_in scope.now) name arguments.now (Some code.now))) }
{
    match define_of(code.decls.as_slice(), name) {
        Some(defined) => define(alloc, layout, scope, code, &defined, name, arguments),
        None => function(alloc, layout, scope, code, name, arguments),
    }
}

/// A define with its arguments.
fn define<'a>(
    alloc: Global,
    layout: &Layout,
    scope: &ScopeRef<'_>,
    code: &Module,
    defined: &Defined<'a>,
    name: u32,
    arguments: &[Value],
) -> Result<Applied<'a>, AllocError>
    ensures { IfOk result (λ a. Applies (scope_in scope.now) arguments.now a (applied_name layout.now (scope_in scope.now) code.now name arguments.now (Some (defined_parts defined.now)))) }
{
    let ty = type_of_written(alloc, layout.tables(), code, defined.ty)?;
    let locals = bound_locals(alloc, layout, code, defined.parameters, arguments)?;
    Ok(Applied::Define(ty, locals, defined.body))
}

/// What a function gives.
fn function<'a>(
    alloc: Global,
    layout: &Layout,
    scope: &ScopeRef<'_>,
    code: &Module,
    name: u32,
    arguments: &[Value],
) -> Result<Applied<'a>, AllocError>
    ensures { IfOk result (λ a. Applies (scope_in scope.now) arguments.now a (applied_function layout.now (scope_in scope.now) code.now name (function_of code.now name))) }
{
    match function_of(code.decls.as_slice(), name) {
        Some(signature) => {
            let said = function_said(alloc, layout, scope, code, &signature, name, arguments)?;
            Ok(Applied::Known(said))
        }
        None => Ok(Applied::Known(truth(false))),
    }
}

fn function_said(
    alloc: Global,
    layout: &Layout,
    scope: &ScopeRef<'_>,
    code: &Module,
    signature: &Signature<'_>,
    name: u32,
    arguments: &[Value],
) -> Result<Said, AllocError>
    ensures { IfOk result (λ r. reading_of r ≡ reads (type_of_written layout.now code.now signature.now.ty.now) (result_in_table (slice_get scope.now.interp.now.tables (function_number layout.now code.now name)) arguments.now)) }
{
    let ty = type_of_written(alloc, layout.tables(), code, signature.ty)?;
    let number = layout.function_number(code, name);
    let value = table_result(alloc, scope.interp.tables.as_slice(), number, arguments)?;
    Ok(Said { ty, value })
}

/// What the table at a place gives, and false past the end.
fn table_result(
    alloc: Global,
    tables: &[Table],
    place: usize,
    arguments: &[Value],
) -> Result<Value, AllocError>
    ensures { IfOk result (λ v. v ≡ result_in_table (slice_get tables.now place) arguments.now) }
{
    match at(tables, place) {
        Some(table) => copy(alloc, table.result(arguments)),
        None => Ok(Value::Bool(false)),
    }
}

/// Parameters with the values of the arguments, the last one first.
pub fn bound_locals(
    alloc: Global,
    layout: &Layout,
    code: &Module,
    parameters: &[Parameter<TypeExpr>],
    arguments: &[Value],
) -> Result<Items<Local>, AllocError>
    ensures { IfOk result (λ ls. ls ≡ bind layout.now code.now parameters.now arguments.now []) }
{
    let mut locals = Vec::new(alloc);
    let count = parameters.len().min(arguments.len());
    for place in 0..count {
        let parameter = &parameters[place];
        let ty = type_of_written(alloc, layout.tables(), code, &parameter.ty)?;
        let value = copy(alloc, &arguments[place])?;
        locals.push(Local {
            name: parameter.identifier.name,
            ty,
            value,
        })?;
    }
    locals.reverse();
    Ok(Items::from_vec(locals))
}

/// A scope with other locals.
pub fn with_locals<'b, 'f: 'b>(scope: &ScopeRef<'f>, locals: &'b [Local]) -> ScopeRef<'b>
    ensures { scope_in result ≡ with_locals (scope_in scope.now) locals.now }
{
    ScopeRef { locals, ..*scope }
}
