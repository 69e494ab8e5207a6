//! What a name stands for.

ghost use Rattle.std.specs.Prelude.{◌≡◌, false, slice_index_or, take, Some, IfOk};
ghost use Rattle.uc_values.specs.declared.value.Value.TheVariants.{Bool as truth_value};
ghost use Rattle.uc_meaning.specs.Lookup.{module_at, variable_of};
ghost use Rattle.uc_meaning.specs.Types.{label_of, type_of_written};
ghost use Rattle.uc_meaning.specs.Cells.{cell_of, constant_number};
ghost use Rattle.uc_meaning.specs.Expressions.{meaning_of, means, reads, global_meaning, module_meaning, declared_meaning, variable_source, cell_source, binding_of, state_in, in_cell, at_path, at_state};
ghost use Rattle.uc_lookup.specs.Parts.{variable_parts};
ghost use Rattle.uc_type_reader.specs.Reading.{label_meant};
ghost use Rattle.uc_readings.specs.Scopes.{scope_in};
ghost use Rattle.uc_readings.specs.Readings.{reading_of};
ghost use Rattle.uc_readings.specs.Sources.{StandsFor, label_reading};

use crate::{Said, ScopeRef, truth};
use std::alloc::{AllocError, Global};
use uc_items::at;
use uc_layout::Layout;
use uc_lookup::{Variable, variable_of};
use uc_meaning::Local;
use uc_syntax::{Expr, Module, VariableKind};
use uc_type_reader::{Label, Tables, label_of, type_of_written};
use uc_values::{Ty, Value, copy, copy_ty};

/// What a name stands for.
#[derive(Drop)]
pub enum Meant<'s, 'l> {
    /// What the name says.
    Known(Said),
    /// The type of the name, and what the parent of an instance binds to it, in the parent's scope.
    Elsewhere(Ty, ScopeRef<'s>, &'l Expr),
}

/// What a name stands for in a scope: a local, else a label, a constant, a cell or what is bound to it.
pub fn meaning<'s, 'l>(
    alloc: Global,
    layout: &'l Layout,
    scope: &ScopeRef<'s>,
    name: u32,
    is_primed: bool,
) -> Result<Meant<'s, 'l>, AllocError>
    ensures { IfOk result (λ m. StandsFor m (meaning_of layout.now (scope_in scope.now) name is_primed)) }
{
    match scope.local_of(name) {
        Some(local) => {
            let said = local_said(alloc, local)?;
            Ok(Meant::Known(said))
        }
        None => global_meaning(alloc, layout, scope, name, is_primed),
    }
}

/// What a local says.
fn local_said(alloc: Global, local: &Local) -> Result<Said, AllocError>
    ensures { IfOk result (λ r. reading_of r ≡ reads local.now.ty local.now.value) }
{
    let ty = copy_ty(alloc, &local.ty)?;
    let value = copy(alloc, &local.value)?;
    Ok(Said { ty, value })
}

/// What a name that is no local stands for.
fn global_meaning<'s, 'l>(
    alloc: Global,
    layout: &'l Layout,
    scope: &ScopeRef<'s>,
    name: u32,
    is_primed: bool,
) -> Result<Meant<'s, 'l>, AllocError>
    ensures { IfOk result (λ m. StandsFor m (global_meaning layout.now (scope_in scope.now) name is_primed (module_at layout.now scope.now.path.now))) }
{
    match layout.system().module_at(scope.path) {
        Some(code) => module_meaning(alloc, layout, scope, code, name, is_primed),
        None => Ok(Meant::Known(truth(false))),
    }
}

/// What a name of a module stands for.
fn module_meaning<'s, 'l>(
    alloc: Global,
    layout: &'l Layout,
    scope: &ScopeRef<'s>,
    code: &Module,
    name: u32,
    is_primed: bool,
) -> Result<Meant<'s, 'l>, AllocError>
    ensures { IfOk result (λ m. StandsFor m (global_meaning layout.now (scope_in scope.now) name is_primed (Some code.now))) }
{
    let found = label_of(alloc, layout.tables(), code, name)?;
    match found {
        Some(label) => {
            let said = label_said(layout.tables(), label)?;
            Ok(Meant::Known(said))
        }
        None => declared_meaning(alloc, layout, scope, code, name, is_primed),
    }
}

/// What a label says. A number of labels past the range of the types is want of memory.
fn label_said(tables: &Tables, label: Label) -> Result<Said, AllocError>
    ensures { IfOk result (λ r. reading_of r ≡ label_reading tables.now (label_meant label)) }
{
    match u32::try_from(tables.label_count(label.enum_number)) {
        Ok(count) => Ok(Said {
            ty: Ty::Enum(label.enum_number, count),
            value: Value::Enum(label.enum_number, label.place),
        }),
        Err(_) => Err(AllocError),
    }
}

/// What a name stands for that a module declares.
fn declared_meaning<'s, 'l>(
    alloc: Global,
    layout: &'l Layout,
    scope: &ScopeRef<'s>,
    code: &Module,
    name: u32,
    is_primed: bool,
) -> Result<Meant<'s, 'l>, AllocError>
    ensures { IfOk result (λ m. StandsFor m (declared_meaning layout.now (scope_in scope.now) code.now name is_primed (variable_of code.now name))) }
{
    match variable_of(code.decls.as_slice(), name) {
        Some(variable) => {
            variable_meaning(alloc, layout, scope, code, &variable, name, is_primed)
        }
        None => Ok(Meant::Known(truth(false))),
    }
}

/// What a variable, an input, an output or a constant stands for.
fn variable_meaning<'s, 'l>(
    alloc: Global,
    layout: &'l Layout,
    scope: &ScopeRef<'s>,
    code: &Module,
    variable: &Variable<'_>,
    name: u32,
    is_primed: bool,
) -> Result<Meant<'s, 'l>, AllocError>
    ensures { IfOk result (λ m. StandsFor m (declared_meaning layout.now (scope_in scope.now) code.now name is_primed (Some (variable_parts variable.now)))) }
{
    let ty = type_of_written(alloc, layout.tables(), code, variable.ty)?;
    match variable.kind {
        VariableKind::Constant => {
            let value = constant_value(alloc, layout, scope, code, name)?;
            Ok(Meant::Known(Said { ty, value }))
        }
        VariableKind::Variable => {
            let value = cell_value(alloc, layout, scope, name, is_primed)?;
            Ok(Meant::Known(Said { ty, value }))
        }
        VariableKind::Input | VariableKind::Output => {
            linked_meaning(alloc, layout, scope, ty, name, is_primed)
        }
    }
}

/// What an input or an output of the type stands for: what the parent binds to it, else its cell.
fn linked_meaning<'s, 'l>(
    alloc: Global,
    layout: &'l Layout,
    scope: &ScopeRef<'s>,
    ty: Ty,
    name: u32,
    is_primed: bool,
) -> Result<Meant<'s, 'l>, AllocError>
    ensures { IfOk result (λ m. StandsFor m (means ty (cell_source layout.now (scope_in scope.now) name is_primed (binding_of layout.now scope.now.path.now name)))) }
{
    match layout.system().binding_of(scope.path, name) {
        Some(bound) => {
            let parent = parent_scope(scope, bound.depth, is_primed);
            Ok(Meant::Elsewhere(ty, parent, bound.expression))
        }
        None => {
            let value = cell_value(alloc, layout, scope, name, is_primed)?;
            Ok(Meant::Known(Said { ty, value }))
        }
    }
}

/// The scope at the first instances of the path, with the new state in place of the old where a name is primed.
fn parent_scope<'a>(scope: &ScopeRef<'a>, depth: usize, is_primed: bool) -> ScopeRef<'a>
    ensures { scope_in result ≡ at_path (at_state (scope_in scope.now) (state_in (scope_in scope.now) is_primed)) (take depth scope.now.path.now) }
{
    ScopeRef {
        path: prefix(scope.path, depth),
        before: scope.state_in(is_primed),
        locals: &[],
        ..*scope
    }
}

#[tactic(auto, using(std::proofs::lemmas::List::take_all))]
fn prefix(path: &[u32], depth: usize) -> &[u32]
    ensures { result.now ≡ take depth path.now }
{
    if depth >= path.len() {
        path
    } else {
        &path[..depth]
    }
}

/// What the cell of a name holds.
fn cell_value(
    alloc: Global,
    layout: &Layout,
    scope: &ScopeRef<'_>,
    name: u32,
    is_primed: bool,
) -> Result<Value, AllocError>
    ensures { IfOk result (λ v. v ≡ in_cell (state_in (scope_in scope.now) is_primed) (cell_of layout.now scope.now.path.now name)) }
{
    let state = scope.state_in(is_primed);
    match layout.cell_of(scope.path, name) {
        Some(place) => value_at(alloc, state.cells.as_slice(), place),
        None => Ok(Value::Bool(false)),
    }
}

/// The value at a place, and false past the end.
#[tactic(auto, using(crate::proofs::Picked::stands_some, crate::proofs::Picked::stands_none))]
fn value_at(alloc: Global, values: &[Value], place: usize) -> Result<Value, AllocError>
    ensures { IfOk result (λ v. v ≡ slice_index_or values.now place (truth_value false)) }
{
    match at(values, place) {
        Some(value) => copy(alloc, value),
        None => Ok(Value::Bool(false)),
    }
}

/// The value of a constant.
fn constant_value(
    alloc: Global,
    layout: &Layout,
    scope: &ScopeRef<'_>,
    code: &Module,
    name: u32,
) -> Result<Value, AllocError>
    ensures { IfOk result (λ v. v ≡ slice_index_or scope.now.interp.now.consts (constant_number layout.now code.now name) (truth_value false)) }
{
    let number = layout.constant_number(code, name);
    value_at(alloc, scope.interp.consts.as_slice(), number)
}
