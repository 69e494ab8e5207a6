//! What an expression says in a scope.

ghost use Rattle.std.specs.Prelude.{◌≡◌, ◌++◌, [], map, IfOk};
ghost use Rattle.std.specs.List.{flat_map};
ghost use Rattle.uc_meaning.specs.Operators.{holds};
ghost use Rattle.uc_meaning.specs.Expressions.{Reading, reads, name as name_says, reading_through, applied, applied_reading};
ghost use Rattle.uc_meaning.specs.Overflow.{name_met, applied_met, met_through};
ghost use Rattle.uc_operators.specs.Overflows.{first_wide, TellsWide};
ghost use Rattle.uc_meaning.specs.Levels.{reading_at, type_at, value_at, met_at, chosen_at, chosen_met_at, select_at, select_all_at, selection_met_at, selections_met_at, head_reading, head_rest, head_met};
ghost use Rattle.uc_readings.specs.Scopes.{scope_in};
ghost use Rattle.uc_readings.specs.Readings.{reading_of};

use crate::operands::{Operands, chained, is_held, retyped};
use std::alloc::Global;
use uc_layout::Layout;
use uc_meaning::{Shape, shape_of};
use uc_operators::EvalError;
use uc_readings::{
    Applied, Meant, Said, ScopeRef, application, applied, bits_literal, compared, element,
    extracted, field, meaning, number, on_bits, reached, truth, updated, with_locals,
};
use uc_syntax::{Branch, Expr, Primary, Selection};
use uc_values::{Ty, Value};

/// What an expression says, where defines and bindings are read through at most so many further ones.
#[cycle(said)]
pub(crate) fn said(
    alloc: Global,
    layout: &Layout,
    below: u32,
    scope: &ScopeRef<'_>,
    e: &Expr,
) -> Result<Said, EvalError>
    ensures value { IfOk result (λ r. reading_of r ≡ reading_at below layout.now (scope_in scope.now) e.now) }
    ensures wide { TellsWide (first_wide (met_at below layout.now (scope_in scope.now) e.now)) result }
{
    match shape_of(e) {
        Shape::Chosen(branches, otherwise) => {
            chosen(alloc, layout, below, scope, branches, otherwise)
        }
        Shape::Chained(chain, operands) => {
            let operands = all_said(alloc, layout, below, scope, operands)?;
            chained(alloc, chain, &operands)
        }
        Shape::Compared(how, left, right) => {
            let left = said(alloc, layout, below, scope, left)?;
            let right = said(alloc, layout, below, scope, right)?;
            Ok(compared(how, &left.ty, &left.value, &right.value)?)
        }
        Shape::Applied(operator, operand) => {
            let operand = said(alloc, layout, below, scope, operand)?;
            applied(operator, operand)
        }
        Shape::Selected(primary, selections) => {
            selected(alloc, layout, below, scope, primary, selections)
        }
    }
}

/// What several expressions say.
#[cycle(said)]
fn all_said(
    alloc: Global,
    layout: &Layout,
    below: u32,
    scope: &ScopeRef<'_>,
    expressions: &[Expr],
) -> Result<Operands, EvalError>
    ensures types { IfOk result (λ o. o.types ≡ map (type_at below layout.now (scope_in scope.now)) expressions.now) }
    ensures values { IfOk result (λ o. o.values ≡ map (value_at below layout.now (scope_in scope.now)) expressions.now) }
    ensures wide { TellsWide (first_wide (flat_map (met_at below layout.now (scope_in scope.now)) expressions.now)) result }
{
    let mut operands = Operands::new(alloc);
    for expression in expressions {
        let operand = said(alloc, layout, below, scope, expression)?;
        operands.push(operand)?;
    }
    Ok(operands)
}

/// A conditional: the value of the first arm whose condition holds, else what stands behind the last `else`.
#[cycle(said)]
fn chosen(
    alloc: Global,
    layout: &Layout,
    below: u32,
    scope: &ScopeRef<'_>,
    branches: &[Branch<Expr>],
    otherwise: &Expr,
) -> Result<Said, EvalError>
    ensures value { IfOk result (λ r. reading_of r ≡ chosen_at below layout.now (scope_in scope.now) branches.now otherwise.now) }
    ensures wide { TellsWide (first_wide (chosen_met_at below layout.now (scope_in scope.now) branches.now otherwise.now)) result }
{
    for branch in branches {
        let condition = said(alloc, layout, below, scope, &branch.condition)?;
        if is_held(condition) {
            return said(alloc, layout, below, scope, &branch.value);
        }
    }
    said(alloc, layout, below, scope, otherwise)
}

/// A primary with its selections.
#[cycle(said)]
fn selected(
    alloc: Global,
    layout: &Layout,
    below: u32,
    scope: &ScopeRef<'_>,
    primary: &Primary<Expr>,
    selections: &[Selection<Expr>],
) -> Result<Said, EvalError>
    ensures value { IfOk result (λ r. reading_of r ≡ select_all_at below layout.now (scope_in scope.now) (head_reading below layout.now (scope_in scope.now) primary.now selections.now) (head_rest layout.now (scope_in scope.now) primary.now selections.now)) }
    ensures wide { TellsWide (first_wide (head_met below layout.now (scope_in scope.now) primary.now selections.now ++ selections_met_at below layout.now (scope_in scope.now) (head_rest layout.now (scope_in scope.now) primary.now selections.now))) result }
{
    if let Primary::Name(name, is_primed) = primary {
        let arrival = reached(
            alloc,
            &layout.system(),
            scope,
            *name,
            *is_primed,
            selections,
        )?;
        let there = arrival.scope(scope);
        let head = named(alloc, layout, below, &there, arrival.name, *is_primed)?;
        return after(
            alloc,
            layout,
            below,
            scope,
            head,
            &selections[arrival.used..],
        );
    }
    let head = head(alloc, layout, below, scope, primary)?;
    after(alloc, layout, below, scope, head, selections)
}

/// A primary without selections.
#[cycle(said)]
fn head(
    alloc: Global,
    layout: &Layout,
    below: u32,
    scope: &ScopeRef<'_>,
    primary: &Primary<Expr>,
) -> Result<Said, EvalError>
    ensures value { IfOk result (λ r. reading_of r ≡ head_reading below layout.now (scope_in scope.now) primary.now []) }
    ensures wide { TellsWide (first_wide (head_met below layout.now (scope_in scope.now) primary.now [])) result }
{
    match primary {
        Primary::Truth(holds) => Ok(truth(*holds)),
        Primary::Number(value) => Ok(number(*value)?),
        Primary::BitsLiteral(value, width) => Ok(bits_literal(*value, *width)?),
        Primary::Name(name, is_primed) => named(alloc, layout, below, scope, *name, *is_primed),
        Primary::Apply(name, arguments) => {
            let operands = all_said(alloc, layout, below, scope, arguments.as_slice())?;
            called(
                alloc,
                layout,
                below,
                scope,
                *name,
                operands.values.as_slice(),
            )
        }
        Primary::OnBits(function, arguments) => {
            let operands = all_said(alloc, layout, below, scope, arguments.as_slice())?;
            Ok(on_bits(
                alloc,
                *function,
                operands.types.as_slice(),
                operands.values.as_slice(),
            )?)
        }
        Primary::Old(name) => {
            let entry = scope.at_entry();
            named(alloc, layout, below, &entry, name.name, false)
        }
        Primary::Grouped(inner) => said(alloc, layout, below, scope, inner.get()),
    }
}

/// What is left of a value after its selections.
#[cycle(said)]
fn after(
    alloc: Global,
    layout: &Layout,
    below: u32,
    scope: &ScopeRef<'_>,
    start: Said,
    selections: &[Selection<Expr>],
) -> Result<Said, EvalError>
    ensures value { IfOk result (λ r. reading_of r ≡ select_all_at below layout.now (scope_in scope.now) (reading_of start) selections.now) }
    ensures wide { TellsWide (first_wide (selections_met_at below layout.now (scope_in scope.now) selections.now)) result }
{
    let mut here = start;
    for selection in selections {
        here = select(alloc, layout, below, scope, here, selection)?;
    }
    Ok(here)
}

/// One selection of what stands before it.
#[cycle(said)]
fn select(
    alloc: Global,
    layout: &Layout,
    below: u32,
    scope: &ScopeRef<'_>,
    before: Said,
    selection: &Selection<Expr>,
) -> Result<Said, EvalError>
    ensures value { IfOk result (λ r. reading_of r ≡ select_at below layout.now (scope_in scope.now) (reading_of before) selection.now) }
    ensures wide { TellsWide (first_wide (selection_met_at below layout.now (scope_in scope.now) selection.now)) result }
{
    match selection {
        Selection::Field(_, name) => Ok(field(alloc, &before, name.name)?),
        Selection::Copy(_, _) => Ok(before),
        Selection::Element(_, index) => {
            let index = said(alloc, layout, below, scope, index)?;
            Ok(element(alloc, &before, &index.value)?)
        }
        Selection::Update(_, index, new) => {
            let index = said(alloc, layout, below, scope, index)?;
            let new = said(alloc, layout, below, scope, new)?;
            Ok(updated(alloc, before, &index.value, &new.value)?)
        }
        Selection::Extract(_, high, low) => Ok(extracted(&before, *high, *low)?),
    }
}

/// What a name says.
#[cycle(said)]
pub(crate) fn named(
    alloc: Global,
    layout: &Layout,
    below: u32,
    scope: &ScopeRef<'_>,
    name: u32,
    is_primed: bool,
) -> Result<Said, EvalError>
    ensures value { IfOk result (λ r. reading_of r ≡ name_says layout.now (reading_through below layout.now) (scope_in scope.now) name is_primed) }
    ensures wide { TellsWide (first_wide (name_met layout.now (met_through below layout.now) (scope_in scope.now) name is_primed)) result }
{
    let meant = meaning(alloc, layout, scope, name, is_primed)?;
    match meant {
        Meant::Known(said) => Ok(said),
        Meant::Elsewhere(ty, there, expression) => {
            elsewhere(alloc, layout, below, ty, &there, expression)
        }
    }
}

/// What an applied name says of arguments.
#[cycle(said)]
fn called(
    alloc: Global,
    layout: &Layout,
    below: u32,
    scope: &ScopeRef<'_>,
    name: u32,
    arguments: &[Value],
) -> Result<Said, EvalError>
    ensures value { IfOk result (λ r. reading_of r ≡ applied_reading (reading_through below layout.now) arguments.now (applied layout.now (scope_in scope.now) name arguments.now)) }
    ensures wide { TellsWide (first_wide (applied_met (met_through below layout.now) (applied layout.now (scope_in scope.now) name arguments.now))) result }
{
    let used = application(alloc, layout, scope, name, arguments)?;
    match used {
        Applied::Known(said) => Ok(said),
        Applied::Define(ty, locals, body) => {
            let inside = with_locals(scope, locals.as_slice());
            elsewhere(alloc, layout, below, ty, &inside, body)
        }
    }
}

/// The value of a body or of what is bound, under a type.
#[cycle(said)]
fn elsewhere(
    alloc: Global,
    layout: &Layout,
    below: u32,
    ty: Ty,
    scope: &ScopeRef<'_>,
    e: &Expr,
) -> Result<Said, EvalError>
    ensures value { IfOk result (λ r. reading_of r ≡ reads ty (reading_through below layout.now (scope_in scope.now) e.now).value) }
    ensures wide { TellsWide (first_wide (met_through below layout.now (scope_in scope.now) e.now)) result }
{
    if below == 0 {
        return Ok(retyped(ty, truth(false)));
    }
    let there = said(alloc, layout, below - 1, scope, e)?;
    Ok(retyped(ty, there))
}
