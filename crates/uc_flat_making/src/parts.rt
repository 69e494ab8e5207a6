//! The declarations of a module.

ghost use Rattle.std.specs.Prelude.{◌≡◌, ◌++◌, [], List, Some, map, length};
ghost use Rattle.std.specs.List.{list_all};
ghost use Rattle.std.specs.Option.{option_map, option_and_then};
ghost use Rattle.uc_flat_expressions.specs.Answers.{IsAnswer};
ghost use Rattle.uc_flat_expressions.specs.Expressions.{flat_of};
ghost use Rattle.uc_meaning.specs.Cells.{Cell};
ghost use Rattle.uc_flat_design.specs.Next.{inputs_from};
ghost use Rattle.uc_flat_design.specs.Design.{is_built, condition_of, invariant_in, axiom_in, formulas_from};
ghost use Rattle.uc_flat_making.specs.Parts.{inputs_by};
ghost use Rattle.uc_flat_making.specs.Made.{all_conditions};

use crate::holding::{built_where, one};
use crate::names::without_cells;
use std::alloc::Global;
use uc_flat::{Formula, Statement};
use uc_flat_expressions::{FlatError, Meant, TypedExpression, flat_expression, is_boolean};
use uc_items::Items;
use uc_syntax::{Decl, Expr, VariableKind};

fn is_built(decl: &Decl) -> bool
    ensures { result ≡ is_built decl.now }
{
    match decl {
        Decl::OpaqueType(..) => true,
        Decl::TypeAlias(..) => true,
        Decl::TypeImport(..) => true,
        Decl::Variables(..) => true,
        Decl::Init(..) => true,
        Decl::Next(..) => true,
        Decl::Invariant(..) => true,
        Decl::Axiom(..) => true,
        Decl::Control(..) => true,
        Decl::Function(..) => false,
        Decl::Define(..) => false,
        Decl::Procedure(..) => false,
        Decl::Instance(..) => false,
        Decl::Hyperinvariant(..) => false,
        Decl::Hyperaxiom(..) => false,
    }
}

/// Whether all declarations are built.
pub fn are_built(decls: &[Decl]) -> bool
    ensures { result ≡ list_all is_built decls.now }
{
    decls.iter().all(|decl| is_built(decl))
}

/// The formula of a declaration, over so many copies of the cells.
fn condition_of(
    alloc: Global,
    names: &[Meant],
    copies: u32,
    decl: u32,
    e: &Expr,
) -> Result<Items<Formula>, FlatError>
    ensures { IsAnswer (option_and_then (condition_of copies decl) (flat_of names.now e.now)) result }
{
    let t = flat_expression(alloc, names, e)?;
    let t = built_where(is_boolean(&t.ty), t)?;
    let formulas = one(alloc, formula_of(alloc, copies, decl, t))?;
    Ok(formulas)
}

fn formula_of(alloc: Global, copies: u32, decl: u32, t: TypedExpression) -> Formula
    ensures { result ≡ record { path = []; decl = decl; copies = copies; condition = t.expression } }
{
    Formula {
        path: Items::new(alloc),
        decl,
        copies,
        condition: t.expression,
    }
}

/// The formula of an invariant, which speaks of one copy of the cells.
fn invariant_in(
    alloc: Global,
    names: &[Meant],
    number: u32,
    decl: &Decl,
) -> Result<Items<Formula>, FlatError>
    ensures { IsAnswer (invariant_in names.now number decl.now) result }
{
    match decl {
        Decl::Invariant(_, _, e) => condition_of(alloc, names, 1, number, e),
        _ => Ok(Items::new(alloc)),
    }
}

/// The formula of an axiom, which speaks of no cells.
fn axiom_in(
    alloc: Global,
    names: &[Meant],
    number: u32,
    decl: &Decl,
) -> Result<Items<Formula>, FlatError>
    ensures { IsAnswer (axiom_in names.now number decl.now) result }
{
    match decl {
        Decl::Axiom(_, _, e) => condition_of(alloc, names, 0, number, e),
        _ => Ok(Items::new(alloc)),
    }
}

/// The formulas of the invariants, in order.
#[tactic(auto, unfolding(uc_flat_design::specs::Design::formulas_from))]
fn invariants(alloc: Global, names: &[Meant], decls: &[Decl]) -> Result<Items<Formula>, FlatError>
    ensures { IsAnswer (formulas_from (invariant_in names.now) 0 decls.now) result }
{
    let mut all = Items::new(alloc);
    for (k, decl) in decls.iter().enumerate() {
        let Ok(number) = u32::try_from(k) else {
            return Err(FlatError::NoMemory);
        };
        let more = invariant_in(alloc, names, number, decl)?;
        all.append(more)?;
    }
    Ok(all)
}

/// The formulas of the axioms, in order.
#[tactic(auto, unfolding(uc_flat_design::specs::Design::formulas_from))]
fn axioms(alloc: Global, names: &[Meant], decls: &[Decl]) -> Result<Items<Formula>, FlatError>
    ensures { IsAnswer (formulas_from (axiom_in names.now) 0 decls.now) result }
{
    let mut all = Items::new(alloc);
    for (k, decl) in decls.iter().enumerate() {
        let Ok(number) = u32::try_from(k) else {
            return Err(FlatError::NoMemory);
        };
        let more = axiom_in(alloc, names, number, decl)?;
        all.append(more)?;
    }
    Ok(all)
}

/// The axioms and then the invariants, with how many axioms there are. Their numbers are below 2^32: more count as want of memory.
#[derive(Drop)]
pub(crate) struct Conditions {
    pub(crate) formulas: Items<Formula>,
    pub(crate) axioms: u32,
}

/// The axioms and the invariants of declarations.
pub(crate) fn all_conditions(
    alloc: Global,
    names: &[Meant],
    decls: &[Decl],
) -> Result<Conditions, FlatError>
    ensures { IsAnswer (all_conditions names.now decls.now) result }
{
    let constants = without_cells(alloc, names)?;
    let axioms = axioms(alloc, constants.as_slice(), decls)?;
    with_invariants(alloc, names, decls, axioms)
}

/// The axioms with the invariants behind them.
fn with_invariants(
    alloc: Global,
    names: &[Meant],
    decls: &[Decl],
    axioms: Items<Formula>,
) -> Result<Conditions, FlatError>
    ensures { IsAnswer (option_map (λ invariants. record { formulas = axioms ++ invariants; axioms = length axioms }) (formulas_from (invariant_in names.now) 0 decls.now)) result }
{
    let Ok(count) = u32::try_from(axioms.len()) else {
        return Err(FlatError::NoMemory);
    };
    let invariants = invariants(alloc, names, decls)?;
    let mut formulas = axioms;
    formulas.append(invariants)?;
    Ok(Conditions {
        formulas,
        axioms: count,
    })
}

/// The code in which the inputs get any values, where these are the kinds of the cells, and the cells that are written stand so many numbers behind.
pub(crate) fn inputs(
    alloc: Global,
    kinds: &[VariableKind],
    shift: u32,
) -> Result<Items<Statement>, FlatError>
    ensures { (cells : List Cell) → map (λ c. c.kind) cells ≡ kinds.now → IsAnswer (Some (inputs_from shift cells)) result }
{
    inputs_by(alloc, kinds, shift)
}

#[tactic(auto, unfolding(crate::specs::Parts::inputs_by))]
fn inputs_by(
    alloc: Global,
    kinds: &[VariableKind],
    shift: u32,
) -> Result<Items<Statement>, FlatError>
    ensures { IsAnswer (Some (inputs_by shift kinds.now)) result }
{
    let mut all = Items::new(alloc);
    let mut cell = shift;
    for kind in kinds {
        if let VariableKind::Input = kind {
            all.push(Statement::Havoc(cell, false))?;
        }
        let Some(next) = cell.checked_add(1) else {
            return Err(FlatError::NoMemory);
        };
        cell = next;
    }
    Ok(all)
}
