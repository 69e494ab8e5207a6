//! Declarations that have no form over cells.

ghost use Rattle.std.specs.Prelude.{◌≡◌, ◌∷◌, [], true, length, IfOk};
ghost use Rattle.std.specs.Option.{is_some, option_and_then};
ghost use Rattle.std.specs.List.{list_all};
ghost use Rattle.uc_meaning.specs.Cells.{cells_of};
ghost use Rattle.uc_meaning.specs.Lookup.{first_some};
ghost use Rattle.uc_flat_expressions.specs.Expressions.{flat_of};
ghost use Rattle.uc_flat_design.specs.Names.{StandsAlone, names_over_cells};
ghost use Rattle.uc_flat_design.specs.Design.{is_built, condition_of};
ghost use Rattle.uc_runnable.specs.Unfit.{unfit_condition, unfit, unfit_in, unfit_only, unfit_of};

use crate::statements::{unfit_init, unfit_next};
use crate::types::unfit_type;
use std::alloc::{AllocError, Global};
use uc_flat_code::Writing;
use uc_flat_expressions::{FlatError, Meant, flat_expression, is_boolean};
use uc_flat_making::{are_built, names_between, names_table, own_cells, without_cells};
use uc_syntax::{Decl, Expr, Module, Place};
use uc_type_reader::Tables;

/// The place, where a formula is no truth value over cells.
#[tactic(auto, using(crate::proofs::Answers::no_formula, crate::proofs::Answers::truth_formula, crate::proofs::Answers::other_formula))]
fn unfit_condition(
    alloc: Global,
    names: &[Meant],
    place: Place,
    e: &Expr,
) -> Result<Option<Place>, AllocError>
    ensures { IfOk result (λ p. p ≡ unfit_condition names.now place e.now) }
{
    match flat_expression(alloc, names, e) {
        Ok(t) => {
            if is_boolean(&t.ty) {
                Ok(None)
            } else {
                Ok(Some(place))
            }
        }
        Err(FlatError::NotBuilt) => Ok(Some(place)),
        Err(FlatError::NoMemory) => Err(AllocError),
    }
}

/// The place where a declaration has no form over so many cells.
fn unfit(
    alloc: Global,
    tables: &Tables,
    code: &Module,
    names: &[Meant],
    count: u32,
    decl: &Decl,
) -> Result<Option<Place>, AllocError>
    ensures { IfOk result (λ p. p ≡ unfit tables.now code.now names.now count decl.now) }
{
    match decl {
        Decl::OpaqueType(place, _) => Ok(Some(*place)),
        Decl::TypeAlias(place, _, ty) => unfit_type(alloc, tables, code, *place, ty),
        Decl::Variables(place, _, _, ty) => unfit_type(alloc, tables, code, *place, ty),
        Decl::Init(_, block) => unfit_init(alloc, tables, code, names, count, block.as_slice()),
        Decl::Next(place, block) => {
            let writing = Writing {
                primed: true,
                shift: count,
            };
            let names = names_between(alloc, names, count)?;
            unfit_next(alloc, names.as_slice(), writing, *place, block.as_slice())
        }
        Decl::Invariant(place, _, e) => unfit_condition(alloc, names, *place, e),
        Decl::Axiom(place, _, e) => {
            let constants = without_cells(alloc, names)?;
            unfit_condition(alloc, constants.as_slice(), *place, e)
        }
        _ => Ok(None),
    }
}

/// The first such place among declarations.
#[tactic(auto, unfolding(uc_meaning::specs::Lookup::first_some))]
fn first_unfit(
    alloc: Global,
    tables: &Tables,
    code: &Module,
    names: &[Meant],
    count: u32,
) -> Result<Option<Place>, AllocError>
    ensures { IfOk result (λ p. p ≡ first_some (unfit tables.now code.now names.now count) code.now.decls) }
{
    let decls = code.decls.as_slice();
    for decl in decls {
        if let Some(place) = unfit(alloc, tables, code, names, count, decl)? {
            return Ok(Some(place));
        }
    }
    Ok(None)
}

/// How many cells a module has. Their numbers are below 2^32: more count as want of memory.
fn count_cells(alloc: Global, tables: &Tables, code: &Module) -> Result<u32, AllocError>
    requires { StandsAlone tables.now code.now }
    ensures { IfOk result (λ count. count ≡ length (cells_of tables.now)) }
{
    let cells = own_cells(alloc, tables, code)?;
    match u32::try_from(cells.len()) {
        Ok(count) => Ok(count),
        Err(_) => Err(AllocError),
    }
}

/// Where the one module is at fault.
fn unfit_in(alloc: Global, tables: &Tables, code: &Module) -> Result<Option<Place>, AllocError>
    requires { StandsAlone tables.now code.now }
    ensures { IfOk result (λ p. p ≡ unfit_in tables.now code.now) }
{
    let names = names_table(alloc, tables, code)?;
    let count = count_cells(alloc, tables, code)?;
    first_unfit(alloc, tables, code, names.as_slice(), count)
}

fn unfit_only(
    alloc: Global,
    tables: &Tables,
    modules: &[Module],
) -> Result<Option<Place>, AllocError>
    requires modules { modules.now ≡ tables.now.modules }
    requires first { tables.now.main ≡ 0 }
    ensures { IfOk result (λ p. p ≡ unfit_only tables.now modules.now) }
{
    if modules.len() != 1 {
        return Ok(None);
    }
    let code = &modules[0];
    if !are_built(code.decls.as_slice()) {
        return Ok(None);
    }
    unfit_in(alloc, tables, code)
}

/// Where a design of one module that does not run is at fault: the first declaration or statement that has no form over cells.
pub(crate) fn unfit_place(alloc: Global, tables: &Tables) -> Result<Option<Place>, AllocError>
    ensures { IfOk result (λ p. p ≡ unfit_of tables.now) }
{
    let system = tables.system();
    if system.main != 0 {
        return Ok(None);
    }
    unfit_only(alloc, tables, system.modules)
}
