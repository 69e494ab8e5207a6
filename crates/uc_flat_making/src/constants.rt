//! The constants of a module that stands alone.

ghost use Rattle.std.specs.Prelude.{◌≡◌, ℕ, ◌++◌, nat_eq, map, OnOk, IfOk};
ghost use Rattle.std.specs.List.{flat_map, position_from};
ghost use Rattle.indexmap.specs.IndexMap.{get};
ghost use Rattle.uc_flat_design.specs.Names.{StandsAlone, constant_types, flat_constants};
ghost use Rattle.uc_flat_making.specs.Cells.{constant_of_name, declared_constants, own_constants};

use crate::cells::has_cells;
use std::alloc::{AllocError, Global};
use uc_flat::Constant;
use uc_items::Items;
use uc_names::Firsts;
use uc_syntax::{Decl, Identifier, Module};
use uc_type_reader::{Tables, type_of_written};
use uc_values::{Ty, copy_ty};

/// The constants of a design of one module, by their numbers.
#[tactic(auto, using(crate::proofs::DeclaredConstants::constants_are))]
pub fn constants_of(
    alloc: Global,
    tables: &Tables,
    code: &Module,
) -> Result<Items<Constant>, AllocError>
    requires { StandsAlone tables.now code.now }
    ensures { IfOk result (λ all. all ≡ flat_constants tables.now) }
{
    own_constants(alloc, tables, code)
}

/// The types of the constants of a design of one module, by their numbers.
#[tactic(auto, using(crate::proofs::DeclaredConstants::constant_types_are))]
pub fn constant_types_of(
    alloc: Global,
    tables: &Tables,
    code: &Module,
) -> Result<Items<Ty>, AllocError>
    requires { StandsAlone tables.now code.now }
    ensures { IfOk result (λ types. types ≡ constant_types tables.now) }
{
    let constants = own_constants(alloc, tables, code)?;
    types_in(alloc, constants)
}

fn types_in(alloc: Global, constants: Items<Constant>) -> Result<Items<Ty>, AllocError>
    ensures { IfOk result (λ types. types ≡ map (λ c. c.ty) constants) }
{
    let mut types = Items::new(alloc);
    for constant in constants.into_vec() {
        types.push(constant.ty)?;
    }
    Ok(types)
}

/// The constants that a module declares, in order.
#[tactic(auto, using(uc_syntax::proofs::Added::added_begin, uc_syntax::proofs::Added::added_more, uc_syntax::proofs::Added::added_end))]
pub(crate) fn own_constants(
    alloc: Global,
    tables: &Tables,
    code: &Module,
) -> Result<Items<Constant>, AllocError>
    ensures { IfOk result (λ all. all ≡ own_constants tables.now code.now) }
{
    let mut constants = Items::new(alloc);
    for decl in code.decls.as_slice() {
        add_declared(alloc, tables, code, decl, &mut constants)?;
    }
    Ok(constants)
}

#[tactic(auto, using(uc_syntax::proofs::Added::append_nil))]
fn add_declared(
    alloc: Global,
    tables: &Tables,
    code: &Module,
    decl: &Decl,
    constants: &mut Items<Constant>,
) -> Result<(), AllocError>
    ensures { OnOk result (constants.new ≡ constants.old ++ declared_constants tables.now code.now decl.now) }
{
    match decl {
        Decl::Variables(_, kind, names, ty) => {
            if has_cells(*kind) {
                return Ok(());
            }
            let ty = type_of_written(alloc, tables, code, ty)?;
            add_constants(alloc, &ty, names.as_slice(), constants)?;
            Ok(())
        }
        _ => Ok(()),
    }
}

#[tactic(auto, using(uc_syntax::proofs::Added::added_begin, uc_syntax::proofs::Added::added_more, uc_syntax::proofs::Added::added_end))]
fn add_constants(
    alloc: Global,
    ty: &Ty,
    names: &[Identifier],
    constants: &mut Items<Constant>,
) -> Result<(), AllocError>
    ensures { OnOk result (constants.new ≡ constants.old ++ flat_map (constant_of_name ty.now) names.now) }
{
    for identifier in names {
        add_constant(alloc, ty, identifier, constants)?;
    }
    Ok(())
}

fn add_constant(
    alloc: Global,
    ty: &Ty,
    identifier: &Identifier,
    constants: &mut Items<Constant>,
) -> Result<(), AllocError>
    ensures { OnOk result (constants.new ≡ constants.old ++ constant_of_name ty.now identifier.now) }
{
    let ty = copy_ty(alloc, ty)?;
    constants.push(Constant {
        name: identifier.name,
        ty,
    })?;
    Ok(())
}

/// The number of the first constant of each name.
#[tactic(auto, using(crate::proofs::Entered::placed_begin, crate::proofs::Entered::placed_more, crate::proofs::Entered::placed_end))]
pub(crate) fn places_of(alloc: Global, constants: &[Constant]) -> Result<Firsts<usize>, AllocError>
    ensures { IfOk result (λ t. (x : ℕ) → get nat_eq t.things x ≡ position_from (λ c. nat_eq c.name x) 0 constants.now) }
{
    let mut places = Firsts::new(alloc);
    for (place, constant) in constants.iter().enumerate() {
        places.enter(constant.name, Some(place))?;
    }
    Ok(places)
}
