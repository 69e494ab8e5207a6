//! The instances of a design, from main down, each before those inside it.

ghost use Rattle.std.specs.Prelude.{◌≡◌, ◌++◌, Some, IfOk, OnOk};
ghost use Rattle.std.specs.Option.{option_map};
ghost use Rattle.uc_meaning.specs.Lookup.{instance_in};
ghost use Rattle.uc_meaning.specs.Cells.{longest_chain, main_instance};
ghost use Rattle.uc_lookup.specs.Parts.{system_in, instance_parts};
ghost use Rattle.uc_layout.specs.Listing.{instance_at, cells_at, code_at, walk, walk_instance, below, listed};

use crate::layout_cells::{CellName, add_cells_at};
use std::alloc::{AllocError, Global};
use uc_items::Items;
use uc_lookup::{InstanceParts, SystemRef};
use uc_syntax::{Binding, Decl, Module};

/// How many modules stand on one chain of instances at most.
const LONGEST_CHAIN: u32 = 32;

/// An instance: its path, its module, and what its parent binds.
#[derive(Drop)]
pub(crate) struct Here<'a> {
    pub path: Items<u32>,
    pub code: &'a Module,
    pub bindings: &'a [Binding],
}

/// The cells of all instances, and the names of their modules.
#[derive(Drop)]
pub(crate) struct Listing {
    pub cells: Items<CellName>,
    pub codes: Items<u32>,
}

/// Lists main and all instances below it.
#[tactic(auto, using(crate::proofs::Walks::listed_none, crate::proofs::Walks::listed_main))]
pub(crate) fn list(alloc: Global, design: &SystemRef<'_>) -> Result<Listing, AllocError>
    ensures cells { IfOk result (λ l. l.cells ≡ listed cells_at (system_in design.now)) }
    ensures codes { IfOk result (λ l. l.codes ≡ listed code_at (system_in design.now)) }
{
    match design.main_module() {
        Some(code) => {
            let listing = list_from(alloc, design, code)?;
            Ok(listing)
        }
        None => Ok(Listing {
            cells: Items::new(alloc),
            codes: Items::new(alloc),
        }),
    }
}

#[tactic(auto, using(crate::proofs::Walks::main_is), unfolding(uc_meaning::specs::Lookup::first_some))]
fn list_from(alloc: Global, design: &SystemRef<'_>, code: &Module) -> Result<Listing, AllocError>
    ensures cells { IfOk result (λ l. l.cells ≡ walk cells_at longest_chain (system_in design.now) (main_instance code.now)) }
    ensures codes { IfOk result (λ l. l.codes ≡ walk code_at longest_chain (system_in design.now) (main_instance code.now)) }
{
    let here = Here {
        path: Items::new(alloc),
        code,
        bindings: &[],
    };
    let mut cells = Items::new(alloc);
    let mut codes = Items::new(alloc);
    add_instance(alloc, design, LONGEST_CHAIN, &here, &mut cells, &mut codes)?;
    Ok(Listing { cells, codes })
}

/// Adds what an instance has, and what those inside it have.
#[cycle(add_instance)]
#[tactic(auto, using(uc_syntax::proofs::Added::added_begin, uc_syntax::proofs::Added::added_more, crate::proofs::Walks::walked_none, crate::proofs::Walks::walked_all))]
fn add_instance(
    alloc: Global,
    design: &SystemRef<'_>,
    depth: u32,
    here: &Here<'_>,
    cells: &mut Items<CellName>,
    codes: &mut Items<u32>,
) -> Result<(), AllocError>
    ensures cells { OnOk result (cells.new ≡ cells.old ++ walk cells_at depth (system_in design.now) (instance_at here.now)) }
    ensures codes { OnOk result (codes.new ≡ codes.old ++ walk code_at depth (system_in design.now) (instance_at here.now)) }
{
    if depth == 0 {
        return Ok(());
    }
    add_cells_at(alloc, here, cells)?;
    codes.push(here.code.name)?;
    for decl in here.code.decls.as_slice() {
        add_inside(alloc, design, depth - 1, here, decl, cells, codes)?;
    }
    Ok(())
}

/// Adds what the instance has that a declaration declares.
#[cycle(add_instance)]
#[tactic(auto, using(crate::proofs::Walks::no_instance, crate::proofs::Walks::one_instance))]
fn add_inside(
    alloc: Global,
    design: &SystemRef<'_>,
    depth: u32,
    here: &Here<'_>,
    decl: &Decl,
    cells: &mut Items<CellName>,
    codes: &mut Items<u32>,
) -> Result<(), AllocError>
    ensures cells { OnOk result (cells.new ≡ cells.old ++ below cells_at depth (system_in design.now) (instance_at here.now) decl.now) }
    ensures codes { OnOk result (codes.new ≡ codes.old ++ below code_at depth (system_in design.now) (instance_at here.now) decl.now) }
{
    match declared(decl) {
        Some(instance) => {
            add_part(alloc, design, depth, here, &instance, cells, codes)?;
            Ok(())
        }
        None => Ok(()),
    }
}

/// Adds what an instance inside another has.
#[cycle(add_instance)]
#[tactic(auto, using(crate::proofs::Walks::no_module, crate::proofs::Walks::one_module))]
fn add_part(
    alloc: Global,
    design: &SystemRef<'_>,
    depth: u32,
    here: &Here<'_>,
    instance: &InstanceParts<'_>,
    cells: &mut Items<CellName>,
    codes: &mut Items<u32>,
) -> Result<(), AllocError>
    ensures cells { OnOk result (cells.new ≡ cells.old ++ walk_instance cells_at depth (system_in design.now) (instance_at here.now) (Some (instance_parts instance.now))) }
    ensures codes { OnOk result (codes.new ≡ codes.old ++ walk_instance code_at depth (system_in design.now) (instance_at here.now) (Some (instance_parts instance.now))) }
{
    match design.module_named(instance.module_name) {
        Some(code) => {
            let mut path = Items::from_slice(alloc, here.path.as_slice())?;
            path.push(instance.name)?;
            let inside = Here {
                path,
                code,
                bindings: instance.bindings,
            };
            add_instance(alloc, design, depth, &inside, cells, codes)?;
            Ok(())
        }
        None => Ok(()),
    }
}

/// The instance that a declaration declares.
fn declared(decl: &Decl) -> Option<InstanceParts<'_>>
    ensures { option_map instance_parts result ≡ instance_in decl.now }
{
    match decl {
        Decl::Instance(_, identifier, module, bindings) => Some(InstanceParts {
            name: identifier.name,
            module_name: module.name,
            bindings: bindings.as_slice(),
        }),
        _ => None,
    }
}
