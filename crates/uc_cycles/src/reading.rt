//! The defines of a module that read state.

ghost use Rattle.std.specs.Prelude.{◌≡◌, ◌||◌, ℕ, ◌<◌, true, nat_eq, replicate, slice_get, IfOk, OnOk};
ghost use Rattle.std.specs.List.{list_any};
ghost use Rattle.uc_names.specs.Senses.{module_in};
ghost use Rattle.uc_rules.specs.Names.{names_one_of};
ghost use Rattle.uc_cycles.specs.Reading.{KnowsReads};
ghost use Rattle.uc_cycles.specs.Uses.{defines_name};

use crate::uses::uses_of;
use std::alloc::{AllocError, Global};
use uc_graph::take_reached;
use uc_items::{Items, at};
use uc_names::TypeHomes;
use uc_syntax::Decl;
use uc_type_names::NameSet;

/// The names of the defines of the module at a place that read state, themselves or by a define.
pub fn reading_defines(
    alloc: Global,
    homes: &TypeHomes<'_>,
    home: usize,
) -> Result<NameSet, AllocError>
    ensures { IfOk result (λ reading. KnowsReads homes.now (module_in homes.now.modules home) reading) }
{
    let declarations = homes.design().declarations_of(home);
    let uses = uses_of(alloc, homes, home, declarations)?;
    let mut left = trues(alloc, declarations.len())?;
    let found = take_reached(
        alloc,
        uses.users.as_slice(),
        &mut left,
        uses.direct.as_slice(),
    )?;
    let names = names_of(alloc, declarations, found.as_slice())?;
    Ok(names)
}

/// The names of the defines at some places.
fn names_of(alloc: Global, declarations: &[Decl], places: &[usize]) -> Result<NameSet, AllocError>
    ensures { IfOk result (λ names. (x : ℕ) → names_one_of names x ≡ list_any (λ k. defines_name x (slice_get declarations.now k)) places.now) }
{
    let mut names = NameSet::new(alloc);
    for place in places {
        add_name(declarations, *place, &mut names)?;
    }
    Ok(names)
}

fn add_name(declarations: &[Decl], place: usize, names: &mut NameSet) -> Result<(), AllocError>
    ensures { OnOk result ((x : ℕ) → names_one_of names.new x ≡ (names_one_of names.old x || defines_name x (slice_get declarations.now place))) }
{
    match at(declarations, place) {
        Some(Decl::Define(_, identifier, _, _, _)) => {
            names.insert(identifier.name)?;
            Ok(())
        }
        _ => Ok(()),
    }
}

fn trues(alloc: Global, count: usize) -> Result<Items<bool>, AllocError>
    ensures { IfOk result (λ bs. bs ≡ replicate count true) }
{
    let mut flags = Items::new(alloc);
    for _ in 0..count {
        flags.push(true)?;
    }
    Ok(flags)
}
