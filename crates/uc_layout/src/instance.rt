//! The instances of a design, from main down, each before those inside it.

ghost use Rattle.std.specs.Prelude.{◌≡◌, ◌++◌, map, IfOk, OnOk};
ghost use Rattle.std.specs.Option.{option_map};
ghost use Rattle.uc_meaning.specs.Lookup.{instance_in};
ghost use Rattle.uc_meaning.specs.Cells.{instances, instances_from, instances_below, main_instance as main_meant};
ghost use Rattle.uc_lookup.specs.Parts.{system_in, instance_parts};
ghost use Rattle.uc_layout.specs.Instances.{instance_meant, declared_in};

use std::alloc::{AllocError, Global};
use uc_items::Items;
use uc_lookup::{InstanceParts, SystemRef};
use uc_syntax::{Binding, Decl, Module};

/// How many modules stand on one chain of instances at most.
const LONGEST_CHAIN: u32 = 32;

/// An instance: its path, its module, and what its parent binds.
#[derive(Drop)]
pub struct InstanceRef<'a> {
    pub path: Items<u32>,
    pub code: &'a Module,
    pub bindings: &'a [Binding],
}

/// Main, which has the empty path and binds nothing.
#[tactic(auto, using(crate::proofs::Listed::main_is))]
pub fn main_instance(alloc: Global, code: &Module) -> InstanceRef<'_>
    ensures { instance_meant result ≡ main_meant code.now }
{
    InstanceRef {
        path: Items::new(alloc),
        code,
        bindings: &[],
    }
}

/// The instances that a module declares, in order.
#[tactic(auto, using(uc_syntax::proofs::Added::added_begin, uc_syntax::proofs::Added::added_more))]
pub fn instances_below<'a>(
    alloc: Global,
    design: &SystemRef<'a>,
    here: &InstanceRef<'a>,
) -> Result<Items<InstanceRef<'a>>, AllocError>
    ensures { IfOk result (λ is. map instance_meant is ≡ instances_below (system_in design.now) (instance_meant here.now)) }
{
    let mut inside = Items::new(alloc);
    for decl in here.code.decls.as_slice() {
        add_declared(alloc, design, here, decl, &mut inside)?;
    }
    Ok(inside)
}

/// Adds the instance that a declaration declares, where its module is there.
fn add_declared<'a>(
    alloc: Global,
    design: &SystemRef<'a>,
    here: &InstanceRef<'a>,
    decl: &'a Decl,
    inside: &mut Items<InstanceRef<'a>>,
) -> Result<(), AllocError>
    ensures { OnOk result (map instance_meant inside.new ≡ map instance_meant inside.old ++ declared_in (system_in design.now) (instance_meant here.now) (instance_in decl.now)) }
{
    let Some(instance) = declared(decl) else {
        return Ok(());
    };
    let Some(code) = design.module_named(instance.module_name) else {
        return Ok(());
    };
    let mut path = Items::from_slice(alloc, here.path.as_slice())?;
    path.push(instance.name)?;
    inside.push(InstanceRef {
        path,
        code,
        bindings: instance.bindings,
    })
}

/// The instance that a declaration declares.
fn declared(decl: &Decl) -> Option<InstanceParts<'_>>
    ensures { option_map instance_parts result ≡ instance_in decl.now }
{
    match decl {
        Decl::Instance(_, identifier, module, bindings) => Some(InstanceParts {
            name: identifier.name,
            module_name: module.name,
            bindings: bindings.as_slice(),
        }),
        _ => None,
    }
}

/// Main and all instances below it, depth first, in order of declaration.
#[tactic(auto, using(crate::proofs::Listed::all_none, crate::proofs::Listed::all_main))]
pub fn instances<'a>(
    alloc: Global,
    design: &SystemRef<'a>,
) -> Result<Items<InstanceRef<'a>>, AllocError>
    ensures { IfOk result (λ is. map instance_meant is ≡ instances (system_in design.now)) }
{
    let mut all = Items::new(alloc);
    if let Some(code) = design.main_module() {
        let here = main_instance(alloc, code);
        add_from(alloc, design, LONGEST_CHAIN, &here, &mut all)?;
    }
    Ok(all)
}

/// Adds an instance and those inside it, on chains of at most so many modules.
#[tactic(auto, using(uc_syntax::proofs::Added::added_begin, uc_syntax::proofs::Added::added_more))]
fn add_from<'a>(
    alloc: Global,
    design: &SystemRef<'a>,
    depth: u32,
    here: &InstanceRef<'a>,
    all: &mut Items<InstanceRef<'a>>,
) -> Result<(), AllocError>
    ensures { OnOk result (map instance_meant all.new ≡ map instance_meant all.old ++ instances_from depth (system_in design.now) (instance_meant here.now)) }
{
    if depth == 0 {
        return Ok(());
    }
    all.push(copied(alloc, here)?)?;
    let inside = instances_below(alloc, design, here)?;
    for instance in inside.as_slice() {
        add_from(alloc, design, depth - 1, instance, all)?;
    }
    Ok(())
}

fn copied<'a>(alloc: Global, here: &InstanceRef<'a>) -> Result<InstanceRef<'a>, AllocError>
    ensures { IfOk result (λ i. instance_meant i ≡ instance_meant here.now) }
{
    let path = Items::from_slice(alloc, here.path.as_slice())?;
    Ok(InstanceRef { path, ..*here })
}
