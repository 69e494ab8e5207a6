//! What instances bind.

ghost use Rattle.std.specs.Prelude.{◌≡◌, ◌++◌, ◌∷◌, [], false, map, IfOk, OnOk};
ghost use Rattle.std.specs.List.{filter_map, flat_map};
ghost use Rattle.uc_syntax.specs.declared.declaration.Module.{Module as ModuleMeant};
ghost use Rattle.uc_meaning.specs.Cells.{as_list};
ghost use Rattle.uc_meaning.specs.Lookup.{instance_in, instances_of, InstanceParts};
ghost use Rattle.uc_declared_types.specs.AliasLaw.{IsAmong};
ghost use Rattle.uc_order_rules.specs.Pairs.{SameThings};
ghost use Rattle.uc_module_writes.specs.Bound.{all_bound, bound_in, declared_bindings, seen_in, BindsApart};
ghost use Rattle.uc_module_writes.specs.Stepped.{MeetsAmong};

use crate::name_in;
use std::alloc::{AllocError, Global};
use uc_syntax::{Binding, Decl, Module};
use uc_type_names::NameSet;

/// The names whose parts are paired: where some instance of a design binds two names to one, all names that instances bind, and else none.
pub(crate) fn paired_names(alloc: Global, modules: &[Module]) -> Result<NameSet, AllocError>
    ensures { IfOk result (λ names. (m : ModuleMeant) → IsAmong m modules.now → MeetsAmong names m) }
{
    let merges = some_merge(alloc, modules)?;
    if !merges {
        let none = NameSet::new(alloc);
        return Ok(none);
    }
    let names = all_bound(alloc, modules)?;
    Ok(names)
}

/// Whether some instance binds two names to one.
fn some_merge(alloc: Global, modules: &[Module]) -> Result<bool, AllocError>
    ensures { IfOk result (λ b. b ≡ false → (m : ModuleMeant) → IsAmong m modules.now → (i : InstanceParts) → IsAmong i (instances_of m) → BindsApart i.bindings) }
{
    for module in modules {
        let merges = some_merge_in(alloc, module.decls.as_slice())?;
        if merges {
            return Ok(true);
        }
    }
    Ok(false)
}

fn some_merge_in(alloc: Global, declarations: &[Decl]) -> Result<bool, AllocError>
    ensures { IfOk result (λ b. b ≡ false → (i : InstanceParts) → IsAmong i (filter_map instance_in declarations.now) → BindsApart i.bindings) }
{
    for declaration in declarations {
        let merges = bind_one(alloc, bindings_of(declaration))?;
        if merges {
            return Ok(true);
        }
    }
    Ok(false)
}

/// Whether two bindings bind to one name.
fn bind_one(alloc: Global, bindings: &[Binding]) -> Result<bool, AllocError>
    ensures { IfOk result (λ b. b ≡ false → BindsApart bindings.now) }
{
    let mut seen = NameSet::new(alloc);
    for binding in bindings {
        let outer = name_in(&binding.expression);
        if is_seen(&seen, outer) {
            return Ok(true);
        }
        see(outer, &mut seen)?;
    }
    Ok(false)
}

fn is_seen(seen: &NameSet, outer: Option<u32>) -> bool
    ensures { result ≡ seen_in seen.now outer }
{
    match outer {
        None => false,
        Some(name) => seen.contains(name),
    }
}

fn see(outer: Option<u32>, seen: &mut NameSet) -> Result<(), AllocError>
    ensures { OnOk result (SameThings seen.new (seen.old ++ as_list outer)) }
{
    match outer {
        None => Ok(()),
        Some(name) => {
            add_name(name, seen)?;
            Ok(())
        }
    }
}

/// All names that instances of a design bind.
fn all_bound(alloc: Global, modules: &[Module]) -> Result<NameSet, AllocError>
    ensures { IfOk result (λ names. SameThings names (all_bound modules.now)) }
{
    let mut names = NameSet::new(alloc);
    for module in modules {
        add_declared(module.decls.as_slice(), &mut names)?;
    }
    Ok(names)
}

fn add_declared(declarations: &[Decl], names: &mut NameSet) -> Result<(), AllocError>
    ensures { OnOk result (SameThings names.new (names.old ++ flat_map bound_in declarations.now)) }
{
    for declaration in declarations {
        add_bound(bindings_of(declaration), names)?;
    }
    Ok(())
}

/// What a declaration binds, if it is an instance.
fn bindings_of(declaration: &Decl) -> &[Binding]
    ensures { result.now ≡ declared_bindings declaration.now }
{
    match declaration {
        Decl::Instance(_, _, _, bindings) => bindings.as_slice(),
        _ => &[],
    }
}

fn add_bound(bindings: &[Binding], names: &mut NameSet) -> Result<(), AllocError>
    ensures { OnOk result (SameThings names.new (names.old ++ map (λ b. b.identifier.name) bindings.now)) }
{
    for binding in bindings {
        add_name(binding.identifier.name, names)?;
    }
    Ok(())
}

#[tactic(auto, using(crate::proofs::BoundNames::name_added))]
fn add_name(name: u32, names: &mut NameSet) -> Result<(), AllocError>
    ensures { OnOk result (SameThings names.new (names.old ++ name ∷ [])) }
{
    names.insert(name)?;
    Ok(())
}
