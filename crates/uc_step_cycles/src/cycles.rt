//! The rule, root by root.

ghost use Rattle.std.specs.Prelude.{◌≡◌, ℕ, Some, true, slice_get, OnOk};
ghost use Rattle.std.specs.List.{flat_map};
ghost use Rattle.uc_meaning.specs.Lookup.{System};
ghost use Rattle.uc_rules.specs.Faults.{first_of};
ghost use Rattle.uc_order_rules.specs.Roots.{rooted};
ghost use Rattle.uc_order_rules.specs.Dependence.{cyclic_steps};
ghost use Rattle.uc_order_rules.specs.Order.{dependence_in, is_judged, roots};
ghost use Rattle.uc_uses.specs.Modules.{KnowsModules};
ghost use Rattle.uc_uses.specs.BoundLaw.{InstancesEnd};
ghost use Rattle.uc_uses.specs.KeptModules.{HasModules};

use crate::noting::flag_at;
use crate::root::note_tree;
use std::alloc::{AllocError, Global};
use uc_names::DesignNames;
use uc_rules::Fault;
use uc_syntax::Module;
use uc_uses::{ModuleTable, instance_tree, judged_roots};

/// Notes each statement that may write a cell that depends on itself in a step, in all roots that are judged.
pub fn note_cyclic_steps(
    alloc: Global,
    names: &DesignNames<'_>,
    first: &mut Option<Fault>,
) -> Result<(), AllocError>
    ensures { OnOk result (InstancesEnd names.now → HasModules names.now → first.new ≡ first_of first.old (flat_map dependence_in (roots names.now))) }
{
    let judged = judged_roots(alloc, names)?;
    let system = names.system();
    let modules = ModuleTable::of(alloc, system.modules)?;
    for (number, root) in system.modules.iter().enumerate() {
        let judges = flag_at(judged.as_slice(), number);
        note_judged(alloc, &modules, root, judges, first)?;
    }
    Ok(())
}

/// Notes them below a root, if it is judged.
fn note_judged(
    alloc: Global,
    modules: &ModuleTable<'_>,
    root: &Module,
    judges: bool,
    first: &mut Option<Fault>,
) -> Result<(), AllocError>
    ensures { OnOk result ((s : System) (k : ℕ) → KnowsModules s.modules modules.now → slice_get s.modules k ≡ Some root.now → InstancesEnd s → HasModules s → judges ≡ is_judged (rooted s k, root.now) → first.new ≡ first_of first.old (dependence_in (rooted s k, root.now))) }
{
    if !judges {
        return Ok(());
    }
    note_root(alloc, modules, root, first)?;
    Ok(())
}

/// Notes them below a root.
fn note_root(
    alloc: Global,
    modules: &ModuleTable<'_>,
    root: &Module,
    first: &mut Option<Fault>,
) -> Result<(), AllocError>
    ensures { OnOk result ((s : System) (k : ℕ) → KnowsModules s.modules modules.now → slice_get s.modules k ≡ Some root.now → InstancesEnd s → HasModules s → is_judged (rooted s k, root.now) ≡ true → first.new ≡ first_of first.old (cyclic_steps (rooted s k))) }
{
    let tree = instance_tree(alloc, modules, root)?;
    note_tree(alloc, &tree, first)?;
    Ok(())
}
