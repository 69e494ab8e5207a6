//! The rule on cycles.

ghost use Rattle.std.specs.Prelude.{◌≡◌, ℕ, [], Some, if◌then◌else◌, slice_get, OnOk};
ghost use Rattle.uc_meaning.specs.Lookup.{System};
ghost use Rattle.uc_rules.specs.Faults.{first_of};
ghost use Rattle.uc_order_rules.specs.Roots.{rooted};
ghost use Rattle.uc_order_rules.specs.Uses.{use_cycles};
ghost use Rattle.uc_order_rules.specs.Order.{cycles};
ghost use Rattle.uc_uses.specs.Modules.{KnowsModules};
ghost use Rattle.uc_uses.specs.BoundLaw.{InstancesEnd};

use crate::noting::note_flagged;
use crate::root::{flag_at, root_uses};
use crate::{ModuleTable, judged_roots};
use std::alloc::{AllocError, Global};
use uc_graph::on_cycles;
use uc_names::DesignNames;
use uc_rules::Fault;
use uc_syntax::Module;

/// Notes each define, procedure and bound input on a cycle of uses and calls, in all roots that are judged.
pub fn note_use_cycles(
    alloc: Global,
    design: &DesignNames,
    first: &mut Option<Fault>,
) -> Result<(), AllocError>
    ensures { OnOk result (InstancesEnd design.now → first.new ≡ first_of first.old (cycles design.now)) }
{
    let judged = judged_roots(alloc, design)?;
    let system = design.system();
    let modules = ModuleTable::of(alloc, system.modules)?;
    for (number, root) in system.modules.iter().enumerate() {
        note_judged(alloc, &modules, root, flag_at(&judged, number), first)?;
    }
    Ok(())
}

/// Notes the uses on cycles below a root, if it is judged.
fn note_judged(
    alloc: Global,
    modules: &ModuleTable<'_>,
    root: &Module,
    is_judged: bool,
    first: &mut Option<Fault>,
) -> Result<(), AllocError>
    ensures { OnOk result ((s : System) (k : ℕ) → KnowsModules s.modules modules.now → slice_get s.modules k ≡ Some root.now → InstancesEnd s → first.new ≡ first_of first.old (if is_judged then use_cycles (rooted s k) else [])) }
{
    if !is_judged {
        return Ok(());
    }
    note_root(alloc, modules, root, first)?;
    Ok(())
}

/// Notes the uses on cycles below a root.
fn note_root(
    alloc: Global,
    modules: &ModuleTable<'_>,
    root: &Module,
    first: &mut Option<Fault>,
) -> Result<(), AllocError>
    ensures { OnOk result ((s : System) (k : ℕ) → KnowsModules s.modules modules.now → slice_get s.modules k ≡ Some root.now → InstancesEnd s → first.new ≡ first_of first.old (use_cycles (rooted s k))) }
{
    let uses = root_uses(alloc, modules, root)?;
    let flags = on_cycles(alloc, uses.graph.uses())?;
    note_flagged(&uses, &flags, first);
    Ok(())
}
