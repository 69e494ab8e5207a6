//! Faults of steps: what is written or stepped twice, and cells that depend on themselves.

ghost use Rattle.std.specs.Prelude.{◌≡◌, ◌++◌, OnOk};
ghost use Rattle.std.specs.List.{flat_map};
ghost use Rattle.uc_rules.specs.Faults.{first_of};
ghost use Rattle.uc_uses.specs.BoundLaw.{InstancesEnd};
ghost use Rattle.uc_uses.specs.KeptModules.{HasModules};
ghost use Rattle.uc_order_rules.specs.Stepped.{stepped_twice};
ghost use Rattle.uc_order_rules.specs.Writes.{twice_in_code, sequential_in};
ghost use Rattle.uc_order_rules.specs.Order.{step_faults};

use std::alloc::{AllocError, Global};
use uc_module_writes::note_twice_in_step;
use uc_names::DesignNames;
use uc_rules::Fault;
use uc_step_cycles::note_cyclic_steps;
use uc_syntax::Module;
use uc_written_once::{note_named_twice, note_stepped_twice};

/// Notes the faults of steps of all modules.
pub(crate) fn note_steps(
    alloc: Global,
    names: &DesignNames<'_>,
    first: &mut Option<Fault>,
) -> Result<(), AllocError>
    ensures { OnOk result (InstancesEnd names.now → HasModules names.now → first.new ≡ first_of first.old (step_faults names.now)) }
{
    let system = names.system();
    note_twice_in_step(alloc, names, first)?;
    note_each(alloc, system.modules, first)?;
    note_cyclic_steps(alloc, names, first)
}

/// Notes the targets that sequential code names twice, and the instances that are stepped twice, module by module.
fn note_each(alloc: Global, modules: &[Module], first: &mut Option<Fault>) -> Result<(), AllocError>
    ensures { OnOk result (first.new ≡ first_of first.old (flat_map (λ m. flat_map (λ d. twice_in_code (sequential_in d)) m.decls ++ stepped_twice m) modules.now)) }
{
    for code in modules {
        note_named_twice(alloc, code, first)?;
        note_stepped_twice(alloc, code, first)?;
    }
    Ok(())
}
