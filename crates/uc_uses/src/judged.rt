//! The roots that are judged by the rules that follow uses from instance to instance.

ghost use Rattle.std.specs.Prelude.{◌≡◌, ◌||◌, not, ℕ, Some, false, slice_get, slice_index_or, IfOk};
ghost use Rattle.uc_syntax.specs.declared.declaration.Module.{Module};
ghost use Rattle.uc_lookup.specs.Parts.{system_in};
ghost use Rattle.uc_order_rules.specs.Roots.{rooted};
ghost use Rattle.uc_order_rules.specs.Sizes.{has_many_instances};
ghost use Rattle.uc_order_rules.specs.Order.{is_judged};

use crate::depth::{LONGEST_CHAIN, flag_at};
use crate::has_many_instances;
use crate::instance_depth_graph::{instance_graph, node_of};
use crate::ways::long_ways;
use std::alloc::{AllocError, Global};
use uc_items::Items;
use uc_lookup::SystemRef;
use uc_names::DesignNames;

/// For each module whether it is judged as a root: whether no chain of instances from it down has more than 32 modules, and no more than
/// 65,535 instances stand below it.
pub fn judged_roots(alloc: Global, design: &DesignNames) -> Result<Items<bool>, AllocError>
    ensures { IfOk result (λ flags. (k : ℕ) (m : Module) → slice_get design.now.modules k ≡ Some m → slice_index_or flags k false ≡ is_judged (rooted design.now k, m)) }
{
    let graph = instance_graph(alloc, design)?;
    let deep = long_ways(alloc, graph.as_slice(), LONGEST_CHAIN)?;
    let mut flags = Items::new(alloc);
    let system = design.system();
    for (number, root) in system.modules.iter().enumerate() {
        let is_deep = flag_at(deep.as_slice(), node_of(design, root.name));
        flags.push(is_within(system, number, is_deep)?)?;
    }
    Ok(flags)
}

/// Whether a root has neither too long a chain of instances nor too many of them.
fn is_within(system: SystemRef<'_>, number: usize, is_deep: bool) -> Result<bool, AllocError>
    ensures { IfOk result (λ b. b ≡ not (is_deep || has_many_instances (rooted (system_in system.entry) number))) }
{
    if is_deep {
        return Ok(false);
    }
    match u32::try_from(number) {
        Err(_) => Err(AllocError),
        Ok(main) => {
            let root = SystemRef {
                names: system.names,
                files: system.files,
                modules: system.modules,
                main,
            };
            Ok(!has_many_instances(&root))
        }
    }
}
