//! The limit on chains of uses.

ghost use Rattle.std.specs.Prelude.{◌≡◌, ◌&&◌, ℕ, Some, slice_get, IfOk};
ghost use Rattle.std.specs.List.{list_any};
ghost use Rattle.uc_meaning.specs.Lookup.{System};
ghost use Rattle.uc_order_rules.specs.Roots.{rooted};
ghost use Rattle.uc_order_rules.specs.Uses.{has_long_chain};
ghost use Rattle.uc_order_rules.specs.Order.{has_long_uses, roots};
ghost use Rattle.uc_uses.specs.Modules.{KnowsModules};
ghost use Rattle.uc_uses.specs.BoundLaw.{InstancesEnd};

use crate::root::{flag_at, root_uses};
use crate::{ModuleTable, judged_roots, long_ways};
use std::alloc::{AllocError, Global};
use uc_names::DesignNames;
use uc_syntax::Module;

/// The most defines, procedures and bound inputs that a chain of uses and calls may have.
const LONGEST_CHAIN: usize = 32;

/// Whether a chain of uses and calls is too long in some root that is judged.
pub fn has_long_uses(alloc: Global, design: &DesignNames) -> Result<bool, AllocError>
    ensures { IfOk result (λ b. InstancesEnd design.now → b ≡ list_any has_long_uses (roots design.now)) }
{
    let judged = judged_roots(alloc, design)?;
    let system = design.system();
    let modules = ModuleTable::of(alloc, system.modules)?;
    for (number, root) in system.modules.iter().enumerate() {
        if is_long_root(alloc, &modules, root, flag_at(&judged, number))? {
            return Ok(true);
        }
    }
    Ok(false)
}

/// Whether a root is judged and a chain of uses and calls below it is too long.
fn is_long_root(
    alloc: Global,
    modules: &ModuleTable<'_>,
    root: &Module,
    is_judged: bool,
) -> Result<bool, AllocError>
    ensures { IfOk result (λ b. (s : System) (k : ℕ) → KnowsModules s.modules modules.now → slice_get s.modules k ≡ Some root.now → InstancesEnd s → b ≡ (is_judged && has_long_chain (rooted s k))) }
{
    if !is_judged {
        return Ok(false);
    }
    let is_long = is_long_below(alloc, modules, root)?;
    Ok(is_long)
}

/// Whether a chain of uses and calls below a root is too long.
fn is_long_below(
    alloc: Global,
    modules: &ModuleTable<'_>,
    root: &Module,
) -> Result<bool, AllocError>
    ensures { IfOk result (λ b. (s : System) (k : ℕ) → KnowsModules s.modules modules.now → slice_get s.modules k ≡ Some root.now → InstancesEnd s → b ≡ has_long_chain (rooted s k)) }
{
    let uses = root_uses(alloc, modules, root)?;
    let flags = long_ways(alloc, uses.graph.uses(), LONGEST_CHAIN)?;
    Ok(has_flag(flags.as_slice()))
}

fn has_flag(flags: &[bool]) -> bool
    ensures { result ≡ list_any (λ b. b) flags.now }
{
    flags.iter().any(|flag| *flag)
}
