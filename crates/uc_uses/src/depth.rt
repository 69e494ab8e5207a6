//! Whether a chain of instances is too long.

ghost use Rattle.std.specs.Prelude.{◌≡◌, false, slice_index_or, IfOk};
ghost use Rattle.uc_order_rules.specs.Sizes.{has_deep_module};

use crate::instance_depth_graph::{instance_graph, node_of};
use crate::ways::long_ways;
use std::alloc::{AllocError, Global};
use uc_names::DesignNames;

/// The most modules that a chain of instances may have.
pub(crate) const LONGEST_CHAIN: usize = 32;

/// Whether a chain of instances has more than 32 modules, from any module on.
pub fn has_deep_module(alloc: Global, design: &DesignNames) -> Result<bool, AllocError>
    ensures { IfOk result (λ b. b ≡ has_deep_module design.now) }
{
    let graph = instance_graph(alloc, design)?;
    let flags = long_ways(alloc, graph.as_slice(), LONGEST_CHAIN)?;
    for module in design.system().modules {
        if flag_at(flags.as_slice(), node_of(design, module.name)) {
            return Ok(true);
        }
    }
    Ok(false)
}

pub(crate) fn flag_at(flags: &[bool], node: usize) -> bool
    ensures { result ≡ slice_index_or flags.now node false }
{
    match flags.get(node) {
        Some(flag) => *flag,
        None => false,
    }
}
