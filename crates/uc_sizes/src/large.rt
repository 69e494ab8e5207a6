//! The limits on the whole.

ghost use Rattle.std.specs.Prelude.{◌≡◌, IfOk};
ghost use Rattle.uc_lookup.specs.Parts.{system_in};
ghost use Rattle.uc_order_rules.specs.Sizes.{expansion, is_too_large};
ghost use Rattle.uc_sizes.specs.Spending.{exceeds};

use crate::expansion::spend_expansion;
use crate::{Halt, Spent};
use std::alloc::{AllocError, Global};
use uc_lookup::SystemRef;
use uc_uses::{has_many_cells, has_many_instances};

/// Whether main is too large: its instances, its cells, or the statements and nodes that it expands to. Instances and cells are counted
/// first, so that there are few instances where what they expand to is counted.
pub fn is_too_large(alloc: Global, system: &SystemRef<'_>) -> Result<bool, AllocError>
    ensures { IfOk result (λ b. b ≡ is_too_large (system_in system.now)) }
{
    if has_many_instances(system) || has_many_cells(system) {
        return Ok(true);
    }
    has_large_expansion(alloc, system)
}

/// Whether main expands to too many statements or nodes.
fn has_large_expansion(alloc: Global, system: &SystemRef<'_>) -> Result<bool, AllocError>
    ensures { IfOk result (λ b. b ≡ exceeds (expansion (system_in system.now))) }
{
    let mut spent = Spent::new();
    match spend_expansion(alloc, system, &mut spent) {
        Ok(()) => Ok(false),
        Err(Halt::TooLarge) => Ok(true),
        Err(Halt::NoMemory) => Err(AllocError),
    }
}
