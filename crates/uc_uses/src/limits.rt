//! Whether main has too many instances or cells.

ghost use Rattle.std.specs.Prelude.{◌≡◌, length, nat_lt, suc};
ghost use Rattle.uc_meaning.specs.Cells.{cells_of};
ghost use Rattle.uc_lookup.specs.Parts.{system_in};
ghost use Rattle.uc_uses.specs.Counting.{all_own, instances_of_main};
ghost use Rattle.uc_order_rules.specs.Roots.{instances_in};
ghost use Rattle.uc_order_rules.specs.Sizes.{most_cells, most_instances};

use crate::counts::{Counted, Place, count_instances};
use uc_lookup::SystemRef;

/// The most cells that a design may have.
const MOST_CELLS: u64 = 65_535;

/// The most instances that a design may have, main not counted.
const MOST_INSTANCES: u64 = 65_535;

/// How many modules stand on one chain of instances at most.
const LONGEST_CHAIN: u128 = 32;

/// Whether there are more instances than a design may have. The walk ends at the first that is too many.
pub fn has_many_instances(system: &SystemRef<'_>) -> bool
    ensures { result ≡ nat_lt (suc most_instances) (length (instances_in (system_in system.now))) }
{
    let depth = system.modules.len() as u128 + 1;
    passes(system, Counted::Instances, depth, MOST_INSTANCES + 1)
}

/// Whether there are more cells than a design may have. The walk ends at the first that is too many; instances without cells it passes by,
/// so there should not be too many of these.
pub fn has_many_cells(system: &SystemRef<'_>) -> bool
    ensures { result ≡ nat_lt most_cells (length (cells_of (system_in system.now))) }
{
    passes(system, Counted::Cells, LONGEST_CHAIN, MOST_CELLS)
}

/// Whether a limit is passed by what main and the instances below it have.
fn passes(system: &SystemRef<'_>, counted: Counted, depth: u128, limit: u64) -> bool
    ensures { result ≡ nat_lt limit (all_own counted (system_in system.now) (instances_of_main depth (system_in system.now))) }
{
    match system.main_module() {
        Some(code) => {
            let place = Place {
                code,
                bindings: &[],
                is_main: true,
            };
            let mut count = 0;
            !count_instances(system, counted, depth, place, limit, &mut count)
        }
        None => false,
    }
}
