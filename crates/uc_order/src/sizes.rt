//! Loops and enums that are too large, and designs that pass a limit as a whole.

ghost use Rattle.std.specs.Prelude.{◌≡◌, ◌++◌, ◌||◌, ◌&&◌, None, is_none, IfOk, OnOk};
ghost use Rattle.std.specs.List.{flat_map, list_any};
ghost use Rattle.uc_rules.specs.Faults.{first_of};
ghost use Rattle.uc_uses.specs.BoundLaw.{InstancesEnd};
ghost use Rattle.uc_order_rules.specs.Sizes.{label_faults, turn_faults, is_too_large};
ghost use Rattle.uc_order_rules.specs.Order.{cycles, size_faults, whole_faults, whole_faults_if, has_large_tree, has_long_uses, roots};

use std::alloc::{AllocError, Global};
use uc_names::DesignNames;
use uc_rules::{Fault, Rule, note_where};
use uc_sizes::is_too_large;
use uc_syntax::Module;
use uc_uses::{has_deep_module, has_long_uses, has_many_cells, has_many_instances};
use uc_written_once::{note_large_enums, note_long_loops};

/// Notes what is too large, behind the cycles of uses. Chains of uses are judged where no cycle is at fault, and what main expands to
/// where no loop is either.
pub(crate) fn note_sizes(
    alloc: Global,
    names: &DesignNames<'_>,
    first: &mut Option<Fault>,
) -> Result<(), AllocError>
    ensures { OnOk result (InstancesEnd names.now → first.old ≡ first_of None (cycles names.now) → first.new ≡ first_of first.old (size_faults names.now ++ whole_faults names.now)) }
{
    let modules = names.system().modules;
    let is_acyclic = first.is_none();
    note_loops(modules, first);
    let is_bounded = first.is_none();
    note_enums(alloc, modules, first)?;
    note_whole(alloc, names, is_acyclic, is_bounded, first)
}

/// Notes the loops with too many turns.
fn note_loops(modules: &[Module], first: &mut Option<Fault>)
    ensures { first.new ≡ first_of first.old (flat_map turn_faults modules.now) }
{
    for code in modules {
        note_long_loops(code, first);
    }
}

/// Notes the enums with too many labels.
fn note_enums(
    alloc: Global,
    modules: &[Module],
    first: &mut Option<Fault>,
) -> Result<(), AllocError>
    ensures { OnOk result (first.new ≡ first_of first.old (flat_map label_faults modules.now)) }
{
    for code in modules {
        note_large_enums(alloc, code, first)?;
    }
    Ok(())
}

/// Notes at main's place that the design passes a limit as a whole.
fn note_whole(
    alloc: Global,
    names: &DesignNames<'_>,
    is_acyclic: bool,
    is_bounded: bool,
    first: &mut Option<Fault>,
) -> Result<(), AllocError>
    ensures { OnOk result (InstancesEnd names.now → first.new ≡ first_of first.old (whole_faults_if names.now is_acyclic is_bounded)) }
{
    let system = names.system();
    match system.main_module() {
        Some(main) => {
            let is_broken = passes_limit(alloc, names, is_acyclic, is_bounded)?;
            note_where(first, is_broken, Rule::TooLarge, main.place);
            Ok(())
        }
        None => Ok(()),
    }
}

/// Whether the design passes a limit as a whole.
fn passes_limit(
    alloc: Global,
    names: &DesignNames<'_>,
    is_acyclic: bool,
    is_bounded: bool,
) -> Result<bool, AllocError>
    ensures { IfOk result (λ b. InstancesEnd names.now → b ≡ (has_large_tree names.now || ((is_acyclic && list_any has_long_uses (roots names.now)) || (is_bounded && is_too_large names.now)))) }
{
    if has_large_tree(alloc, names)? {
        return Ok(true);
    }
    if is_acyclic && has_long_uses(alloc, names)? {
        return Ok(true);
    }
    if !is_bounded {
        return Ok(false);
    }
    is_too_large(alloc, &names.system())
}

/// Whether a chain of instances is too long, or there are too many instances or cells.
fn has_large_tree(alloc: Global, names: &DesignNames<'_>) -> Result<bool, AllocError>
    ensures { IfOk result (λ b. b ≡ has_large_tree names.now) }
{
    if has_deep_module(alloc, names)? {
        return Ok(true);
    }
    let system = names.system();
    Ok(has_many_instances(&system) || has_many_cells(&system))
}
