//! Which designs keep the rules on order and sizes.

ghost use Rattle.std.specs.Prelude.{◌≡◌, None, IfOk, IfErr, IsOk, OnOk};
ghost use Rattle.uc_rules.specs.Faults.{first_of};
ghost use Rattle.uc_meaning.specs.Lookup.{system_of};
ghost use Rattle.uc_uses.specs.BoundLaw.{InstancesEnd};
ghost use Rattle.uc_uses.specs.KeptModules.{HasModules};
ghost use Rattle.uc_order_rules.specs.Order.{KeepsOrder, IsFirstOrderFault, order_faults};
ghost use Rattle.uc_types.specs.Typed.{KeepsTypes};
ghost use Rattle.uc_order.specs.Ordered.{system_in, IsOrderError};

use crate::error::OrderError;
use crate::ordered::Ordered;
use crate::sizes::note_sizes;
use crate::steps::note_steps;
use std::alloc::{AllocError, Global};
use uc_lookup::SystemRef;
use uc_names::DesignNames;
use uc_rules::{Fault, verdict};
use uc_syntax::Design;
use uc_types::TypedDesign;
use uc_uses::note_use_cycles;

/// The design, where no rule on order or sizes is broken. Else it is refused with the first fault.
pub fn order(alloc: Global, typed: TypedDesign) -> Result<Ordered, OrderError>
    ensures design { IfOk result (λ o. o ≡ typed) }
    ensures kept { IsOk result → KeepsOrder (system_in typed) }
    ensures refused { IfErr result (IsOrderError (IsFirstOrderFault (system_in typed))) }
{
    judge(alloc, &typed)?;
    Ok(Ordered::of(typed))
}

/// Whether no rule is broken, or the first fault.
fn judge(alloc: Global, typed: &TypedDesign) -> Result<(), OrderError>
    ensures kept { OnOk result (KeepsOrder (system_in typed.now)) }
    ensures refused { IfErr result (IsOrderError (IsFirstOrderFault (system_in typed.now))) }
{
    let first = first_fault(alloc, typed.design(), typed.main())?;
    match verdict(first) {
        Ok(()) => Ok(()),
        Err(fault) => Err(OrderError::Fault(fault)),
    }
}

/// The first fault of order or size of a design.
fn first_fault(alloc: Global, design: &Design, main: u32) -> Result<Option<Fault>, AllocError>
    ensures { IfOk result (λ first. InstancesEnd (system_of design.now main) → HasModules (system_of design.now main) → first ≡ first_of None (order_faults (system_of design.now main))) }
{
    let names = DesignNames::of(alloc, SystemRef::of(design, main))?;
    let first = first_of_names(alloc, &names);
    drop(names);
    first
}

/// The same, where names are found by tables.
fn first_of_names(alloc: Global, names: &DesignNames<'_>) -> Result<Option<Fault>, AllocError>
    ensures { IfOk result (λ first. InstancesEnd names.now → HasModules names.now → first ≡ first_of None (order_faults names.now)) }
{
    let mut first = None;
    note_use_cycles(alloc, names, &mut first)?;
    note_sizes(alloc, names, &mut first)?;
    note_steps(alloc, names, &mut first)?;
    Ok(first)
}
