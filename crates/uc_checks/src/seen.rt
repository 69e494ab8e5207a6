//! What the statements of a `next` block have seen.

ghost use Rattle.std.specs.Prelude.{IfOk};
ghost use Rattle.std.specs.List.{flat_map};
ghost use Rattle.uc_meaning.specs.Code.{written_cell};
ghost use Rattle.uc_meaning.specs.Steps.{part_of_cell, fields_before, target_parts, name_parts};
ghost use Rattle.uc_readings.specs.Scopes.{scope_in};
ghost use Rattle.uc_checks.specs.Watches.{Grows};

use crate::fields::fields_before;
use std::alloc::{AllocError, Global};
use uc_items::{Items, beside};
use uc_layout::{Layout, Part};
use uc_meaning::Site;
use uc_readings::ScopeRef;
use uc_runs::written_cell;
use uc_syntax::Target;

/// The parts that are written, the sites that are listed, and how many choices are taken.
#[derive(Drop)]
pub struct Seen {
    pub written: Items<Part>,
    pub violated: Items<Site>,
    pub used: usize,
}

/// What is seen where a part of a name is written: one of the cell that the name stands for.
fn with_part(
    layout: &Layout,
    path: &[u32],
    seen: Seen,
    name: u32,
    fields: Items<u32>,
) -> Result<Seen, AllocError>
    ensures { IfOk result (λ w. Grows seen (part_of_cell fields (written_cell layout.now path.now name)) w) }
{
    match written_cell(layout, path, name) {
        Some(cell) => with_cell_part(seen, Part { cell, fields }),
        None => Ok(seen),
    }
}

fn with_cell_part(seen: Seen, part: Part) -> Result<Seen, AllocError>
    ensures { IfOk result (λ w. Grows seen (part_of_cell part.fields (Some part.cell)) w) }
{
    let Seen {
        mut written,
        violated,
        used,
    } = seen;
    written.push(part)?;
    Ok(Seen {
        written,
        violated,
        used,
    })
}

/// What is seen where a name is written whole.
pub fn with_name(
    alloc: Global,
    layout: &Layout,
    scope: &ScopeRef<'_>,
    seen: Seen,
    name: u32,
) -> Result<Seen, AllocError>
    ensures { IfOk result (λ w. Grows seen (name_parts layout.now (scope_in scope.now) name) w) }
{
    with_part(layout, scope.path, seen, name, Items::new(alloc))
}

/// What is seen where a target is written.
pub(crate) fn with_target(
    alloc: Global,
    layout: &Layout,
    scope: &ScopeRef<'_>,
    seen: Seen,
    target: &Target,
) -> Result<Seen, AllocError>
    ensures { IfOk result (λ w. Grows seen (target_parts layout.now (scope_in scope.now) target.now) w) }
{
    let fields = fields_before(alloc, target.parts.as_slice());
    let (seen, fields) = beside(seen, fields)?;
    with_part(layout, scope.path, seen, target.name, fields)
}

/// What is seen where targets are written.
pub(crate) fn with_targets(
    alloc: Global,
    layout: &Layout,
    scope: &ScopeRef<'_>,
    seen: Seen,
    targets: &[Target],
) -> Result<Seen, AllocError>
    ensures { IfOk result (λ w. Grows seen (flat_map (target_parts layout.now (scope_in scope.now)) targets.now) w) }
{
    let mut here = seen;
    for target in targets {
        here = with_target(alloc, layout, scope, here, target)?;
    }
    Ok(here)
}

/// What is seen where names are written whole.
pub(crate) fn with_names(
    alloc: Global,
    layout: &Layout,
    scope: &ScopeRef<'_>,
    seen: Seen,
    names: &[u32],
) -> Result<Seen, AllocError>
    ensures { IfOk result (λ w. Grows seen (flat_map (name_parts layout.now (scope_in scope.now)) names.now) w) }
{
    let mut here = seen;
    for name in names {
        here = with_name(alloc, layout, scope, here, *name)?;
    }
    Ok(here)
}
