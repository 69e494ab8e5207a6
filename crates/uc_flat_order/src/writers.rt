//! Which statements write what overlaps some parts. They are listed by the numbers of the cells, so that few are asked.

ghost use Rattle.std.specs.Prelude.{◌≡◌, ℕ, ◌<◌, ◌&&◌, ◌||◌, not, Some, length, slice_get, IfOk, OnOk};
ghost use Rattle.uc_graph.specs.Order.{has};
ghost use Rattle.uc_flat_order.specs.declared.uses.Uses.{Uses};
ghost use Rattle.uc_flat_order.specs.Uses.{spared};
ghost use Rattle.uc_flat_order.specs.Writers.{writes_over, AreListed, Grown};

use crate::uses::Uses;
use std::alloc::{AllocError, Global};
use uc_flat_code::{Part, touched};
use uc_graph::Lists;
use uc_items::{Items, at};

/// The places of the statements that write parts of cells, each listed under the remainder of the cell's number by the number of lists.
pub(crate) fn writers_of(alloc: Global, uses: &[Uses]) -> Result<Lists, AllocError>
    ensures { IfOk result (AreListed uses.now) }
{
    let count = uses.len() + 1;
    let mut lists = Lists::new(alloc, count)?;
    for (place, own) in uses.iter().enumerate() {
        list_writes(&mut lists, count, own.writes.as_slice(), place)?;
    }
    Ok(lists)
}

/// Lists a statement for each of the parts that it writes.
fn list_writes(
    lists: &mut Lists,
    count: usize,
    writes: &[Part],
    place: usize,
) -> Result<(), AllocError>
    requires count { 0 < count }
    requires lists { length lists.old ≡ count }
    ensures { OnOk result (Grown lists.old lists.new count writes.now place) }
{
    for part in writes {
        lists.add(part.cell as usize % count, place)?;
    }
    Ok(())
}

/// The places of the statements that write a part that overlaps one of these.
pub(crate) fn needs_of(
    alloc: Global,
    uses: &[Uses],
    writers: &Lists,
    parts: &[Part],
) -> Result<Items<usize>, AllocError>
    requires { AreListed uses.now writers.now }
    ensures { IfOk result (λ needs. (j : ℕ) (u : Uses) → slice_get uses.now j ≡ Some u → has needs j ≡ not (spared parts.now u.writes)) }
{
    let count = uses.len() + 1;
    let mut needs = Items::new(alloc);
    for part in parts {
        let listed = writers.list(part.cell as usize % count);
        add_writers(uses, listed, part, &mut needs)?;
    }
    Ok(needs)
}

/// Adds those of the listed statements that write what overlaps a part.
fn add_writers(
    uses: &[Uses],
    listed: &[usize],
    part: &Part,
    needs: &mut Items<usize>,
) -> Result<(), AllocError>
    ensures { OnOk result ((n : ℕ) → has needs.new n ≡ (has needs.old n || (has listed.now n && writes_over uses.now n part.now))) }
{
    for place in listed {
        if writes_over(uses, *place, part) {
            needs.push(*place)?;
        }
    }
    Ok(())
}

fn writes_over(uses: &[Uses], place: usize, part: &Part) -> bool
    ensures { result ≡ writes_over uses.now place part.now }
{
    match at(uses, place) {
        Some(own) => touched(own.writes.as_slice(), part),
        None => false,
    }
}
