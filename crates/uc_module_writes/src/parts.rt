//! The parts that a step writes.

ghost use Rattle.std.specs.Prelude.{◌≡◌, ◌++◌, ◌∷◌, [], not, if◌then◌else◌, IfOk, OnOk};
ghost use Rattle.std.specs.List.{flat_map, list_any};
ghost use Rattle.std.specs.Option.{is_some};
ghost use Rattle.uc_meaning.specs.Cells.{as_list};
ghost use Rattle.uc_meaning.specs.Lookup.{InstanceParts};
ghost use Rattle.uc_order_rules.specs.Writes.{part_of_name, stepped_parts};
ghost use Rattle.uc_module_writes.specs.Outer.{outer_part_by, IsOuter};

use crate::outer::OuterNames;
use std::alloc::{AllocError, Global};
use uc_items::Items;

/// The parts of the parent that stepping an instance writes, by those that its module writes: the names that are bound to theirs, and the
/// instance itself where it writes anything else.
pub fn stepped_parts(
    alloc: Global,
    outer: &OuterNames,
    instance: u32,
    parts: &[Items<u32>],
) -> Result<Items<Items<u32>>, AllocError>
    ensures { IfOk result (λ ps. (i : InstanceParts) → IsOuter outer.now i → i.name ≡ instance → ps ≡ stepped_parts i parts.now) }
{
    let mut stepped = outer_parts(alloc, outer, parts)?;
    let is_inside = has_inside(outer, parts);
    let own = own_part(alloc, is_inside, instance)?;
    stepped.append(own)?;
    Ok(stepped)
}

/// The instance as a part, where something inside it is written.
fn own_part(alloc: Global, is_written: bool, instance: u32) -> Result<Items<Items<u32>>, AllocError>
    ensures { IfOk result (λ parts. parts ≡ (if is_written then part_of_name instance ∷ [] else [])) }
{
    let mut parts = Items::new(alloc);
    if !is_written {
        return Ok(parts);
    }
    let mut own = Items::new(alloc);
    own.push(instance)?;
    parts.push(own)?;
    Ok(parts)
}

/// The parts that are parts of the parent's names, as such.
#[tactic(auto, using(uc_syntax::proofs::Added::added_begin, uc_syntax::proofs::Added::added_more, uc_syntax::proofs::Added::added_end))]
fn outer_parts(
    alloc: Global,
    outer: &OuterNames,
    parts: &[Items<u32>],
) -> Result<Items<Items<u32>>, AllocError>
    ensures { IfOk result (λ ps. ps ≡ flat_map (λ p. as_list (outer_part_by outer.now p)) parts.now) }
{
    let mut named = Items::new(alloc);
    for part in parts {
        add_outer(alloc, outer, part.as_slice(), &mut named)?;
    }
    Ok(named)
}

fn add_outer(
    alloc: Global,
    outer: &OuterNames,
    part: &[u32],
    named: &mut Items<Items<u32>>,
) -> Result<(), AllocError>
    ensures { OnOk result (named.new ≡ named.old ++ as_list (outer_part_by outer.now part.now)) }
{
    match outer_part(alloc, outer, part)? {
        None => Ok(()),
        Some(part) => {
            named.push(part)?;
            Ok(())
        }
    }
}

/// A part of the instance's module as one of the parent's, where it is one.
pub fn outer_part(
    alloc: Global,
    outer: &OuterNames,
    part: &[u32],
) -> Result<Option<Items<u32>>, AllocError>
    ensures { IfOk result (λ o. o ≡ outer_part_by outer.now part.now) }
{
    match part {
        [] => Ok(None),
        [name, fields @ ..] => match outer.outer(*name) {
            None => Ok(None),
            Some(outer) => {
                let part = with_fields(alloc, outer, fields)?;
                Ok(Some(part))
            }
        },
    }
}

fn with_fields(alloc: Global, name: u32, fields: &[u32]) -> Result<Items<u32>, AllocError>
    ensures { IfOk result (λ part. part ≡ name ∷ fields.now) }
{
    let mut part = Items::new(alloc);
    part.push(name)?;
    let fields = Items::from_slice(alloc, fields)?;
    part.append(fields)?;
    Ok(part)
}

/// Whether a part is none of the parent's names.
fn is_inside(outer: &OuterNames, part: &[u32]) -> bool
    ensures { result ≡ not (is_some (outer_part_by outer.now part.now)) }
{
    match part {
        [] => true,
        [name, ..] => outer.outer(*name).is_none(),
    }
}

fn has_inside(outer: &OuterNames, parts: &[Items<u32>]) -> bool
    ensures { result ≡ list_any (λ p. not (is_some (outer_part_by outer.now p))) parts.now }
{
    parts.iter().any(|part| is_inside(outer, part.as_slice()))
}
