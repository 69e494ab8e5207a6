//! What it is to step an instance, by what its module writes.

ghost use Rattle.std.specs.Prelude.{◌≡◌, ◌++◌, filter, IfOk, OnOk};
ghost use Rattle.std.specs.List.{filter_map};
ghost use Rattle.std.specs.Option.{option_map};
ghost use Rattle.uc_meaning.specs.Cells.{as_list};
ghost use Rattle.uc_meaning.specs.Lookup.{InstanceParts};
ghost use Rattle.uc_order_rules.specs.Writes.{overlap, stepped_parts};
ghost use Rattle.uc_order_rules.specs.Pairs.{any_pair, SameThings};
ghost use Rattle.uc_module_writes.specs.Outer.{IsOuter};
ghost use Rattle.uc_module_writes.specs.Found.{is_kept};
ghost use Rattle.uc_module_writes.specs.Stepped.{pair_by, IsStep};

use crate::{OuterNames, WrittenPairs, outer_part, overlaps, stepped_parts};
use std::alloc::{AllocError, Global};
use uc_items::Items;
use uc_syntax::Binding;
use uc_type_names::NameSet;
use uc_written_once::Stepped;

/// What stepping an instance writes in the parent's names.
pub(crate) fn step_of(
    alloc: Global,
    names: &NameSet,
    instance: u32,
    bindings: &[Binding],
    inner: &WrittenPairs,
) -> Result<WrittenPairs, AllocError>
    ensures { IfOk result (λ w. (i : InstanceParts) → i.name ≡ instance → i.bindings ≡ bindings.now → IsStep names.now inner.now i w) }
{
    let outer = OuterNames::of(alloc, bindings)?;
    let parts = stepped_parts(alloc, &outer, instance, inner.parts())?;
    let mut step = WrittenPairs::new(alloc);
    add_parts(alloc, names, parts.as_slice(), &mut step)?;
    add_pairs(alloc, &outer, inner.pairs(), &mut step)?;
    Ok(step)
}

fn add_parts(
    alloc: Global,
    names: &NameSet,
    parts: &[Items<u32>],
    step: &mut WrittenPairs,
) -> Result<(), AllocError>
    ensures parts { OnOk result (SameThings step.new.parts (step.old.parts ++ parts.now)) }
    ensures kept { OnOk result (SameThings step.new.kept (step.old.kept ++ filter (is_kept names.now) parts.now)) }
    ensures pairs { OnOk result (step.new.pairs ≡ step.old.pairs) }
{
    for part in parts {
        let copy = Items::from_slice(alloc, part.as_slice())?;
        step.add_part(alloc, names, copy)?;
    }
    Ok(())
}

fn add_pairs(
    alloc: Global,
    outer: &OuterNames,
    pairs: &[(Items<u32>, Items<u32>)],
    step: &mut WrittenPairs,
) -> Result<(), AllocError>
    ensures parts { OnOk result (step.new.parts ≡ step.old.parts) }
    ensures kept { OnOk result (step.new.kept ≡ step.old.kept) }
    ensures pairs { OnOk result (SameThings step.new.pairs (step.old.pairs ++ filter_map (pair_by outer.now) pairs.now)) }
{
    for pair in pairs {
        add_outer(alloc, outer, pair.0.as_slice(), pair.1.as_slice(), step)?;
    }
    Ok(())
}

fn add_outer(
    alloc: Global,
    outer: &OuterNames,
    earlier: &[u32],
    later: &[u32],
    step: &mut WrittenPairs,
) -> Result<(), AllocError>
    ensures parts { OnOk result (step.new.parts ≡ step.old.parts) }
    ensures kept { OnOk result (step.new.kept ≡ step.old.kept) }
    ensures pairs { OnOk result (SameThings step.new.pairs (step.old.pairs ++ as_list (pair_by outer.now (earlier.now, later.now)))) }
{
    match outer_pair(alloc, outer, earlier, later)? {
        None => Ok(()),
        Some((earlier, later)) => {
            step.add_pair(earlier, later)?;
            Ok(())
        }
    }
}

/// Two parts as parts of the parent, where both are such and they do not overlap in the instance.
fn outer_pair(
    alloc: Global,
    outer: &OuterNames,
    earlier: &[u32],
    later: &[u32],
) -> Result<Option<(Items<u32>, Items<u32>)>, AllocError>
    ensures { IfOk result (λ o. o ≡ pair_by outer.now (earlier.now, later.now)) }
{
    if overlaps(earlier, later) {
        return Ok(None);
    }
    match outer_part(alloc, outer, earlier)? {
        None => Ok(None),
        Some(earlier) => {
            let later = outer_part(alloc, outer, later)?;
            Ok(with_later(earlier, later))
        }
    }
}

fn with_later(earlier: Items<u32>, later: Option<Items<u32>>) -> Option<(Items<u32>, Items<u32>)>
    ensures { result ≡ option_map (λ q. (earlier, q)) later }
{
    match later {
        None => None,
        Some(later) => Some((earlier, later)),
    }
}

/// What is entered of a step: its parts, and whether the two of a pair overlap.
pub(crate) fn stepped_from(alloc: Global, step: &WrittenPairs) -> Result<Stepped, AllocError>
    ensures parts { IfOk result (λ s. s.parts ≡ step.now.parts) }
    ensures meet { IfOk result (λ s. s.meet ≡ any_pair overlap step.now.pairs) }
{
    let parts = copies(alloc, step.parts())?;
    let meet = some_overlap(step.pairs());
    Ok(Stepped { parts, meet })
}

fn some_overlap(pairs: &[(Items<u32>, Items<u32>)]) -> bool
    ensures { result ≡ any_pair overlap pairs.now }
{
    pairs
        .iter()
        .any(|pair| overlaps(pair.0.as_slice(), pair.1.as_slice()))
}

fn copies(alloc: Global, parts: &[Items<u32>]) -> Result<Items<Items<u32>>, AllocError>
    ensures { IfOk result (λ copies. copies ≡ parts.now) }
{
    let mut copies = Items::new(alloc);
    for part in parts {
        let copy = Items::from_slice(alloc, part.as_slice())?;
        copies.push(copy)?;
    }
    Ok(copies)
}
