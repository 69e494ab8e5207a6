//! How many labels the enums of a design have.

ghost use Rattle.std.specs.Prelude.{◌≡◌, ◌++◌, map, length, slice_index_or, IfOk, OnOk};
ghost use Rattle.std.specs.List.{flat_map};
ghost use Rattle.uc_declared_types.specs.Counts.{counts_in, written_counts};

use std::alloc::{AllocError, Global};
use uc_items::Items;
use uc_syntax::Module;
use uc_type_names::{WrittenEnum, enums_of};

/// How many labels each enum of some modules has, in the order of the text.
#[tactic(auto, using(uc_syntax::proofs::Added::added_begin, uc_syntax::proofs::Added::added_more, uc_syntax::proofs::Added::added_end))]
pub(crate) fn label_counts(alloc: Global, modules: &[Module]) -> Result<Items<usize>, AllocError>
    ensures { IfOk result (λ ns. ns ≡ flat_map counts_in modules.now) }
{
    let mut counts = Items::new(alloc);
    for module in modules {
        add_module_counts(alloc, module, &mut counts)?;
    }
    Ok(counts)
}

#[tactic(auto, using(crate::proofs::Labelled::module_counts))]
fn add_module_counts(
    alloc: Global,
    whole: &Module,
    counts: &mut Items<usize>,
) -> Result<(), AllocError>
    ensures { OnOk result (counts.new ≡ counts.old ++ counts_in whole.now) }
{
    let enums = enums_of(alloc, whole)?;
    add_counts(enums.as_slice(), counts)?;
    Ok(())
}

fn add_counts(enums: &[WrittenEnum<'_>], counts: &mut Items<usize>) -> Result<(), AllocError>
    ensures { OnOk result (counts.new ≡ counts.old ++ written_counts enums.now) }
{
    for written in enums {
        counts.push(written.labels.len())?;
    }
    Ok(())
}

/// The number at a place, and 0 past them.
pub(crate) fn number_at(numbers: &Items<usize>, place: usize) -> usize
    ensures { result ≡ slice_index_or numbers.now place 0 }
{
    match numbers.get(place) {
        Some(number) => *number,
        None => 0,
    }
}
