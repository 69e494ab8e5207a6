//! Names that are declared again.

ghost use Rattle.std.specs.Prelude.{◌≡◌, ◌||◌, OnOk};
ghost use Rattle.uc_rules.specs.Faults.{breaks_where, first_of};
ghost use Rattle.uc_rules.specs.declared.rule.Rule.TheVariants.{DuplicateName};
ghost use Rattle.uc_rules.specs.Names.{names_one_of, repeated_in};
ghost use Rattle.uc_type_names.specs.NameSets.{with_all, with_name};

use crate::name_set::NameSet;
use std::alloc::AllocError;
use uc_rules::{Fault, Rule, note_where};
use uc_syntax::Identifier;

/// Notes each name of a list that is taken, or that an earlier one has: one that was seen, or one of the list. They are all seen then.
/// After want of memory some of them are.
#[tactic(auto, using(crate::proofs::Repeats::repeated_begin, crate::proofs::Repeats::repeated_more, crate::proofs::Repeats::repeated_end, crate::proofs::Repeats::repeated_all))]
pub fn note_repeated(
    taken: &NameSet,
    seen: &mut NameSet,
    identifiers: &[Identifier],
    first: &mut Option<Fault>,
) -> Result<(), AllocError>
    ensures faults { OnOk result (first.new ≡ first_of first.old (repeated_in (names_one_of taken.now) seen.old identifiers.now)) }
    ensures seen { OnOk result (seen.new ≡ with_all seen.old identifiers.now) }
{
    for identifier in identifiers {
        enter(taken, seen, *identifier, first)?;
    }
    Ok(())
}

/// Notes a name that is taken or was seen, and adds it to those that were seen.
fn enter(
    taken: &NameSet,
    seen: &mut NameSet,
    identifier: Identifier,
    first: &mut Option<Fault>,
) -> Result<(), AllocError>
    ensures faults { OnOk result (first.new ≡ first_of first.old (breaks_where (names_one_of taken.now identifier.name || names_one_of seen.old identifier.name) DuplicateName identifier.place)) }
    ensures seen { OnOk result (seen.new ≡ with_name seen.old identifier.name) }
{
    let is_repeated = taken.contains(identifier.name) || seen.contains(identifier.name);
    note_where(first, is_repeated, Rule::DuplicateName, identifier.place);
    seen.insert(identifier.name)?;
    Ok(())
}
