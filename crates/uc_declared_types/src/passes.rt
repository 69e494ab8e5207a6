//! Reading aliases until no more become known.

ghost use Rattle.std.specs.Prelude.{◌≡◌, ◌⊎◌, ◌≤◌, length, nat_eq, IfOk, OnOk};
ghost use Rattle.uc_declared_types.specs.AliasLaw.{IsAmong};
ghost use Rattle.uc_names.specs.declared.senses.DeclaredType.{DeclaredType};
ghost use Rattle.uc_declared_types.specs.Aliases.{Agrees, Below, IsSettled, IsStuck, IsTaken, KeepsKnown, KnowsAliases, read_to_end};

use crate::aliases::AliasTypes;
use crate::named::alias_written;
use crate::reading::note_type;
use std::alloc::{AllocError, Global};
use uc_items::Items;
use uc_names::{DeclaredType, TypeHomes};

/// Reads an alias, where it isn't known and what it rests on is. One that stays unknown is kept for later.
fn read_alias(
    alloc: Global,
    homes: &TypeHomes<'_>,
    aliases: &mut AliasTypes,
    declared: DeclaredType,
    rest: &mut Items<DeclaredType>,
) -> Result<(), AllocError>
    ensures below { OnOk result (Agrees Below homes.now aliases.old (read_to_end homes.now) → Agrees Below homes.now aliases.new (read_to_end homes.now)) }
    ensures kept { OnOk result (KeepsKnown aliases.old aliases.new) }
    ensures taken { OnOk result (IsTaken homes.now declared aliases.old aliases.new rest.old rest.new) }
{
    if aliases.is_known(declared) {
        return Ok(());
    }
    match alias_written(homes, declared) {
        None => Ok(()),
        Some(ty) => {
            let mut unnoted = None;
            let found = note_type(alloc, homes, aliases, declared.home, ty, &mut unnoted)?;
            match found {
                None => {
                    rest.push(declared)?;
                    Ok(())
                }
                Some(found) => {
                    aliases.enter(declared, found)?;
                    Ok(())
                }
            }
        }
    }
}

/// Reads each alias of a list, where what it rests on is known, and gives those that stay unknown.
pub(crate) fn read_aliases(
    alloc: Global,
    homes: &TypeHomes<'_>,
    aliases: &mut AliasTypes,
    pending: &[DeclaredType],
) -> Result<Items<DeclaredType>, AllocError>
    ensures below { OnOk result (Agrees Below homes.now aliases.old (read_to_end homes.now) → Agrees Below homes.now aliases.new (read_to_end homes.now)) }
    ensures kept { OnOk result (KeepsKnown aliases.old aliases.new) }
    ensures settled { IfOk result (λ rest. (d : DeclaredType) → IsAmong d pending.now → IsSettled homes.now aliases.new d ⊎ IsAmong d rest) }
    ensures fewer { IfOk result (λ rest. length rest ≤ length pending.now) }
    ensures stuck { IfOk result (λ rest. length rest ≡ length pending.now → (d : DeclaredType) → IsAmong d rest → IsStuck homes.now aliases.new d) }
{
    let mut rest = Items::new(alloc);
    for declared in pending {
        read_alias(alloc, homes, aliases, *declared, &mut rest)?;
    }
    Ok(rest)
}

/// Reads the aliases of a list until no more become known.
pub(crate) fn read_all(
    alloc: Global,
    homes: &TypeHomes<'_>,
    aliases: &mut AliasTypes,
    declared: Items<DeclaredType>,
) -> Result<(), AllocError>
    ensures { OnOk result (Agrees Below homes.now aliases.old (read_to_end homes.now) → ((d : DeclaredType) → IsSettled homes.now aliases.old d ⊎ IsAmong d declared) → KnowsAliases homes.now aliases.new) }
{
    let mut pending = declared;
    'passes: while pending.len() > 0 {
        let rest = read_aliases(alloc, homes, aliases, pending.as_slice())?;
        let are_stuck = are_as_many(&rest, &pending);
        if are_stuck {
            return Ok(());
        }
        pending = rest;
    }
    Ok(())
}

fn are_as_many(rest: &Items<DeclaredType>, pending: &Items<DeclaredType>) -> bool
    ensures { result ≡ nat_eq (length rest.now) (length pending.now) }
{
    rest.len() == pending.len()
}
