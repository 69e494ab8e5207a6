//! The names of a module that are declared again.

ghost use Rattle.std.specs.Prelude.{◌≡◌, ◌++◌, ◌∷◌, [], List, OnOk};
ghost use Rattle.uc_rules.specs.Declarations.{control_place, init_place, naming_faults, next_place, repeated_block};
ghost use Rattle.uc_rules.specs.Faults.{first_of};
ghost use Rattle.uc_rules.specs.Names.{Entry as Meant, repeated_names};
ghost use Rattle.uc_names.specs.Senses.{entries_meant, entry_meant, module_in};
ghost use Rattle.uc_declaration_rules.specs.Seen.{HasSeen, is_repeated, name_faults};

use crate::labels::is_taken;
use crate::seen::SeenNames;
use std::alloc::{AllocError, Global};
use uc_names::{DesignNames, Entry, entries_of};
use uc_read_names::is_bit_function;
use uc_rules::{Fault, Rule, note_where};
use uc_type_names::{Block, note_repeated_block};

/// Notes each name of the module at a place that an earlier one of it has, or a function on bits, and each second block of a kind: at
/// the later place.
pub fn note_names(
    alloc: Global,
    design: &DesignNames<'_>,
    home: usize,
    first: &mut Option<Fault>,
) -> Result<(), AllocError>
    ensures { OnOk result (first.new ≡ first_of first.old (naming_faults design.now (module_in design.now.modules home))) }
{
    let entries = entries_of(alloc, design, home)?;
    note_entries(alloc, design, entries.as_slice(), first)?;
    note_blocks(design, home, first);
    Ok(())
}

/// Notes each name of a list that an earlier one has, or a function on bits.
fn note_entries(
    alloc: Global,
    design: &DesignNames<'_>,
    entries: &[Entry<'_>],
    first: &mut Option<Fault>,
) -> Result<(), AllocError>
    ensures { OnOk result (first.new ≡ first_of first.old (repeated_names design.now [] (entries_meant design.now.modules entries.now))) }
{
    let mut seen = SeenNames::new(alloc);
    for entry in entries {
        note_entry(design, &mut seen, *entry, first)?;
    }
    Ok(())
}

/// Notes a name that was seen, or that a function on bits has, and adds it to those that were seen.
fn note_entry<'a>(
    design: &DesignNames<'_>,
    seen: &mut SeenNames<'a>,
    entry: Entry<'a>,
    first: &mut Option<Fault>,
) -> Result<(), AllocError>
    ensures faults { OnOk result ((es : List Meant) → HasSeen design.now.modules seen.old es → first.new ≡ first_of first.old (name_faults design.now es (entry_meant design.now.modules entry.entry))) }
    ensures seen { OnOk result ((es : List Meant) → HasSeen design.now.modules seen.old es → HasSeen design.now.modules seen.new (es ++ entry_meant design.now.modules entry.entry ∷ [])) }
{
    let place = entry.identifier.place;
    let is_repeated = is_repeated(design, seen, entry);
    note_where(first, is_repeated, Rule::DuplicateName, place);
    seen.add(entry)?;
    Ok(())
}

/// Whether a name was seen, or is that of a function on bits.
fn is_repeated<'a>(design: &DesignNames<'_>, seen: &SeenNames<'a>, entry: Entry<'a>) -> bool
    ensures { (es : List Meant) → HasSeen design.now.modules seen.now es → result ≡ is_repeated design.now es (entry_meant design.now.modules entry.entry) }
{
    let name = entry.identifier.name;
    if is_bit_function(design.system().names, name) {
        return true;
    }
    is_taken(entry, seen.first(name))
}

/// Notes each second block of a kind of the module at a place.
fn note_blocks(design: &DesignNames<'_>, home: usize, first: &mut Option<Fault>)
    ensures { let m = module_in design.now.modules home in first.new ≡ first_of first.old (repeated_block init_place m ++ (repeated_block next_place m ++ repeated_block control_place m)) }
{
    match design.module_at(home) {
        None => {}
        Some(whole) => {
            note_repeated_block(Block::Init, whole, first);
            note_repeated_block(Block::Next, whole, first);
            note_repeated_block(Block::Control, whole, first);
        }
    }
}
