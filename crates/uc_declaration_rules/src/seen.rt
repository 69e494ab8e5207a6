//! The names that were seen, each with its first entry.

ghost use Rattle.std.specs.Prelude.{◌≡◌, ◌++◌, ◌∷◌, [], List, OnOk};
ghost use Rattle.std.specs.Option.{option_map};
ghost use Rattle.std.specs.List.{find};
ghost use Rattle.uc_syntax.specs.declared.declaration.Module.{Module};
ghost use Rattle.uc_rules.specs.Names.{Entry as Meant, is_entry};
ghost use Rattle.uc_names.specs.Senses.{entry_meant};
ghost use Rattle.uc_declaration_rules.specs.Seen.{HasSeen};

use std::alloc::{AllocError, Global};
use uc_names::{Entry, Firsts};

/// The first entry of each name that was seen.
#[derive(Drop)]
pub(crate) struct SeenNames<'a> {
    entries: Firsts<Entry<'a>>,
}

impl<'a> SeenNames<'a> {
    /// No names.
    pub(crate) fn new(alloc: Global) -> SeenNames<'a>
        ensures { (ms : List Module) → HasSeen ms result [] }
    {
        SeenNames {
            entries: Firsts::new(alloc),
        }
    }

    /// The first entry of a name.
    pub(crate) fn first(&self, name: u32) -> Option<Entry<'a>>
        ensures { (ms : List Module) (es : List Meant) → HasSeen ms self.now es → option_map (entry_meant ms) result ≡ find (is_entry name) es }
    {
        self.entries.get(name)
    }

    /// Adds an entry behind those that were seen.
    pub(crate) fn add(&mut self, entry: Entry<'a>) -> Result<(), AllocError>
        ensures { OnOk result ((ms : List Module) (es : List Meant) → HasSeen ms self.old es → HasSeen ms self.new (es ++ entry_meant ms entry.entry ∷ [])) }
    {
        self.entries.enter(entry.identifier.name, Some(entry))?;
        Ok(())
    }
}
