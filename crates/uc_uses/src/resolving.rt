//! What the mentions in the text of a node lead to.

ghost use Rattle.std.specs.Prelude.{◌≡◌, ◌++◌, [], Some, OnOk};
ghost use Rattle.std.specs.Option.{option_map};
ghost use Rattle.uc_uses.specs.Meant.{meant, mention_meant};
ghost use Rattle.uc_uses.specs.Resolving.{call_number, call_numbers, mention_names, mention_uses, names_among, names_from, read_at, resolved, uses_among, uses_from};
ghost use Rattle.uc_uses.specs.Tables.{number, use_name};
ghost use Rattle.uc_uses.specs.declared.uses.UseKind.TheVariants.{Define};
ghost use Rattle.uc_uses.specs.declared.resolving.Resolved.TheVariants.{Use};

use crate::table::UseTable;
use crate::uses::{UseKind, UseName};
use crate::{InstanceTree, Mentioned, Step};
use std::alloc::{AllocError, Global};
use uc_items::Items;

/// What a mention leads to.
#[derive(Clone, Copy)]
pub enum Resolved {
    /// The use of a number.
    Use(usize),
    /// A name that is read and is no bound input.
    Name(Step),
}

/// What texts use, by numbers, and the names that they read that are no bound inputs.
#[derive(Drop)]
pub struct Found {
    pub uses: Items<usize>,
    pub names: Items<Step>,
}

impl Found {
    /// Nothing yet.
    pub fn new(alloc: Global) -> Found
        ensures uses { result.uses ≡ [] }
        ensures names { result.names ≡ [] }
    {
        Found {
            uses: Items::new(alloc),
            names: Items::new(alloc),
        }
    }

    /// Adds what mentions in the text of a node lead to.
    pub fn add_mentions<'a>(
        &mut self,
        tree: &InstanceTree<'a>,
        table: &UseTable<'a>,
        node: usize,
        mentions: &[Mentioned],
    ) -> Result<(), AllocError>
        ensures uses { OnOk result (self.new.uses ≡ self.old.uses ++ uses_among tree.now table.now node (meant mentions.now)) }
        ensures names { OnOk result (self.new.names ≡ self.old.names ++ names_among tree.now table.now node (meant mentions.now)) }
    {
        for mentioned in mentions {
            self.add_mention(tree, table, node, mentioned)?;
        }
        Ok(())
    }

    fn add_mention<'a>(
        &mut self,
        tree: &InstanceTree<'a>,
        table: &UseTable<'a>,
        node: usize,
        mentioned: &Mentioned,
    ) -> Result<(), AllocError>
        ensures uses { OnOk result (self.new.uses ≡ self.old.uses ++ mention_uses tree.now table.now node (mention_meant mentioned.now)) }
        ensures names { OnOk result (self.new.names ≡ self.old.names ++ mention_names tree.now table.now node (mention_meant mentioned.now)) }
    {
        match table.resolve(tree, node, mentioned) {
            None => Ok(()),
            Some(found) => {
                self.add(found)?;
                Ok(())
            }
        }
    }

    fn add(&mut self, found: Resolved) -> Result<(), AllocError>
        ensures uses { OnOk result (self.new.uses ≡ self.old.uses ++ uses_from (Some found)) }
        ensures names { OnOk result (self.new.names ≡ self.old.names ++ names_from (Some found)) }
    {
        match found {
            Resolved::Use(number) => {
                self.uses.push(number)?;
                Ok(())
            }
            Resolved::Name(step) => {
                self.names.push(step)?;
                Ok(())
            }
        }
    }

    /// Adds the procedures of a node that are called. One that isn't declared has the number past all uses.
    pub fn add_calls<'a>(
        &mut self,
        table: &UseTable<'a>,
        node: usize,
        names: &[u32],
    ) -> Result<(), AllocError>
        ensures uses { OnOk result (self.new.uses ≡ self.old.uses ++ call_numbers table.now node names.now) }
        ensures names { OnOk result (self.new.names ≡ self.old.names) }
    {
        for name in names {
            let number = table.called(node, *name);
            self.uses.push(number)?;
        }
        Ok(())
    }
}

impl<'a> UseTable<'a> {
    /// What a mention in the text of a node leads to. None: a function, or a name in an instance of a module that isn't there.
    pub fn resolve(
        &self,
        tree: &InstanceTree<'a>,
        node: usize,
        mentioned: &Mentioned,
    ) -> Option<Resolved>
        ensures { result ≡ resolved tree.now self.now node (mention_meant mentioned.now) }
    {
        match mentioned {
            Mentioned::Read(name, _, behind) => match tree.led(node, *name, behind.as_slice()) {
                None => None,
                Some(step) => Some(self.read(step)),
            },
            Mentioned::Applied(name) => self.applied(node, *name),
            Mentioned::AtEntry(name) => Some(self.read(Step { node, name: *name })),
        }
    }

    fn read(&self, step: Step) -> Resolved
        ensures { result ≡ read_at self.now step }
    {
        let used = UseName {
            kind: UseKind::Input,
            node: step.node,
            name: step.name,
        };
        match self.number(used) {
            None => Resolved::Name(step),
            Some(number) => Resolved::Use(number),
        }
    }

    fn applied(&self, node: usize, name: u32) -> Option<Resolved>
        ensures { result ≡ option_map Use (number self.now (use_name Define node name)) }
    {
        let used = UseName {
            kind: UseKind::Define,
            node,
            name,
        };
        match self.number(used) {
            None => None,
            Some(number) => Some(Resolved::Use(number)),
        }
    }

    fn called(&self, node: usize, name: u32) -> usize
        ensures { result ≡ call_number self.now node name }
    {
        let used = UseName {
            kind: UseKind::Procedure,
            node,
            name,
        };
        match self.number(used) {
            None => self.uses().len(),
            Some(number) => number,
        }
    }
}
