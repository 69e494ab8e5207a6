//! The names of the enclosing scopes.

ghost use Rattle.std.specs.Prelude.{◌≡◌, ◌-◌, ◌∷◌, [], drop, length, map, nat_eq, reverse, OnErr, OnOk};
ghost use Rattle.std.specs.List.{find};
ghost use Rattle.uc_rules.specs.Names.{names_one_of};
ghost use Rattle.std.specs.Option.{option_copied};

use std::alloc::{AllocError, Global};
use std::marker::Model;
use uc_items::Items;
use uc_rules::Known;

/// The names of the enclosing scopes, the innermost first.
#[derive(Drop)]
pub struct Locals {
    /// The innermost last.
    known: Items<Known>,
}

impl Model for Locals {
    ghost use Rattle.std.specs.Prelude.{List, reverse};
    ghost use Rattle.uc_rules.specs.declared.known.Known.{Known as KnownName};
    ghost use Rattle.std.specs.Coded.{codes};
    ghost use Rattle.uc_values.specs.contracts.ty.Ty as values;

    ghost Value = { List KnownName };

    ghost coded = { Prim.hlevel (codes, values.the_row.coded) };

    ghost view = { λ l. reverse l.known };
}

impl Locals {
    /// No names.
    pub fn new(alloc: Global) -> Locals
        ensures { result ≡ [] }
    {
        Locals {
            known: Items::new(alloc),
        }
    }

    /// What the innermost name is of those that are the same.
    pub fn named(&self, name: u32) -> Option<&Known>
        ensures { option_copied result ≡ find (λ k. nat_eq k.name name) self.now }
    {
        let known = self.known.as_slice();
        let count = known.len();
        for behind in 0..count {
            if known[count - 1 - behind].name == name {
                return Some(&known[count - 1 - behind]);
            }
        }
        None
    }

    /// Whether there is such a name.
    pub fn has(&self, name: u32) -> bool
        ensures { result ≡ names_one_of (map (λ k. k.name) self.now) name }
    {
        self.named(name).is_some()
    }

    /// How many names there are.
    pub fn len(&self) -> usize
        ensures { result ≡ length self.now }
    {
        self.known.len()
    }

    /// Drops the innermost names, until at most so many are left.
    pub fn truncate(&mut self, count: usize)
        ensures { self.new ≡ drop (length self.old - count) self.old }
    {
        let surplus = self.known.len().saturating_sub(count);
        drop_last(&mut self.known, surplus);
    }

    /// Adds a name of a new innermost scope.
    pub fn push(&mut self, known: Known) -> Result<(), AllocError>
        ensures ok { OnOk result (self.new ≡ known ∷ self.old) }
        ensures err { OnErr result (self.new ≡ self.old) }
    {
        self.known.push(known)?;
        Ok(())
    }
}

/// Drops so many of the last names.
fn drop_last(known: &mut Items<Known>, count: usize)
    ensures { reverse known.new ≡ drop count (reverse known.old) }
{
    for _turn in 0..count {
        known.pop();
    }
}
