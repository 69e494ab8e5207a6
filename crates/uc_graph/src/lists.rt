//! Lists of numbers by their place.

ghost use Rattle.std.specs.Prelude.{◌≡◌, ◌++◌, ◌∷◌, [], ◌<◌, length, slice_get, slice_index_or, slice_set, replicate, IfOk, OnErr, OnOk};
ghost use Rattle.std.specs.Option.{option_copied};

use std::alloc::{AllocError, Global};
use std::marker::Model;
use uc_items::Items;

/// Lists of numbers, by their place.
#[derive(Drop)]
pub struct Lists {
    lists: Vec<Items<usize>>,
}

impl Model for Lists {
    ghost use Rattle.std.specs.Prelude.{List, ℕ};

    ghost Value = { List (List ℕ) };

    ghost view = { λ l. l.lists.items };
}

impl Lists {
    /// So many empty lists.
    pub fn new(alloc: Global, count: usize) -> Result<Lists, AllocError>
        ensures { IfOk result (λ l. l ≡ replicate count []) }
    {
        let mut lists = Vec::new(alloc);
        for _ in 0..count {
            lists.push(Items::new(alloc))?;
        }
        Ok(Lists { lists })
    }

    /// The list at a place, and the empty one past them.
    pub fn list(&self, place: usize) -> &[usize]
        ensures { result.now ≡ slice_index_or self.now place [] }
    {
        match self.get(place) {
            Some(list) => list.as_slice(),
            None => &[],
        }
    }

    /// The lists in order.
    pub fn as_slice(&self) -> &[Items<usize>]
        ensures { result.now ≡ self.now }
    {
        self.lists.as_slice()
    }

    fn get(&self, place: usize) -> Option<&Items<usize>>
        ensures { option_copied result ≡ slice_get self.now place }
    {
        self.lists.get(place)
    }

    /// Adds a number at the end of the list at a place, and nothing past the lists.
    pub fn add(&mut self, place: usize, number: usize) -> Result<(), AllocError>
        ensures ok { OnOk result (self.new ≡ slice_set self.old place (slice_index_or self.old place [] ++ number ∷ [])) }
        ensures err { OnErr result (self.new ≡ self.old) }
    {
        if place < self.lists.len() {
            self.push(place, number)?;
        }
        Ok(())
    }

    fn push(&mut self, place: usize, number: usize) -> Result<(), AllocError>
        requires { place < length self.old }
        ensures ok { OnOk result (self.new ≡ slice_set self.old place (slice_index_or self.old place [] ++ number ∷ [])) }
        ensures err { OnErr result (self.new ≡ self.old) }
    {
        self.lists[place].push(number)
    }
}
