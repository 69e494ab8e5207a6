//! The names of a design, and their numbers.

ghost use Rattle.std.specs.Prelude.{◌≡◌, ◌<◌, false, [], length, slice_get, Some, IsTrue, IsOk, IfOk, OnOk, OnErr};
ghost use Rattle.uc_syntax.specs.Numbering.{has_text, number_of, with_text, AreDistinct, KeepNumbers};

use indexmap::IndexSet;
use std::alloc::{AllocError, Global};
use std::marker::Model;

/// The texts of names. Each has one number: its place in the order in which the texts came.
pub struct Names {
    texts: IndexSet<Vec<u8>>,
}

impl Model for Names {
    ghost use Rattle.std.specs.Prelude.{List, ℕ, map, length, ◌≤◌, ◌^◌};

    ghost Value = { List (List ℕ) };

    ghost view = { λ n. map (λ t. t.items) n.texts.keys };

    ghost invariant = { λ n. length n.texts.keys ≤ 2 ^ 32 };
}

impl Names {
    /// No names.
    pub fn new(alloc: Global) -> Names
        ensures { result ≡ [] }
    {
        Names {
            texts: IndexSet::new(alloc),
        }
    }

    /// The number of a text, which is added where it is new. A known text takes no memory. An `Err` is want of memory, or of
    /// numbers where 2^32 names are there.
    pub fn intern(&mut self, alloc: Global, text: &[u8]) -> Result<u32, AllocError>
        ensures number { IfOk result (λ n. n ≡ number_of self.old text.now) }
        ensures names { OnOk result (self.new ≡ with_text self.old text.now) }
        ensures text { IfOk result (λ n. slice_get self.new n ≡ Some text.now) }
        ensures kept { KeepNumbers self.old self.new }
        ensures known { IsTrue (has_text self.old text.now) → IsOk result }
        ensures err { OnErr result (self.new ≡ self.old) }
    {
        if let Some(number) = self.texts.get_index_of(text) {
            return Ok(number as u32);
        }
        self.add(alloc, text)
    }

    // Gives a new text its number.
    fn add(&mut self, alloc: Global, text: &[u8]) -> Result<u32, AllocError>
        requires { has_text self.old text.now ≡ false }
        ensures number { IfOk result (λ n. n ≡ number_of self.old text.now) }
        ensures names { OnOk result (self.new ≡ with_text self.old text.now) }
        ensures text { IfOk result (λ n. slice_get self.new n ≡ Some text.now) }
        ensures err { OnErr result (self.new ≡ self.old) }
    {
        let Ok(number) = u32::try_from(self.texts.len()) else {
            return Err(AllocError);
        };
        let text = Vec::from_slice(alloc, text)?;
        self.texts.insert(text)?;
        Ok(number)
    }

    /// The same names again, with the same numbers.
    pub fn copy(&self, alloc: Global) -> Result<Names, AllocError>
        ensures { IfOk result (λ n. n ≡ self.now) }
    {
        let texts = self.texts.as_slice();
        let mut copy = Names::new(alloc);
        for text in texts {
            copy.intern(alloc, text.as_slice())?;
        }
        Ok(copy)
    }

    /// The text of a name.
    pub fn text(&self, number: u32) -> &[u8]
        requires { number < length self.now }
        ensures { slice_get self.now number ≡ Some result.now }
    {
        self.texts.as_slice()[number as usize].as_slice()
    }

    /// The number of names.
    pub fn len(&self) -> usize
        ensures count { result ≡ length self.now }
        ensures distinct { AreDistinct self.now }
    {
        self.texts.len()
    }
}

impl Drop for Names {
    fn drop(self) {
        let Names { texts } = self;
        drop(texts);
    }
}
