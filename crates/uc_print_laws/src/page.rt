//! A text that grows word by word.

ghost use Rattle.std.specs.Prelude.{◌≡◌, ◌++◌, ◌∷◌, [], OnOk, codes};
ghost use Rattle.uc_print_laws.specs.Text.{with_word};

use std::alloc::{AllocError, Global};
use std::marker::Model;

/// The bytes of a text.
#[derive(Drop)]
pub struct Page {
    bytes: Vec<u8>,
}

impl Model for Page {
    ghost use Rattle.std.specs.Prelude.{List, ℕ};

    ghost Value = { List ℕ };

    ghost view = { λ p. p.bytes.items };
}

impl Page {
    pub fn new(alloc: Global) -> Page
        ensures { result ≡ [] }
    {
        Page {
            bytes: Vec::new(alloc),
        }
    }

    pub fn into_bytes(self) -> Vec<u8>
        ensures { result.items ≡ self }
    {
        let Page { bytes } = self;
        bytes
    }

    /// Puts bytes as they are.
    pub fn put(&mut self, bytes: &[u8]) -> Result<(), AllocError>
        ensures { OnOk result (self.new ≡ self.old ++ bytes.now) }
    {
        self.bytes.extend_from_slice(bytes)?;
        Ok(())
    }

    /// Puts a word behind a blank.
    #[tactic(auto, unfolding(crate::specs::Text::with_word))]
    pub fn word(&mut self, word: &[u8]) -> Result<(), AllocError>
        ensures { OnOk result (self.new ≡ with_word self.old word.now) }
    {
        self.bytes.push(b' ')?;
        self.bytes.extend_from_slice(word)?;
        Ok(())
    }

    /// Puts a word of three parts behind a blank.
    #[tactic(auto, unfolding(crate::specs::Text::with_word))]
    pub fn word_of(&mut self, first: &[u8], second: &[u8], third: &[u8]) -> Result<(), AllocError>
        ensures { OnOk result (self.new ≡ with_word self.old (first.now ++ (second.now ++ third.now))) }
    {
        self.bytes.push(b' ')?;
        self.bytes.extend_from_slice(first)?;
        self.bytes.extend_from_slice(second)?;
        self.bytes.extend_from_slice(third)?;
        Ok(())
    }
}
