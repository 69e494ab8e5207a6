//! Numbers, the greatest of which is taken first.

ghost use Rattle.std.specs.Prelude.{◌≡◌, ◌∷◌, ◌++◌, [], ◌<◌, All, MatchOption, OnOk};
ghost use Rattle.uc_compose.specs.Below.{Joins};

use std::alloc::{AllocError, Global};
use std::collections::BTreeSet;
use std::marker::Model;
use uc_terms::TermId;

/// Numbers of terms, in ascending order.
#[derive(Drop)]
pub(crate) struct Waiting {
    numbers: BTreeSet<u32>,
}

impl Model for Waiting {
    ghost use Rattle.std.specs.Prelude.{List, ℕ};

    ghost Value = { List ℕ };

    ghost view = { λ w. w.numbers.keys };
}

impl Waiting {
    /// No number.
    pub(crate) fn new(alloc: Global) -> Waiting
        ensures { result ≡ [] }
    {
        Waiting {
            numbers: BTreeSet::new(alloc),
        }
    }

    pub(crate) fn add(&mut self, number: u32) -> Result<(), AllocError>
        ensures { OnOk result (Joins self.old (number ∷ []) self.new) }
    {
        self.numbers.insert(number)?;
        Ok(())
    }

    /// Takes the greatest.
    pub(crate) fn take_greatest(&mut self) -> Option<u32>
        ensures { MatchOption result (self.old ≡ []) (λ greatest. (self.old ≡ self.new ++ greatest ∷ []) × All (λ n. n < greatest) self.new) }
    {
        self.numbers.pop_last()
    }
}

/// Adds the numbers of these terms.
pub(crate) fn add_all(waiting: &mut Waiting, terms: &[TermId]) -> Result<(), AllocError>
    ensures { OnOk result (Joins waiting.old terms.now waiting.new) }
{
    for term in terms {
        waiting.add(term.number())?;
    }
    Ok(())
}
