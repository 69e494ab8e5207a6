//! Numbers, the least of which is taken first.

ghost use Rattle.std.specs.Prelude.{◌≡◌, ◌∷◌, [], ℕ, ◌<◌, ◌||◌, true, nat_eq, IfOk, MatchOption, OnOk};
ghost use Rattle.uc_graph.specs.Order.{has};

use std::alloc::{AllocError, Global};
use std::collections::BTreeSet;
use std::marker::Model;

/// Numbers in ascending order.
#[derive(Drop)]
pub(crate) struct Ready {
    numbers: BTreeSet<usize>,
}

impl Model for Ready {
    ghost use Rattle.std.specs.Prelude.{List, ℕ};

    ghost Value = { List ℕ };

    ghost view = { λ r. r.numbers.keys };
}

impl Ready {
    /// All numbers below a bound.
    pub(crate) fn below(alloc: Global, bound: usize) -> Result<Ready, AllocError>
        ensures { IfOk result (λ r. (n : ℕ) → n < bound → has r n ≡ true) }
    {
        let mut ready = Ready {
            numbers: BTreeSet::new(alloc),
        };
        for number in 0..bound {
            ready.add(number)?;
        }
        Ok(ready)
    }

    pub(crate) fn add(&mut self, number: usize) -> Result<(), AllocError>
        ensures { OnOk result ((n : ℕ) → has self.new n ≡ (nat_eq n number || has self.old n)) }
    {
        self.numbers.insert(number)?;
        Ok(())
    }

    /// Takes the least.
    pub(crate) fn take_first(&mut self) -> Option<usize>
        ensures { MatchOption result (self.old ≡ []) (λ least. (self.old ≡ least ∷ self.new) × ((n : ℕ) → has self.new n ≡ true → least < n)) }
    {
        self.numbers.pop_first()
    }
}
