//! Sets of parts, and of pairs of parts.

ghost use Rattle.std.specs.Prelude.{◌≡◌, ◌++◌, ◌∷◌, [], map, OnOk};
ghost use Rattle.uc_order_rules.specs.Pairs.{cross, SameThings};

use indexmap::IndexSet;
use std::alloc::{AllocError, Global};
use std::marker::Model;
use uc_items::Items;

/// Parts, each once, in the order in which they came.
#[derive(Drop)]
pub struct PartSet {
    parts: IndexSet<Items<u32>>,
}

impl Model for PartSet {
    ghost use Rattle.std.specs.Prelude.{List, ℕ};

    ghost Value = { List (List ℕ) };

    ghost view = { λ s. s.parts.keys };
}

impl PartSet {
    pub fn new(alloc: Global) -> PartSet
        ensures { result ≡ [] }
    {
        PartSet {
            parts: IndexSet::new(alloc),
        }
    }

    pub fn as_slice(&self) -> &[Items<u32>]
        ensures { result.now ≡ self.now }
    {
        self.parts.as_slice()
    }

    /// Adds a part, unless it is there.
    #[tactic(auto, using(crate::proofs::Growing::part_added))]
    pub fn add(&mut self, part: Items<u32>) -> Result<(), AllocError>
        ensures { OnOk result (SameThings self.new (self.old ++ part ∷ [])) }
    {
        self.parts.insert(part)?;
        Ok(())
    }

    /// Adds copies of parts.
    pub fn add_copies(&mut self, alloc: Global, parts: &[Items<u32>]) -> Result<(), AllocError>
        ensures { OnOk result (SameThings self.new (self.old ++ parts.now)) }
    {
        for part in parts {
            let copy = Items::from_slice(alloc, part.as_slice())?;
            self.add(copy)?;
        }
        Ok(())
    }
}

/// Pairs of parts, the earlier before the later, each pair once.
#[derive(Drop)]
pub struct PairSet {
    pairs: IndexSet<(Items<u32>, Items<u32>)>,
}

impl Model for PairSet {
    ghost use Rattle.std.specs.Prelude.{List, ℕ};

    ghost Value = { List (List ℕ × List ℕ) };

    ghost view = { λ s. s.pairs.keys };
}

impl PairSet {
    pub fn new(alloc: Global) -> PairSet
        ensures { result ≡ [] }
    {
        PairSet {
            pairs: IndexSet::new(alloc),
        }
    }

    pub fn as_slice(&self) -> &[(Items<u32>, Items<u32>)]
        ensures { result.now ≡ self.now }
    {
        self.pairs.as_slice()
    }

    /// Adds a pair, unless it is there.
    pub fn add(&mut self, earlier: Items<u32>, later: Items<u32>) -> Result<(), AllocError>
        ensures { OnOk result (SameThings self.new (self.old ++ (earlier, later) ∷ [])) }
    {
        self.pairs.insert((earlier, later))?;
        Ok(())
    }

    fn add_copy(&mut self, alloc: Global, earlier: &[u32], later: &[u32]) -> Result<(), AllocError>
        ensures { OnOk result (SameThings self.new (self.old ++ (earlier.now, later.now) ∷ [])) }
    {
        let earlier = Items::from_slice(alloc, earlier)?;
        let later = Items::from_slice(alloc, later)?;
        self.add(earlier, later)?;
        Ok(())
    }

    /// Adds copies of pairs.
    pub fn add_copies(
        &mut self,
        alloc: Global,
        pairs: &[(Items<u32>, Items<u32>)],
    ) -> Result<(), AllocError>
        ensures { OnOk result (SameThings self.new (self.old ++ pairs.now)) }
    {
        for pair in pairs {
            self.add_copy(alloc, pair.0.as_slice(), pair.1.as_slice())?;
        }
        Ok(())
    }

    /// Adds one part with each of some later ones.
    fn add_row(
        &mut self,
        alloc: Global,
        earlier: &[u32],
        later: &[Items<u32>],
    ) -> Result<(), AllocError>
        ensures { OnOk result (SameThings self.new (self.old ++ map (λ q. (earlier.now, q)) later.now)) }
    {
        for part in later {
            self.add_copy(alloc, earlier, part.as_slice())?;
        }
        Ok(())
    }

    /// Adds each of some parts with each of some later ones.
    pub fn add_cross(
        &mut self,
        alloc: Global,
        earlier: &[Items<u32>],
        later: &[Items<u32>],
    ) -> Result<(), AllocError>
        ensures { OnOk result (SameThings self.new (self.old ++ cross earlier.now later.now)) }
    {
        for part in earlier {
            self.add_row(alloc, part.as_slice(), later)?;
        }
        Ok(())
    }
}
