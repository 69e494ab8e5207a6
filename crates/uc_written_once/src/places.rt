//! Numbers by paths of names.

ghost use Rattle.std.specs.Prelude.{◌≡◌, ◌&&◌, ℕ, List, None, Some, if◌then◌else◌, not, nat_eq, OnErr, OnOk};
ghost use Rattle.std.specs.Cmp.Lexicographic.{pointwise};
ghost use Rattle.uc_written_once.specs.Places.{place_of};

use indexmap::IndexMap;
use std::alloc::{AllocError, Global};

/// A number for each of some paths.
#[derive(Drop)]
pub(crate) struct PathPlaces {
    places: IndexMap<Vec<u32>, usize>,
}

impl PathPlaces {
    pub(crate) fn new(alloc: Global) -> PathPlaces
        ensures { (q : List ℕ) → place_of result q ≡ None }
    {
        PathPlaces {
            places: IndexMap::new(alloc),
        }
    }

    pub(crate) fn get(&self, path: &[u32]) -> Option<usize>
        ensures { result ≡ place_of self.now path.now }
    {
        self.places.get(path).copied()
    }

    /// Gives a path its number, unless it is known.
    pub(crate) fn enter(
        &mut self,
        alloc: Global,
        path: &[u32],
        is_known: bool,
        place: usize,
    ) -> Result<(), AllocError>
        ensures ok { OnOk result ((q : List ℕ) → place_of self.new q ≡ (if not is_known && pointwise nat_eq path.now q then Some place else place_of self.old q)) }
        ensures err { OnErr result ((q : List ℕ) → place_of self.new q ≡ place_of self.old q) }
    {
        if is_known {
            return Ok(());
        }
        let key = Vec::from_slice(alloc, path)?;
        self.places.insert(key, place)?;
        Ok(())
    }
}
