//! The places of modules by their names.

ghost use Rattle.std.specs.Prelude.{◌≡◌, ℕ, IfOk};
ghost use Rattle.uc_module_writes.specs.Places.{place_by, place_named};

use std::alloc::{AllocError, Global};
use uc_names::Firsts;
use uc_syntax::Module;

/// For each name the place of the first module of the name.
#[derive(Drop)]
pub struct ModulePlaces {
    places: Firsts<usize>,
}

impl ModulePlaces {
    pub(crate) fn of(alloc: Global, modules: &[Module]) -> Result<ModulePlaces, AllocError>
        ensures { IfOk result (λ t. (x : ℕ) → place_by t x ≡ place_named modules.now x) }
    {
        let mut places = Firsts::new(alloc);
        for (place, module) in modules.iter().enumerate() {
            places.enter(module.name, Some(place))?;
        }
        Ok(ModulePlaces { places })
    }

    pub(crate) fn get(&self, name: u32) -> Option<usize>
        ensures { result ≡ place_by self.now name }
    {
        self.places.get(name)
    }
}
