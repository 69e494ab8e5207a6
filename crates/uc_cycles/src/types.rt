//! Types by their names, with a number each.

ghost use Rattle.std.specs.Prelude.{◌≡◌, ◌++◌, ◌∷◌, [], None, length, OnOk};
ghost use Rattle.uc_cycles.specs.Numbers.{EntersType, KnowsTypes, type_number, with_place};
ghost use Rattle.uc_cycles.specs.declared.types.TypeKey.{TypeKey as KeyParts};

use indexmap::IndexMap;
use std::alloc::{AllocError, Global};
use uc_items::Items;

/// A type by the names of the module that declares it and its own.
#[derive(Clone, Copy, Debug, PartialEq, Eq, Hash)]
pub(crate) struct TypeKey {
    pub(crate) owner: u32,
    pub(crate) name: u32,
}

/// Types, each with its place among them.
#[derive(Drop)]
pub(crate) struct TypeNumbers {
    numbers: IndexMap<TypeKey, usize>,
    keys: Items<TypeKey>,
}

impl TypeNumbers {
    /// No types.
    pub(crate) fn new(alloc: Global) -> TypeNumbers
        ensures { (k : KeyParts) → type_number result k ≡ None }
    {
        TypeNumbers {
            numbers: IndexMap::new(alloc),
            keys: Items::new(alloc),
        }
    }

    /// The place of a type.
    pub(crate) fn get(&self, key: TypeKey) -> Option<usize>
        ensures { result ≡ type_number self.now key }
    {
        self.numbers.get(&key).copied()
    }

    /// The types in their order.
    pub(crate) fn keys(&self) -> &[TypeKey]
        ensures { result.now ≡ self.now.keys }
    {
        self.keys.as_slice()
    }

    /// Adds a type, where it is new.
    pub(crate) fn enter(&mut self, key: TypeKey) -> Result<(), AllocError>
        ensures { OnOk result (KnowsTypes self.old → EntersType key self.old self.new) }
    {
        match self.get(key) {
            Some(_) => Ok(()),
            None => {
                self.enter_new(key)?;
                Ok(())
            }
        }
    }

    fn enter_new(&mut self, key: TypeKey) -> Result<(), AllocError>
        ensures numbers { OnOk result ((k : KeyParts) → type_number self.new k ≡ with_place key (length self.old.keys) k (type_number self.old k)) }
        ensures keys { OnOk result (self.new.keys ≡ self.old.keys ++ key ∷ []) }
    {
        self.numbers.insert(key, self.keys.len())?;
        self.keys.push(key)?;
        Ok(())
    }
}
