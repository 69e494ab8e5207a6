//! The types that are known of aliases.

ghost use Rattle.std.specs.Prelude.{◌≡◌, None, IfOk, OnOk};
ghost use Rattle.std.specs.Option.{is_some};
ghost use Rattle.uc_names.specs.declared.senses.DeclaredType.{DeclaredType};
ghost use Rattle.uc_declared_types.specs.Aliases.{type_at, with_type};

use indexmap::IndexMap;
use std::alloc::{AllocError, Global};
use uc_names::DeclaredType;
use uc_values::{Ty, copy_ty};

/// The type of each alias that was read, by where it is declared.
#[derive(Drop)]
pub(crate) struct AliasTypes {
    types: IndexMap<DeclaredType, Ty>,
}

impl AliasTypes {
    /// No alias is known.
    pub(crate) fn new(alloc: Global) -> AliasTypes
        ensures { (d : DeclaredType) → type_at result d ≡ None }
    {
        AliasTypes {
            types: IndexMap::new(alloc),
        }
    }

    /// The type of an alias, where it is known.
    pub(crate) fn get(
        &self,
        alloc: Global,
        declared: DeclaredType,
    ) -> Result<Option<Ty>, AllocError>
        ensures { IfOk result (λ t. t ≡ type_at self.now declared) }
    {
        match self.types.get(&declared) {
            None => Ok(None),
            Some(ty) => {
                let ty = copy_ty(alloc, ty)?;
                Ok(Some(ty))
            }
        }
    }

    /// Whether the type of an alias is known.
    pub(crate) fn is_known(&self, declared: DeclaredType) -> bool
        ensures { result ≡ is_some (type_at self.now declared) }
    {
        self.types.get(&declared).is_some()
    }

    /// Enters the type of an alias.
    pub(crate) fn enter(&mut self, declared: DeclaredType, ty: Ty) -> Result<(), AllocError>
        ensures { OnOk result ((d : DeclaredType) → type_at self.new d ≡ with_type declared ty d (type_at self.old d)) }
    {
        self.types.insert(declared, ty)?;
        Ok(())
    }
}
