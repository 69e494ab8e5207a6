//! The aliases that a design declares.

ghost use Rattle.std.specs.Prelude.{OnOk, IfOk};
ghost use Rattle.uc_declared_types.specs.AliasLaw.{IsAmong};
ghost use Rattle.uc_declared_types.specs.Aliases.{HasAlias, HasAliases, IsAliasDeclaration, IsKept};

use std::alloc::{AllocError, Global};
use uc_items::Items;
use uc_names::{DeclaredType, TypeHomes};
use uc_syntax::Decl;

/// The aliases that the first so many modules of a design declare.
pub(crate) fn aliases_of(
    alloc: Global,
    homes: &TypeHomes<'_>,
    count: usize,
) -> Result<Items<DeclaredType>, AllocError>
    ensures { IfOk result (λ ds. HasAliases homes.now count ds) }
{
    let mut listed = Items::new(alloc);
    for home in 0..count {
        add_aliases(homes, home, &mut listed)?;
    }
    Ok(listed)
}

/// Adds the aliases that the module at a place declares.
fn add_aliases(
    homes: &TypeHomes<'_>,
    home: usize,
    listed: &mut Items<DeclaredType>,
) -> Result<(), AllocError>
    ensures kept { OnOk result (IsKept listed.old listed.new) }
    ensures there { OnOk result (HasAlias homes.now home listed.new) }
{
    let declarations = homes.design().declarations_of(home);
    for (declaration, declared) in declarations.iter().enumerate() {
        add_alias(DeclaredType { home, declaration }, declared, listed)?;
    }
    Ok(())
}

/// Adds a declared type, where it is an alias.
fn add_alias(
    declared: DeclaredType,
    declaration: &Decl,
    listed: &mut Items<DeclaredType>,
) -> Result<(), AllocError>
    ensures kept { OnOk result (IsKept listed.old listed.new) }
    ensures there { OnOk result (IsAliasDeclaration declaration.now → IsAmong declared listed.new) }
{
    match declaration {
        Decl::TypeAlias(_, _, _) => {
            listed.push(declared)?;
            Ok(())
        }
        _ => Ok(()),
    }
}
