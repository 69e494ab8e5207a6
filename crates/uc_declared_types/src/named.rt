//! What the names of types stand for.

ghost use Rattle.std.specs.Prelude.{◌≡◌, IfOk, OnOk};
ghost use Rattle.std.specs.Option.{option_copied, option_map};
ghost use Rattle.uc_names.specs.Senses.{declared_meant, entry_at, module_in};
ghost use Rattle.std.specs.Prelude.{Some};
ghost use Rattle.uc_rules.specs.Faults.{first_of};
ghost use Rattle.uc_rules.specs.Outcomes.{faults_in, type_in};
ghost use Rattle.uc_rules.specs.Types.{Aliases, entry_outcome, entry_type};
ghost use Rattle.uc_declared_types.specs.Aliases.{Agrees, Related, Side, alias_written, entry_of};

use crate::aliases::AliasTypes;
use std::alloc::{AllocError, Global};
use uc_items::at;
use uc_names::{DeclaredType, TypeHomes};
use uc_rules::{Fault, Rule, note};
use uc_syntax::{Decl, Place, TypeExpr};
use uc_values::Ty;

/// The type that an alias writes, where the declared type is an alias.
pub(crate) fn alias_written<'a>(
    homes: &TypeHomes<'a>,
    declared: DeclaredType,
) -> Option<&'a TypeExpr>
    ensures { option_copied result ≡ alias_written (entry_of homes.now declared) }
{
    let declarations = homes.design().declarations_of(declared.home);
    match at(declarations, declared.declaration) {
        None => None,
        Some(declaration) => written_by(declaration),
    }
}

fn written_by(declaration: &Decl) -> Option<&TypeExpr>
    ensures { option_copied result ≡ alias_written (entry_at (Some declaration.now)) }
{
    match declaration {
        Decl::TypeAlias(_, _, ty) => Some(ty),
        _ => None,
    }
}

/// What is known of the type that a name stands for.
fn declared_type(
    alloc: Global,
    homes: &TypeHomes<'_>,
    aliases: &AliasTypes,
    declared: DeclaredType,
    name: u32,
) -> Result<Option<Ty>, AllocError>
    ensures { IfOk result (λ t. (side : Side) (alias : Aliases) → Agrees side homes.now aliases.now alias → Related side t (type_in (entry_type homes.now alias name (module_in homes.now.modules declared.home) (entry_of homes.now declared)))) }
{
    match alias_written(homes, declared) {
        Some(_) => {
            let ty = aliases.get(alloc, declared)?;
            Ok(ty)
        }
        None => {
            let number = word(homes.opaque_number(declared.home, name))?;
            Ok(Some(Ty::Un(number)))
        }
    }
}

/// What is known of the type that a name stands for. A name that stands for none is noted.
pub(crate) fn note_named(
    alloc: Global,
    homes: &TypeHomes<'_>,
    aliases: &AliasTypes,
    place: Place,
    name: u32,
    declared: Option<DeclaredType>,
    first: &mut Option<Fault>,
) -> Result<Option<Ty>, AllocError>
    ensures ty { IfOk result (λ t. (side : Side) (alias : Aliases) → Agrees side homes.now aliases.now alias → Related side t (type_in (entry_outcome homes.now alias name (option_map (declared_meant homes.now.modules) declared)))) }
    ensures faults { OnOk result ((alias : Aliases) → first.new ≡ first_of first.old (faults_in place (entry_outcome homes.now alias name (option_map (declared_meant homes.now.modules) declared)))) }
{
    match declared {
        None => {
            note(first, Rule::UnknownName, place);
            Ok(None)
        }
        Some(declared) => {
            let ty = declared_type(alloc, homes, aliases, declared, name)?;
            Ok(ty)
        }
    }
}

/// A number that fits a `u32`.
pub(crate) fn word(number: usize) -> Result<u32, AllocError>
    ensures { IfOk result (λ n. n ≡ number) }
{
    match u32::try_from(number) {
        Ok(number) => Ok(number),
        Err(_) => Err(AllocError),
    }
}
