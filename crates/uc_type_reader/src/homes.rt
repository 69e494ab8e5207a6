//! The module in which a type's name is declared, and what it says there.

ghost use Rattle.std.specs.Prelude.{◌≡◌, is_some};
ghost use Rattle.std.specs.Option.{option_copied, option_map};
ghost use Rattle.uc_meaning.specs.Lookup.{first_some};
ghost use Rattle.uc_meaning.specs.Types.{type_in, type_entry, home_of_type};
ghost use Rattle.uc_lookup.specs.Parts.{system_in};
ghost use Rattle.uc_type_reader.specs.Reading.{entry_meant, if_declares, imported_home};

use uc_lookup::SystemRef;
use uc_syntax::{Decl, Module, TypeExpr};

/// What a type's name says in a module: an alias, or a type without a definition.
#[derive(Clone, Copy)]
pub enum TypeEntry<'a> {
    Alias(&'a TypeExpr),
    Opaque,
}

/// The type of a name in the module that declares it.
pub fn type_entry(decls: &[Decl], name: u32) -> Option<TypeEntry<'_>>
    ensures { option_map entry_meant result ≡ first_some (type_in name) decls.now }
{
    for decl in decls {
        if let Some(found) = type_in(decl, name) {
            return Some(found);
        }
    }
    None
}

fn type_in(decl: &Decl, name: u32) -> Option<TypeEntry<'_>>
    ensures { option_map entry_meant result ≡ type_in name decl.now }
{
    match decl {
        Decl::TypeAlias(_, identifier, ty) => {
            if identifier.name == name {
                Some(TypeEntry::Alias(ty))
            } else {
                None
            }
        }
        Decl::OpaqueType(_, identifier) => {
            if identifier.name == name {
                Some(TypeEntry::Opaque)
            } else {
                None
            }
        }
        _ => None,
    }
}

/// The module in which a type's name is declared: the module itself, else one that it imports.
#[tactic(auto, using(crate::proofs::Imports::home_is))]
pub fn home_of_type<'a>(system: &SystemRef<'a>, code: &'a Module, name: u32) -> Option<&'a Module>
    ensures { option_copied result ≡ home_of_type (system_in system.now) code.now name }
{
    match declaring(code, name) {
        Some(home) => Some(home),
        None => first_import(system, code.decls.as_slice(), name),
    }
}

/// The first imported module that declares a type of the name.
fn first_import<'a>(system: &SystemRef<'a>, decls: &[Decl], name: u32) -> Option<&'a Module>
    ensures { option_copied result ≡ first_some (imported_home (system_in system.now) name) decls.now }
{
    for decl in decls {
        if let Some(found) = imported_home(system, decl, name) {
            return Some(found);
        }
    }
    None
}

fn imported_home<'a>(system: &SystemRef<'a>, decl: &Decl, name: u32) -> Option<&'a Module>
    ensures { option_copied result ≡ imported_home (system_in system.now) name decl.now }
{
    match decl {
        Decl::TypeImport(_, module) => match system.module_named(module.name) {
            Some(home) => declaring(home, name),
            None => None,
        },
        _ => None,
    }
}

/// The module, where it declares a type of the name.
fn declaring(code: &Module, name: u32) -> Option<&Module>
    ensures { option_copied result ≡ option_map (λ entry. code.now) (type_entry code.now name) }
{
    match type_entry(code.decls.as_slice(), name) {
        Some(_) => Some(code),
        None => None,
    }
}
