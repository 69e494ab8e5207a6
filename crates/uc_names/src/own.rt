//! The types that a module itself declares.

ghost use Rattle.std.specs.Prelude.{◌≡◌, ℕ, Some, nat_eq, IfOk, OnOk};
ghost use Rattle.std.specs.Option.{option_map};
ghost use Rattle.indexmap.specs.IndexMap.{get};
ghost use Rattle.uc_meaning.specs.Lookup.{or_else};
ghost use Rattle.uc_rules.specs.Names.{only_if, type_of_module};
ghost use Rattle.uc_names.specs.Senses.{declared_meant, module_in};
ghost use Rattle.uc_names.specs.OwnTypes.{is_name, name_of_type};

use crate::{DeclaredType, DesignNames, Firsts};
use std::alloc::{AllocError, Global};
use uc_syntax::Decl;

/// The types that the module at a place declares, by their names: the first of each.
pub(crate) fn own_types(
    alloc: Global,
    design: &DesignNames<'_>,
    home: usize,
) -> Result<Firsts<DeclaredType>, AllocError>
    ensures { IfOk result (λ t. (x : ℕ) → option_map (declared_meant design.now.modules) (get nat_eq t.things x) ≡ type_of_module (module_in design.now.modules home) x) }
{
    let mut table = Firsts::new(alloc);
    let declarations = design.declarations_of(home);
    for (declaration, declared) in declarations.iter().enumerate() {
        let name = name_of_type(declared);
        enter(&mut table, name, DeclaredType { home, declaration })?;
    }
    Ok(table)
}

/// Enters a type under its name, if it has one.
#[tactic(auto, using(crate::proofs::OwnDeclared::kept))]
fn enter(
    table: &mut Firsts<DeclaredType>,
    name: Option<u32>,
    declared: DeclaredType,
) -> Result<(), AllocError>
    ensures { OnOk result ((x : ℕ) → get nat_eq table.new.things x ≡ or_else (get nat_eq table.old.things x) (only_if (is_name x name) (Some declared))) }
{
    match name {
        None => Ok(()),
        Some(name) => {
            table.enter(name, Some(declared))?;
            Ok(())
        }
    }
}

/// The name of the type that a declaration declares, if it does.
fn name_of_type(declaration: &Decl) -> Option<u32>
    ensures { result ≡ name_of_type declaration.now }
{
    match declaration {
        Decl::TypeAlias(_, identifier, _) => Some(identifier.name),
        Decl::OpaqueType(_, identifier) => Some(identifier.name),
        _ => None,
    }
}
