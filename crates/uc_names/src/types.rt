//! The types of a module that another one brings in.

ghost use Rattle.std.specs.Prelude.{◌≡◌, ◌++◌, List, Some, slice_get, OnOk};
ghost use Rattle.std.specs.Option.{option_map};
ghost use Rattle.uc_syntax.specs.declared.declaration.Module.{Module};
ghost use Rattle.uc_rules.specs.Names.{type_brought, types_brought};
ghost use Rattle.uc_names.specs.Senses.{entries_meant, module_in};

use crate::design::DesignNames;
use crate::labels::push;
use crate::{DeclaredType, Entry, Sense};
use std::alloc::AllocError;
use uc_items::Items;
use uc_syntax::{Decl, Identifier, Place};

/// Adds the type that a declaration declares, if it does, as it is brought in at a place.
#[tactic(auto, using(uc_syntax::proofs::Added::append_nil))]
fn add_type_at<'a>(
    at: Place,
    declared: DeclaredType,
    declaration: &Decl,
    entries: &mut Items<Entry<'a>>,
) -> Result<(), AllocError>
    ensures { OnOk result ((ms : List Module) → slice_get (module_in ms declared.home).decls declared.declaration ≡ Some declaration.now → entries_meant ms entries.new ≡ entries_meant ms entries.old ++ type_brought at (module_in ms declared.home) declaration.now) }
{
    let sense = Sense::Declared(declared);
    match declaration {
        Decl::OpaqueType(_, identifier) => {
            let identifier = Identifier {
                place: at,
                name: identifier.name,
            };
            push(Entry { identifier, sense }, entries)?;
            Ok(())
        }
        Decl::TypeAlias(_, identifier, _) => {
            let identifier = Identifier {
                place: at,
                name: identifier.name,
            };
            push(Entry { identifier, sense }, entries)?;
            Ok(())
        }
        _ => Ok(()),
    }
}

/// Adds the types that a module declares, if there is one, as they are brought in at a place.
#[tactic(auto, using(uc_syntax::proofs::Added::append_nil))]
pub(crate) fn add_types_at<'a>(
    design: &DesignNames<'a>,
    at: Place,
    other: Option<usize>,
    entries: &mut Items<Entry<'a>>,
) -> Result<(), AllocError>
    ensures { OnOk result (entries_meant design.now.modules entries.new ≡ entries_meant design.now.modules entries.old ++ types_brought at (option_map (module_in design.now.modules) other)) }
{
    match other {
        None => Ok(()),
        Some(number) => {
            add_module_types(design, at, number, entries)?;
            Ok(())
        }
    }
}

/// Adds the types that the module at a place declares, if there is one.
#[tactic(auto, using(uc_syntax::proofs::Added::added_begin, uc_syntax::proofs::Added::added_more, uc_syntax::proofs::Added::added_end))]
fn add_module_types<'a>(
    design: &DesignNames<'a>,
    at: Place,
    home: usize,
    entries: &mut Items<Entry<'a>>,
) -> Result<(), AllocError>
    ensures { OnOk result (entries_meant design.now.modules entries.new ≡ entries_meant design.now.modules entries.old ++ types_brought at (Some (module_in design.now.modules home))) }
{
    let declarations = design.declarations_of(home);
    for (declaration, declared) in declarations.iter().enumerate() {
        let ty = DeclaredType { home, declaration };
        add_type_at(at, ty, declared, entries)?;
    }
    Ok(())
}
