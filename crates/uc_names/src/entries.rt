//! The names of a module, in the order of the text.

ghost use Rattle.std.specs.Prelude.{◌≡◌, ◌++◌, List, Some, map, slice_get, IfOk, OnOk};
ghost use Rattle.std.specs.Option.{option_map};
ghost use Rattle.uc_syntax.specs.declared.declaration.Module.{Module};
ghost use Rattle.uc_meaning.specs.Cells.{as_list};
ghost use Rattle.uc_meaning.specs.Lookup.{System, module_named};
ghost use Rattle.uc_rules.specs.Names.{enters, formula_name, labels_brought, names_in, names_of, types_brought, SenseVariable};
ghost use Rattle.uc_names.specs.Senses.{entries_meant, entry_meant, module_in};
ghost use Rattle.uc_names.specs.Tables.{Holds};
ghost use Rattle.uc_names.specs.Entries.{names_by, own_names};

use crate::design::DesignNames;
use crate::labels::{add_brought, add_types_labels, push};
use crate::types::add_types_at;
use crate::{DeclaredType, Entry, NameTable, Sense};
use std::alloc::{AllocError, Global};
use uc_items::Items;
use uc_lookup::{Defined, InstanceParts, Signature, Variable};
use uc_syntax::{Decl, Identifier, Place};
use uc_type_names::types_in;

/// Adds the names of variables, inputs, outputs or constants.
fn add_variables<'a>(
    variable: Variable<'a>,
    identifiers: &[Identifier],
    entries: &mut Items<Entry<'a>>,
) -> Result<(), AllocError>
    ensures { OnOk result ((ms : List Module) → entries_meant ms entries.new ≡ entries_meant ms entries.old ++ map (λ i. enters i (SenseVariable variable.entry.kind variable.entry.ty.now)) identifiers.now) }
{
    for identifier in identifiers {
        let entry = Entry {
            identifier: *identifier,
            sense: Sense::Variable(variable),
        };
        push(entry, entries)?;
    }
    Ok(())
}

/// The entry of a formula, if it has a name.
fn formula_entry<'a>(identifier: Option<Identifier>) -> Option<Entry<'a>>
    ensures { (ms : List Module) → as_list (option_map (entry_meant ms) result) ≡ formula_name identifier }
{
    match identifier {
        None => None,
        Some(identifier) => {
            let sense = Sense::Formula;
            Some(Entry { identifier, sense })
        }
    }
}

/// The entry of the name that a declaration has, if it has one.
fn own_entry<'a>(declared: DeclaredType, declaration: &'a Decl) -> Option<Entry<'a>>
    ensures { (s : System) → slice_get (module_in s.modules declared.home).decls declared.declaration ≡ Some declaration.now → as_list (option_map (entry_meant s.modules) result) ≡ own_names s (module_in s.modules declared.home) declaration.now }
{
    match declaration {
        Decl::OpaqueType(_, identifier) => Some(Entry {
            identifier: *identifier,
            sense: Sense::Declared(declared),
        }),
        Decl::TypeAlias(_, identifier, _) => Some(Entry {
            identifier: *identifier,
            sense: Sense::Declared(declared),
        }),
        Decl::Function(_, identifier, parameters, ty) => {
            let parameters = parameters.as_slice();
            Some(Entry {
                identifier: *identifier,
                sense: Sense::Function(Signature { parameters, ty }),
            })
        }
        Decl::Define(_, identifier, parameters, ty, body) => {
            let parameters = parameters.as_slice();
            let defined = Defined {
                parameters,
                ty,
                body,
            };
            Some(Entry {
                identifier: *identifier,
                sense: Sense::Define(defined),
            })
        }
        Decl::Procedure(_, procedure) => Some(Entry {
            identifier: procedure.identifier,
            sense: Sense::Procedure(procedure),
        }),
        Decl::Instance(_, identifier, other, bindings) => {
            let bindings = bindings.as_slice();
            let instance = InstanceParts {
                name: identifier.name,
                module_name: other.name,
                bindings,
            };
            Some(Entry {
                identifier: *identifier,
                sense: Sense::Instance(instance),
            })
        }
        Decl::Invariant(_, identifier, _) => formula_entry(Some(*identifier)),
        Decl::Axiom(_, identifier, _) => formula_entry(*identifier),
        Decl::Hyperinvariant(_, _, identifier, _) => formula_entry(Some(*identifier)),
        Decl::Hyperaxiom(_, _, identifier, _) => formula_entry(Some(*identifier)),
        Decl::TypeImport(..) => None,
        Decl::Variables(..) => None,
        Decl::Init(..) => None,
        Decl::Next(..) => None,
        Decl::Control(..) => None,
    }
}

/// Adds the name that a declaration has, if it has one.
fn add_own<'a>(
    declared: DeclaredType,
    declaration: &'a Decl,
    entries: &mut Items<Entry<'a>>,
) -> Result<(), AllocError>
    ensures { OnOk result ((s : System) → slice_get (module_in s.modules declared.home).decls declared.declaration ≡ Some declaration.now → entries_meant s.modules entries.new ≡ entries_meant s.modules entries.old ++ own_names s (module_in s.modules declared.home) declaration.now) }
{
    match own_entry(declared, declaration) {
        None => Ok(()),
        Some(entry) => push(entry, entries),
    }
}

/// Adds the types and the labels that a module brings in from another one.
fn add_import<'a>(
    alloc: Global,
    design: &DesignNames<'a>,
    at: Place,
    other: u32,
    entries: &mut Items<Entry<'a>>,
) -> Result<(), AllocError>
    ensures { OnOk result (entries_meant design.now.modules entries.new ≡ entries_meant design.now.modules entries.old ++ (types_brought at (module_named design.now other) ++ labels_brought design.now at (module_named design.now other))) }
{
    let number = design.module_named(other);
    add_types_at(design, at, number, entries)?;
    add_brought(alloc, design, at, number, entries)?;
    Ok(())
}

/// Adds the names that a declaration begins with.
fn add_names<'a>(
    alloc: Global,
    design: &DesignNames<'a>,
    declared: DeclaredType,
    declaration: &'a Decl,
    entries: &mut Items<Entry<'a>>,
) -> Result<(), AllocError>
    requires { slice_get (module_in design.now.modules declared.home).decls declared.declaration ≡ Some declaration.now }
    ensures { OnOk result (entries_meant design.now.modules entries.new ≡ entries_meant design.now.modules entries.old ++ names_of design.now (module_in design.now.modules declared.home) declaration.now) }
{
    match declaration {
        Decl::TypeImport(place, other) => add_import(alloc, design, *place, other.name, entries),
        Decl::Variables(_, kind, identifiers, ty) => {
            let variable = Variable { kind: *kind, ty };
            add_variables(variable, identifiers.as_slice(), entries)
        }
        _ => add_own(declared, declaration, entries),
    }
}

/// Adds the names that a declaration begins with, and then the labels of the types that it writes.
fn add_declaration<'a>(
    alloc: Global,
    design: &DesignNames<'a>,
    declared: DeclaredType,
    declaration: &'a Decl,
    entries: &mut Items<Entry<'a>>,
) -> Result<(), AllocError>
    requires { slice_get (module_in design.now.modules declared.home).decls declared.declaration ≡ Some declaration.now }
    ensures { OnOk result (entries_meant design.now.modules entries.new ≡ entries_meant design.now.modules entries.old ++ names_by design.now (module_in design.now.modules declared.home) declaration.now) }
{
    add_names(alloc, design, declared, declaration, entries)?;
    let types = types_in(alloc, declaration)?;
    add_types_labels(alloc, design, types.as_slice(), entries)?;
    Ok(())
}

/// The names of the module at a place among the modules of a design, in the order of the text.
#[tactic(auto, using(uc_syntax::proofs::Added::added_begin, uc_syntax::proofs::Added::added_more, crate::proofs::Forms::names_end))]
pub fn entries_of<'a>(
    alloc: Global,
    design: &DesignNames<'a>,
    home: usize,
) -> Result<Items<Entry<'a>>, AllocError>
    ensures { IfOk result (λ es. entries_meant design.now.modules es ≡ names_in design.now (module_in design.now.modules home)) }
{
    let mut entries = Items::new(alloc);
    let declarations = design.declarations_of(home);
    for (declaration, declared) in declarations.iter().enumerate() {
        let ty = DeclaredType { home, declaration };
        add_declaration(alloc, design, ty, declared, &mut entries)?;
    }
    Ok(entries)
}

/// The table of the names of the module at a place.
pub fn table_of<'a>(
    alloc: Global,
    design: &DesignNames<'a>,
    home: usize,
) -> Result<NameTable<'a>, AllocError>
    ensures { IfOk result (λ t. Holds design.now.modules t (names_in design.now (module_in design.now.modules home))) }
{
    let entries = entries_of(alloc, design, home)?;
    NameTable::of(alloc, entries.as_slice())
}
