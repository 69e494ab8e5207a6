//! The uses of a node, entered by their names.

ghost use Rattle.std.specs.Prelude.{◌≡◌, ℕ, List, Option, Some, IfOk, OnOk};
ghost use Rattle.uc_meaning.specs.Lookup.{or_else};
ghost use Rattle.uc_uses.specs.Sources.{SourceMeant, bound_source, declared_source, said_bound, said_by, said_in};
ghost use Rattle.uc_uses.specs.Entering.{Enters};
ghost use Rattle.uc_uses.specs.declared.uses.NumberedUse.{NumberedUse};
ghost use Rattle.uc_uses.specs.declared.uses.UseKind.TheVariants.{Define, Procedure, Input};

use crate::uses::{Entry, NumberedUse, Source, UseKind, UseName};
use std::alloc::{AllocError, Global};
use uc_items::Items;
use uc_names::Firsts;
use uc_syntax::{Binding, Decl};

/// The defines or the procedures of a node.
pub(crate) fn declared_uses<'a>(
    alloc: Global,
    kind: UseKind,
    node: usize,
    declarations: &'a [Decl],
    uses: &mut Items<NumberedUse<'a>>,
) -> Result<Firsts<usize>, AllocError>
    ensures { IfOk result (λ t. Enters kind node uses.old (declared_source kind node declarations.now) t uses.new) }
{
    let mut table = Firsts::new(alloc);
    for declaration in declarations {
        let entry = declared_entry(kind, node, declaration);
        enter(kind, node, entry, &mut table, uses)?;
    }
    Ok(table)
}

/// The bound inputs of a node, by the bindings in the node above it.
pub(crate) fn bound_uses<'a>(
    alloc: Global,
    node: usize,
    above: usize,
    inputs: &Firsts<bool>,
    bindings: &'a [Binding],
    uses: &mut Items<NumberedUse<'a>>,
) -> Result<Firsts<usize>, AllocError>
    ensures { IfOk result (λ t. Enters Input node uses.old (bound_source inputs.now above bindings.now) t uses.new) }
{
    let mut table = Firsts::new(alloc);
    for binding in bindings {
        let entry = bound_entry(above, inputs, binding);
        enter(UseKind::Input, node, entry, &mut table, uses)?;
    }
    Ok(table)
}

/// Enters a use of a node, unless there is one of its name.
fn enter<'a>(
    kind: UseKind,
    node: usize,
    entry: Option<Entry<'a>>,
    table: &mut Firsts<usize>,
    uses: &mut Items<NumberedUse<'a>>,
) -> Result<(), AllocError>
    ensures { OnOk result ((before : List NumberedUse) (expect : ℕ → Option SourceMeant) → Enters kind node before expect table.old uses.old → Enters kind node before (λ x. or_else (expect x) (said_by entry.entry x)) table.new uses.new) }
{
    match entry {
        None => Ok(()),
        Some(entry) => {
            enter_one(kind, node, entry, table, uses)?;
            Ok(())
        }
    }
}

fn enter_one<'a>(
    kind: UseKind,
    node: usize,
    entry: Entry<'a>,
    table: &mut Firsts<usize>,
    uses: &mut Items<NumberedUse<'a>>,
) -> Result<(), AllocError>
    ensures { OnOk result ((before : List NumberedUse) (expect : ℕ → Option SourceMeant) → Enters kind node before expect table.old uses.old → Enters kind node before (λ x. or_else (expect x) (said_by (Some entry.entry) x)) table.new uses.new) }
{
    let name = entry.name;
    if table.get(name).is_some() {
        return Ok(());
    }
    let number = uses.len();
    let owner = UseName { kind, node, name };
    uses.push(NumberedUse {
        owner,
        source: entry.source,
    })?;
    table.enter(name, Some(number))?;
    Ok(())
}

/// The define or the procedure that a declaration declares, where it is of the kind.
fn declared_entry<'a>(kind: UseKind, node: usize, declaration: &'a Decl) -> Option<Entry<'a>>
    ensures { (x : ℕ) → said_by result x ≡ said_in kind node x declaration.now }
{
    match kind {
        UseKind::Define => define_entry(node, declaration),
        UseKind::Procedure => procedure_entry(node, declaration),
        UseKind::Input => None,
    }
}

fn define_entry<'a>(node: usize, declaration: &'a Decl) -> Option<Entry<'a>>
    ensures { (x : ℕ) → said_by result x ≡ said_in Define node x declaration.now }
{
    match declaration {
        Decl::Define(_, identifier, _, _, body) => Some(Entry {
            name: identifier.name,
            source: Source::Expression(node, body),
        }),
        _ => None,
    }
}

fn procedure_entry<'a>(node: usize, declaration: &'a Decl) -> Option<Entry<'a>>
    ensures { (x : ℕ) → said_by result x ≡ said_in Procedure node x declaration.now }
{
    match declaration {
        Decl::Procedure(_, procedure) => Some(Entry {
            name: procedure.identifier.name,
            source: Source::Procedure(node, procedure),
        }),
        _ => None,
    }
}

/// What a binding binds, where it is an input of the node.
fn bound_entry<'a>(above: usize, inputs: &Firsts<bool>, binding: &'a Binding) -> Option<Entry<'a>>
    ensures { (x : ℕ) → said_by result x ≡ said_bound inputs.now above x binding.now }
{
    match inputs.get(binding.identifier.name) {
        Some(true) => Some(Entry {
            name: binding.identifier.name,
            source: Source::Expression(above, &binding.expression),
        }),
        _ => None,
    }
}
