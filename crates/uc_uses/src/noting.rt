//! The places of uses that have a flag.

ghost use Rattle.std.specs.Prelude.{◌≡◌};
ghost use Rattle.std.specs.List.{flat_map};
ghost use Rattle.uc_rules.specs.Faults.{first_of};
ghost use Rattle.uc_uses.specs.Trees.{instance_at, joined};
ghost use Rattle.uc_uses.specs.Tables.{use_name};
ghost use Rattle.uc_uses.specs.Noted.{is_flagged, noted, noted_all, noted_binding, noted_bindings};

use crate::root::{RootUses, flag_at};
use crate::{UseKind, UseName};
use uc_items::Items;
use uc_rules::{Fault, Rule, note_where};
use uc_syntax::{Binding, Decl};

/// Notes the uses that have a flag, in all nodes.
pub(crate) fn note_flagged(root: &RootUses<'_>, flags: &Items<bool>, first: &mut Option<Fault>)
    ensures { first.new ≡ first_of first.old (noted_all root.now.tree root.now.table flags.now) }
{
    for (node, found) in root.tree.nodes().iter().enumerate() {
        note_declarations(root, flags, node, found.code.decls.as_slice(), first);
    }
}

fn note_declarations(
    root: &RootUses<'_>,
    flags: &Items<bool>,
    node: usize,
    declarations: &[Decl],
    first: &mut Option<Fault>,
)
    ensures { first.new ≡ first_of first.old (flat_map (noted root.now.tree root.now.table flags.now node) declarations.now) }
{
    for declaration in declarations {
        note_declaration(root, flags, node, declaration, first);
    }
}

fn note_declaration(
    root: &RootUses<'_>,
    flags: &Items<bool>,
    node: usize,
    declaration: &Decl,
    first: &mut Option<Fault>,
)
    ensures { first.new ≡ first_of first.old (noted root.now.tree root.now.table flags.now node declaration.now) }
{
    match declaration {
        Decl::Define(place, identifier, _, _, _) => {
            let found = is_flagged(root, flags, UseKind::Define, node, identifier.name);
            note_where(first, found, Rule::Cycle, *place);
        }
        Decl::Procedure(place, procedure) => {
            let name = procedure.identifier.name;
            let found = is_flagged(root, flags, UseKind::Procedure, node, name);
            note_where(first, found, Rule::Cycle, *place);
        }
        Decl::Instance(_, identifier, _, bindings) => {
            let below = node_below(root, node, identifier.name);
            note_instance(root, flags, below, bindings.as_slice(), first);
        }
        _ => {}
    }
}

/// The node of an instance.
fn node_below(root: &RootUses<'_>, node: usize, name: u32) -> Option<usize>
    ensures { result ≡ joined (instance_at root.now.tree node name) }
{
    match root.tree.instance(node, name) {
        None => None,
        Some(below) => below,
    }
}

fn note_instance(
    root: &RootUses<'_>,
    flags: &Items<bool>,
    below: Option<usize>,
    bindings: &[Binding],
    first: &mut Option<Fault>,
)
    ensures { first.new ≡ first_of first.old (noted_bindings root.now.table flags.now below bindings.now) }
{
    match below {
        None => {}
        Some(below) => note_bindings(root, flags, below, bindings, first),
    }
}

fn note_bindings(
    root: &RootUses<'_>,
    flags: &Items<bool>,
    below: usize,
    bindings: &[Binding],
    first: &mut Option<Fault>,
)
    ensures { first.new ≡ first_of first.old (flat_map (noted_binding root.now.table flags.now below) bindings.now) }
{
    for binding in bindings {
        let name = binding.identifier.name;
        let found = is_flagged(root, flags, UseKind::Input, below, name);
        note_where(first, found, Rule::Cycle, binding.identifier.place);
    }
}

/// Whether a use of a node has a flag.
fn is_flagged(
    root: &RootUses<'_>,
    flags: &Items<bool>,
    kind: UseKind,
    node: usize,
    name: u32,
) -> bool
    ensures { result ≡ is_flagged root.now.table flags.now (use_name kind node name) }
{
    match root.table.number(UseName { kind, node, name }) {
        None => false,
        Some(number) => flag_at(flags, number),
    }
}
