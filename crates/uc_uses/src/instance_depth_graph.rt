//! The modules of a design as a graph: a module leads to the modules of its instances.

ghost use Rattle.std.specs.Prelude.{◌≡◌, ◌++◌, ℕ, List, [], slice_index_or, IfOk, OnOk};
ghost use Rattle.std.specs.Option.{option_map};
ghost use Rattle.uc_meaning.specs.Lookup.{instance_in};
ghost use Rattle.uc_uses.specs.Graph.{AreNodes, IsNode, names_by, names_in, steps_of};

use std::alloc::{AllocError, Global};
use uc_items::Items;
use uc_names::DesignNames;
use uc_syntax::Decl;

/// The node of a module's name: its place among the modules, and the number of all modules where there is no such one.
#[tactic(auto, using(crate::proofs::Nodes::node_found, crate::proofs::Nodes::node_away))]
pub(crate) fn node_of(design: &DesignNames, name: u32) -> usize
    ensures { IsNode design.now name result }
{
    match design.module_named(name) {
        Some(place) => place,
        None => design.system().modules.len(),
    }
}

/// For each module the nodes of the modules of its instances.
pub(crate) fn instance_graph(
    alloc: Global,
    design: &DesignNames,
) -> Result<Items<Items<usize>>, AllocError>
    ensures { IfOk result (λ graph. (k : ℕ) → AreNodes design.now (slice_index_or graph k []) (steps_of design.now k)) }
{
    let mut graph = Items::new(alloc);
    for place in 0..design.system().modules.len() {
        let nodes = nodes_in(alloc, design, design.declarations_of(place))?;
        graph.push(nodes)?;
    }
    Ok(graph)
}

/// The nodes of the modules of the instances that are declared.
fn nodes_in(
    alloc: Global,
    design: &DesignNames,
    declarations: &[Decl],
) -> Result<Items<usize>, AllocError>
    ensures { IfOk result (λ nodes. AreNodes design.now nodes (names_in declarations.now)) }
{
    let mut nodes = Items::new(alloc);
    for declaration in declarations {
        add_node(design, declaration, &mut nodes)?;
    }
    Ok(nodes)
}

fn add_node(
    design: &DesignNames,
    declaration: &Decl,
    nodes: &mut Items<usize>,
) -> Result<(), AllocError>
    ensures { OnOk result ((names : List ℕ) → AreNodes design.now nodes.old names → AreNodes design.now nodes.new (names ++ names_by declaration.now)) }
{
    match instance_module(declaration) {
        Some(name) => {
            let node = node_of(design, name);
            nodes.push(node)?;
            Ok(())
        }
        None => Ok(()),
    }
}

/// The name of the module of which a declaration makes an instance.
fn instance_module(declaration: &Decl) -> Option<u32>
    ensures { result ≡ option_map (λ i. i.module_name) (instance_in declaration.now) }
{
    match declaration {
        Decl::Instance(_, _, module, _) => Some(module.name),
        _ => None,
    }
}
