//! The modules of a design as a graph: a module needs the modules of its instances.

ghost use Rattle.std.specs.Prelude.{◌≡◌, ◌++◌, map, IfOk, OnOk};
ghost use Rattle.std.specs.List.{flat_map};
ghost use Rattle.uc_meaning.specs.Cells.{as_list};
ghost use Rattle.uc_module_writes.specs.Places.{place_in, places_in};

use crate::places::ModulePlaces;
use std::alloc::{AllocError, Global};
use uc_items::Items;
use uc_syntax::{Decl, Module};

/// For each module the places of the modules of its instances.
pub(crate) fn instance_graph(
    alloc: Global,
    places: &ModulePlaces,
    modules: &[Module],
) -> Result<Items<Items<usize>>, AllocError>
    ensures { IfOk result (λ graph. graph ≡ map (λ m. places_in places.now m.decls) modules.now) }
{
    let mut graph = Items::new(alloc);
    for module in modules {
        let nodes = nodes_in(alloc, places, module.decls.as_slice())?;
        graph.push(nodes)?;
    }
    Ok(graph)
}

#[tactic(auto, using(uc_syntax::proofs::Added::added_begin, uc_syntax::proofs::Added::added_more, uc_syntax::proofs::Added::added_end))]
fn nodes_in(
    alloc: Global,
    places: &ModulePlaces,
    declarations: &[Decl],
) -> Result<Items<usize>, AllocError>
    ensures { IfOk result (λ nodes. nodes ≡ places_in places.now declarations.now) }
{
    let mut nodes = Items::new(alloc);
    for declaration in declarations {
        add_node(places, declaration, &mut nodes)?;
    }
    Ok(nodes)
}

fn add_node(
    places: &ModulePlaces,
    declaration: &Decl,
    nodes: &mut Items<usize>,
) -> Result<(), AllocError>
    ensures { OnOk result (nodes.new ≡ nodes.old ++ as_list (place_in places.now declaration.now)) }
{
    match module_place(places, declaration) {
        None => Ok(()),
        Some(place) => {
            nodes.push(place)?;
            Ok(())
        }
    }
}

/// The place of the module of which a declaration makes an instance.
fn module_place(places: &ModulePlaces, declaration: &Decl) -> Option<usize>
    ensures { result ≡ place_in places.now declaration.now }
{
    match declaration {
        Decl::Instance(_, _, module, _) => places.get(module.name),
        _ => None,
    }
}
