//! How a tree of instances is made: each node gets its instances, and with them the nodes behind it.

ghost use Rattle.std.specs.Prelude.{◌≡◌, ◌++◌, ◌∷◌, [], ℕ, List, Some, slice_get, IfOk, OnOk};
ghost use Rattle.std.specs.Option.{option_map};
ghost use Rattle.uc_syntax.specs.declared.declaration.Decl.{Decl};
ghost use Rattle.uc_meaning.specs.Lookup.{System, instance_in};
ghost use Rattle.uc_lookup.specs.Parts.{instance_parts};
ghost use Rattle.uc_order_rules.specs.Roots.{rooted};
ghost use Rattle.uc_uses.specs.Modules.{KnowsModules};
ghost use Rattle.uc_uses.specs.Trees.{IsTree};
ghost use Rattle.uc_uses.specs.Growing.{Adds, Grows, IsRootAlone};
ghost use Rattle.uc_uses.specs.declared.tree.Node.{Node};

use crate::modules::ModuleTable;
use crate::tree::{InstanceTree, Node, Step};
use std::alloc::{AllocError, Global};
use uc_items::Items;
use uc_lookup::InstanceParts;
use uc_names::Firsts;
use uc_syntax::{Decl, Module};

/// The tree of a root.
pub fn instance_tree<'a>(
    alloc: Global,
    modules: &ModuleTable<'a>,
    root: &'a Module,
) -> Result<InstanceTree<'a>, AllocError>
    ensures { IfOk result (λ t. (s : System) (k : ℕ) → KnowsModules s.modules modules.now → slice_get s.modules k ≡ Some root.now → IsTree (rooted s k) t) }
{
    let mut tree = root_alone(alloc, root)?;
    for node in 0..usize::MAX {
        match code_at(&tree, node) {
            None => return Ok(tree),
            Some(code) => grow(alloc, modules, node, code.decls.as_slice(), &mut tree)?,
        }
    }
    let _count = tree.nodes.len();
    Ok(tree)
}

fn root_alone<'a>(alloc: Global, root: &'a Module) -> Result<InstanceTree<'a>, AllocError>
    ensures { IfOk result (λ t. IsRootAlone root.now t) }
{
    let mut nodes = Items::new(alloc);
    nodes.push(Node {
        code: root,
        above: None,
        bindings: &[],
    })?;
    let instances = Items::new(alloc);
    Ok(InstanceTree { nodes, instances })
}

/// The module at a node.
fn code_at<'a>(tree: &InstanceTree<'a>, node: usize) -> Option<&'a Module>
    ensures { option_map (λ m. m.now) result ≡ option_map (λ n. n.code.now) (slice_get tree.now.nodes node) }
{
    match tree.nodes.get(node) {
        None => None,
        Some(found) => Some(found.code),
    }
}

/// Gives the first node that has none its instances, and adds their nodes.
fn grow<'a>(
    alloc: Global,
    modules: &ModuleTable<'a>,
    node: usize,
    declarations: &'a [Decl],
    tree: &mut InstanceTree<'a>,
) -> Result<(), AllocError>
    ensures { OnOk result (Grows modules.now node declarations.now tree.old tree.new) }
{
    let mut found = Firsts::new(alloc);
    for declaration in declarations {
        add_declared(modules, node, declaration, &mut found, &mut tree.nodes)?;
    }
    tree.instances.push(found)?;
    Ok(())
}

/// Adds the instance that a declaration declares.
fn add_declared<'a>(
    modules: &ModuleTable<'a>,
    node: usize,
    declaration: &'a Decl,
    found: &mut Firsts<Option<usize>>,
    nodes: &mut Items<Node<'a>>,
) -> Result<(), AllocError>
    ensures { OnOk result ((before : List Node) (ds : List Decl) → Adds modules.now node before ds found.old nodes.old → Adds modules.now node before (ds ++ declaration.now ∷ []) found.new nodes.new) }
{
    match declared(declaration) {
        None => Ok(()),
        Some(instance) => {
            add_instance(modules, node, instance, found, nodes)?;
            Ok(())
        }
    }
}

/// Adds an instance, unless the node has one of its name.
fn add_instance<'a>(
    modules: &ModuleTable<'a>,
    node: usize,
    instance: InstanceParts<'a>,
    found: &mut Firsts<Option<usize>>,
    nodes: &mut Items<Node<'a>>,
) -> Result<(), AllocError>
    ensures { OnOk result ((before : List Node) (ds : List Decl) (d : Decl) → instance_in d ≡ Some (instance_parts instance.entry) → Adds modules.now node before ds found.old nodes.old → Adds modules.now node before (ds ++ d ∷ []) found.new nodes.new) }
{
    if found.get(instance.name).is_some() {
        return Ok(());
    }
    match modules.named(instance.module_name) {
        None => {
            found.enter(instance.name, Some(None))?;
            Ok(())
        }
        Some(code) => {
            let number = nodes.len();
            nodes.push(Node {
                code,
                above: Some(Step {
                    node,
                    name: instance.name,
                }),
                bindings: instance.bindings,
            })?;
            found.enter(instance.name, Some(Some(number)))?;
            Ok(())
        }
    }
}

/// The instance that a declaration declares.
fn declared(declaration: &Decl) -> Option<InstanceParts<'_>>
    ensures { option_map instance_parts result ≡ instance_in declaration.now }
{
    match declaration {
        Decl::Instance(_, identifier, module_name, bindings) => Some(InstanceParts {
            name: identifier.name,
            module_name: module_name.name,
            bindings: bindings.as_slice(),
        }),
        _ => None,
    }
}
