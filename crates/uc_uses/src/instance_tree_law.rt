//! The tree of the instances below a root: a node for each path, found from its parent by the instance's name.

ghost use Rattle.uc_uses.specs.PathLaw.{TreesHavePaths};

/// A law of the definitions: each path of a module leads to one node of a tree, which has the module, each node has one path, and a name
/// leads to the same name in the tree and in the design.
pub fn trees_have_paths()
    ensures { TreesHavePaths }
{}
