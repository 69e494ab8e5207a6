//! What each module uses, and the rules on uses: instances, their numbers and depth, defines and procedures in a cycle.
//!
//! What the graphs of uses are made of, in the order of the text: the names that expressions mention, the expressions in code, and the
//! procedures that it calls.
//!
//! The defines, procedures and bound inputs of the instances below a root as the nodes of a graph, with what each of them uses and reads.
//!
//! The number of instances and of cells below main, counted up to the limits of a design.
//!
//! Chains of instances with too many modules, and the nodes of a graph at which a long way begins.
//!
//! The rules on cycles and on long chains of uses and calls, judged in each root on the tree of its instances.
#![tactic(auto)]

mod calls;
mod cells;
mod chains;
mod counts;
mod cycles;
mod depth;
mod entering;
mod expressions;
mod growing;
mod inputs;
mod instance_depth_graph;
mod instance_tree_law;
mod judged;
mod kept_modules;
mod kept_names;
mod led;
mod limits;
mod mentioned_names;
mod mentioned_uses;
mod modules;
mod naming;
mod noting;
mod resolving;
mod root;
mod table;
mod targets;
mod tree;
mod use_bounds;
mod use_graph_graph;
mod use_ways;
mod uses;
mod ways;

pub use calls::calls_in;
pub use chains::has_long_uses;
pub use cycles::note_use_cycles;
pub use depth::has_deep_module;
pub use expressions::expressions_in;
pub use growing::instance_tree;
pub use instance_tree_law::trees_have_paths;
pub use judged::judged_roots;
pub use kept_modules::rules_keep_modules;
pub use kept_names::rules_keep_instances;
pub use limits::{has_many_cells, has_many_instances};
pub use mentioned_names::Mentioned;
pub use modules::ModuleTable;
pub use naming::{add_mentions, add_mentions_of_all};
pub use resolving::{Found, Resolved};
pub use table::UseTable;
pub use targets::{add_all, add_indices};
pub use tree::{InstanceTree, Node, Step};
pub use use_bounds::{judged_instances_are_all, uses_are_followed};
pub use use_graph_graph::{UseGraph, use_graph};
pub use use_ways::graphs_follow_uses;
pub use uses::{NumberedUse, Source, UseKind, UseName};
pub use ways::long_ways;
