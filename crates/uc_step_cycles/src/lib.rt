//! Which cells a step needs to be known before which, and the rule that none needs itself.
//!
//! The rule on cells that depend on themselves in a step, judged in each root on the tree of its instances.
//!
//! The statements of a module's next block that may write, and its steps of instances, each with the conditions around it.
//!
//! The cells of the instances below a root by their numbers, and the cell that each name of an instance stands for.
//!
//! The graph of the cells of a tree, of what its bound inputs and defines use, and of the statements and conditions of the blocks that are stepped.
#![tactic(auto)]

mod acts;
mod adding;
mod block_edges;
mod bound;
mod cell_numbers;
mod cycles;
mod graph;
mod input_ways;
mod names;
mod noting;
mod numbers;
mod own;
mod procedures;
mod reads;
mod root;
mod step_graph_law;
mod step_ties;
mod step_ways;
mod stepped_block_laws;
mod stepped_blocks;
mod steps;
mod table;
mod walk;

pub use acts::{Act, Acts, Context, Writing};
pub use cell_numbers::cells_are_numbered;
pub use cycles::note_cyclic_steps;
pub use graph::{StepGraph, step_graph};
pub use input_ways::inputs_lead_to_cells;
pub use numbers::Names;
pub use step_graph_law::graphs_carry_steps;
pub use step_ties::{cycles_are_numbered, graphs_are_tied};
pub use step_ways::{dependences_are_reached, writings_are_reached};
pub use stepped_block_laws::steps_are_followed;
pub use stepped_blocks::{Block, Blocks};
pub use table::CellTable;
pub use walk::acts_of;
