//! The design over numbered cells of a design of one module, made: the types of its cells and of its constants, its blocks, its axioms and its
//! other formulas, and the code of its inputs.
//!
//! What the names of a design of one module stand for over numbered cells and constants, and the types of these.
//!
//! A number past the range of `u32` is answered as want of memory.
#![tactic(auto)]

mod blocks;
mod cells;
mod constants;
mod holding;
mod labels;
mod making;
mod names;
mod parts;
mod pieces;
mod table;
mod types;
mod variables;

pub use cells::{OwnCell, cell_types_of, own_cells};
pub use constants::{constant_types_of, constants_of};
pub use making::flat_design;
pub use names::{names_between, without_cells};
pub use parts::are_built;
pub use table::names_table;
