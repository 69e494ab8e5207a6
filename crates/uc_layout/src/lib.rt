//! Where the parts of a design stand in a state: cells, symbols, instances, and what a step keeps.
//!
//! Where the values of a design stand: the number of each cell in a state, and of each constant and function in an interpretation.
//!
//! A `Layout` lists the cells, the constants and the functions once, in the order of the definitions. Its calls give exactly the numbers
//! that the definitions give.
//!
//! The instances of a design at their paths, the cells of its states with their types, and the types of an interpretation.
//!
//! Each call lists exactly what the definitions of the meaning list, in their order.
//!
//! Whether values are those of a state or of an interpretation of a design, and copies of these.
//!
//! Values that are equal in all parts, which `same` does not ask of arrays.
//!
//! The frame rule: what a step does not write stays.
//!
//! A part of a cell is written where fields lead to it; each part that neither lies in a written part nor contains one has the same value in
//! both states, in every cell but main's inputs.
#![tactic(auto)]

mod equality;
mod fitting;
mod frame_cell;
mod frame_cells;
mod instance;
mod instances_cell;
mod instances_symbols;
mod interpretation;
mod layout;
mod layout_cells;
mod listing;
mod part;
mod parts;
mod scope;
mod sorted;
mod symbols;

pub use equality::{equal, equal_all};
pub use fitting::{first_unfit, fit_all};
pub use frame_cells::all_keep;
pub use instance::{InstanceRef, instances, instances_below, main_instance};
pub use instances_cell::{Cell, cell_types, cells};
pub use instances_symbols::{FunctionTypes, constant_types, function_types, parameter_types};
pub use interpretation::is_interpretation;
pub use layout::Layout;
pub use part::Part;
pub use scope::{copy_interp, main_scope};
