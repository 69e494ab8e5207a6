//! Sequential code of every form of the language, run by given choices.
//!
//! `run_code` gives exactly the ending that the definitions of the meaning give, or the first operation on whole numbers that is met on the
//! way and leaves 128 bits. Numbers past the ranges of the types are answered as want of memory.
//!
//! What sequential code assigns: targets with fields and indices of any depth, each written in the scope that those before it leave.
//!
//! Each call gives exactly the scope that the definitions of the meaning give, or the first operation on whole numbers that is met on the
//! way and leaves 128 bits: in the sources first, then, target by target, in the present value of its name and in its indices. A target that
//! is a name alone is written without being read.
//!
//! The statements without statements inside them, the choice of a block, and how a procedure is entered and left.
//!
//! Each call gives exactly the place or the ending that the definitions of the meaning give, or the first operation on whole numbers that is
//! met on the way and leaves 128 bits. Numbers past the ranges of the types are answered as want of memory.
#![tactic(auto)]

mod branch;
mod call;
mod cell;
mod choices;
mod choosing;
mod entry;
mod field;
mod judging;
mod name;
mod replacement;
mod run;
mod run_forms_assignment;
mod run_forms_local;
mod run_parts;
mod run_parts_local;
mod running;
mod runs_turns;
mod site;
mod target;
mod targets_assignment;
mod turn;

pub use branch::taken;
pub use call::{Entry, entered, returned};
pub use cell::written_cell;
pub use choices::choice;
pub use choosing::{declared, havoc};
pub use entry::{code_end, run_code};
pub use field::with_field;
pub use judging::{assumed, judged};
pub use name::set_name;
pub use replacement::replaced;
pub use run::{Ending, Run};
pub use run_forms_assignment::assigned;
pub use run_forms_local::{ended_block, with_local};
pub use run_parts::{
    met_in_conditionals, met_in_turns, met_one_after_another, traced_code_is_code,
    traced_steps_are_steps,
};
pub use run_parts_local::{keep_locals, push_local};
pub use running::{run_call, run_each};
pub use runs_turns::{Turns, turn_local, turns_between};
pub use site::list_site;
pub use target::{write, write_all};
pub use targets_assignment::{assign, values};
pub use turn::{turn_type, turns};
