//! The walk of the static rules over declarations: the first of the faults of each declaration of a module, functions, defines and procedures
//! among them.
//!
//! The rule on names that a module declares again, in time linear in its names.
#![tactic(auto)]

mod bindings;
mod control;
mod declarations;
mod functions;
mod home;
mod instances;
mod labels;
mod modifying;
mod naming;
mod parameters;
mod procedures;
mod seen;

pub use declarations::judge_declaration;
pub use home::Home;
pub use naming::note_names;
