//! Code of a design as code over numbered cells.
//!
//! Init code of a design as code over numbered cells.
//!
//! What the statements of a next block write, and what they read in the new state: no part of a cell may be written, on a way through the
//! block, after it was written there, or read in the new state.
#![tactic(auto)]

mod assigning;
mod code;
mod flat_init_holding;
mod flat_init_simple;
mod flat_once_written;
mod holding;
mod locals;
mod made;
mod once;
mod parts;
mod reading;
mod reads;
mod simple;
mod types;
mod walk;
mod writing;
mod zero;

pub use code::{flat_code, joined_arms};
pub use flat_once_written::written_parts;
pub use locals::copy_names;
pub use made::{MadeArms, MadeCode};
pub use once::{Part, statement_parts, touched};
pub use simple::{assigned, assume, havoc, written};
pub use types::is_cell_type;
pub use walk::{init_code, statement_code};
pub use writing::{FlatArm, Writing, Written};
