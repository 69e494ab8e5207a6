//! The designs that run today, and where a design of one module that does not run is at fault.
//!
//! Whether the declarations of a design's one module are of the fragment that runs today.
//!
//! Where a design names a form that does not run today: the first, in the order of the texts.
#![tactic(auto)]

mod blocks;
mod commands;
mod declarations;
mod fragment_types;
mod numbers;
mod outside_declarations;
mod outside_statements;
mod outside_types;
mod plain;
mod runnable;
mod statements;
mod types;

pub use outside_declarations::outside_in;
pub use plain::is_plain;
pub use runnable::{NotRunnable, Runnable};
