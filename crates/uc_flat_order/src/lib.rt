//! The order in which the statements of a next block are run: that of the text, but each behind those that write what it reads in the new state.
//!
//! The statements of a next block taken apart by the names that they write, each under the conditions under which it is run, and the law that together
//! they ask what the block asks.
#![tactic(auto)]

mod branches;
mod code;
mod guarded_law;
mod law;
mod names;
mod slices;
mod uses;
mod wanted;
mod writers;

pub use branches::Branches;
pub use code::code_arranged;
pub use guarded_law::slices_ask;
pub use law::any_order;
pub use slices::all_slices;
pub use wanted::Wanted;
