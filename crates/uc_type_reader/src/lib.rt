//! What written types stand for, and the labels that a module's names mean.
//!
//! `Tables` keeps a design with lists of its enums and of its types without a definition. The calls give exactly the types and the
//! labels of the definitions of the meaning. A number past the range of the types is answered as want of memory.
#![tactic(auto)]

mod homes;
mod labels;
mod mentioned;
mod places;
mod tables;
mod types;

pub use homes::{TypeEntry, home_of_type, type_entry};
pub use labels::{Label, label_of};
pub use mentioned::{Mentioned, WrittenEnum, mentioned_in};
pub use tables::Tables;
pub use types::type_of_written;
