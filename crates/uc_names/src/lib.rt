//! What names a design declares, by hash: of one module, of all, and where types are at home.
//!
//! The names of a design and of its modules, by hash: what each name stands for, as the rules' definitions say it.
//!
//! What the names of a module stand for: those that it declares, and those that it brings in from others.
//!
//! What the names of types stand for in each module of a design, by hash: the types that a module itself declares, and the numbers of those
//! without a definition.
#![tactic(auto)]

mod design;
mod entries;
mod enums;
mod firsts;
mod homes;
mod labels;
mod listed;
mod lists;
mod numbers;
mod own;
mod place_key;
mod senses;
mod table;
mod types;

pub use design::DesignNames;
pub use entries::{entries_of, table_of};
pub use firsts::Firsts;
pub use homes::TypeHomes;
pub use numbers::OpaqueNumbers;
pub use senses::{Called, DeclaredType, Entry, Label, Sense, Value};
pub use table::NameTable;
