//! Names of types, and the forms that types take.
//!
//! Names that are declared again: the rules of the names in a list, a scope, or all texts.
//!
//! The types and the enums that the parts of a design write, by reference, in the order of the text.
//!
//! Forms of expressions and statements by the types of their parts: arguments, products and functions on bits.
#![tactic(auto)]

mod blocks;
mod enums;
mod fit;
mod lists;
mod name_set;
mod on_bits;
mod product;
mod repeated;
mod written;

pub use blocks::{Block, note_repeated_block};
pub use enums::{WrittenEnum, enums_of};
pub use fit::{applied, note_misfit};
pub use lists::{
    note_repeated_bindings, note_repeated_commands, note_repeated_modules, note_repeated_parameters,
};
pub use name_set::NameSet;
pub use on_bits::{extended, shifted};
pub use product::judge_product;
pub use repeated::note_repeated;
pub use written::types_in;
