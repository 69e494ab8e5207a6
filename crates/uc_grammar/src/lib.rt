//! The grammar of the language as forms, whose values are the syntax trees.
#![tactic(auto)]

mod language;
mod word;
mod written;

pub use language::{Modules, has_one_answer, spells_one_list, stands_alike};
pub use word::{Kind, Word};
pub use written::{
    braces_are_as_written, commands_are_as_written, declarations_are_as_written,
    if_expressions_are_as_written, lists_are_as_written, primaries_are_as_written,
    selections_are_as_written, statements_are_as_written, type_declarations_are_as_written,
    types_are_as_written,
};
