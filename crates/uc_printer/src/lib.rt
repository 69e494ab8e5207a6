//! Prints a design as a text.
//!
//! `print` gives exactly the bytes of the words of its modules: one blank between neighbours, a line feed after each module. The
//! words of a tree, and where parentheses stand, are those of `uc_print_laws`; the bytes of a word are those of `uc_print_laws`.
//!
//! Prints expressions: each word behind a blank, with parentheses where the tree needs them.
//!
//! Prints statements: each word behind a blank.
#![tactic(auto)]

mod clauses;
mod commands;
mod declarations;
mod design;
mod expression_texts;
mod operators;
mod parts;
mod statement_texts;
mod targets;

pub use design::{print, print_modules};
pub use expression_texts::{put_expression, put_expressions};
pub use operators::put_primed_name;
pub use parts::{put_labelled, put_typed_names};
pub use statement_texts::put_block;
