//! Types and expressions, read by the grammar.
//!
//! Reads the expressions of the grammar.
//!
//! Each function reads one form of the grammar (`specs/Syntax.antt` of `uc_grammar`) from a `Reader`, and its clause says that
//! it gives what that form gives. `levels` is the count of nested forms that may still be opened.
//!
//! The state of the parser, and how it takes words.
//!
//! A reader holds the words that are left and the count of the names that were declared. Each function of the parser reads one
//! form of the grammar, and its one clause says that it gives what `form` (in `specs/Reading.antt`) gives from the state before.
//!
//! Reads types, parameters and lists of names.
#![tactic(auto)]

mod chain;
mod head;
mod level;
mod name_in_parens;
mod names;
mod parameters;
mod parser;
mod reader;
mod signs;
mod types;

pub use name_in_parens::in_name;
pub use names::{ids, new_ids};
pub use parameters::{params, results, typed_name};
pub use parser::{arguments, expr, expr_before, expression, expressions};
pub use reader::{Reader, name_of, value_of, width_of};
pub use types::{parameter, ty};
