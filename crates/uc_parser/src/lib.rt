//! Reads the modules of a text from its tokens, exactly as the grammar has them.
//!
//! The contract of `parse` is `IsParsedText` in `specs/Verdict.antt`: the modules that the tokens spell, or the first fault. `levels` is everywhere
//! how many nested forms may still be opened.
//!
//! Reads statements and blocks.
//!
//! Each function reads one form of the grammar (`specs/Syntax.antt` of `uc_grammar`) from a `Reader`, and its clause says that
//! it gives what that form gives. `levels` is the count of nested forms that may still be opened.
//!
//! Reads the commands of a control block.
#![tactic(auto)]

mod behind;
mod blocks;
mod clause;
mod command;
mod declaration;
mod error;
mod instance;
mod law;
mod module;
mod parse_commands_bounds;
mod parse_statements_bounds;
mod parser_block;
mod paths;
mod procedure;
mod property;
mod run;
mod simple;
mod targets;
mod type_declaration;
mod variable;
mod whole;

pub use blocks::{block, statement, statements};
pub use command::control_braces;
pub use error::ParseError;
pub use law::tokens_spell_one_list;
pub use whole::{MAX_LEVELS, MAX_NAMES, end_of, parse, parse_words};
