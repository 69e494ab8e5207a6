//! What is printed of a design, as words and on a page, and the law that it is read back as the same design.
//!
//! The text of a printed design: its tokens, and what they spell.
//!
//! `specs/Spelled.antt` says which modules have spellings: each name has a text that is an identifier, and each number is within
//! the limits of the lexer. The laws say that their printed text has exactly the printed words as its tokens, and that these spell
//! the modules again.
//!
//! The words of a design as it is printed, and that they spell this design again.
//!
//! `specs/` says for each form of tree which words are printed of it, in the order of the grammar: `printed_type`, `printed_expr`,
//! `printed_stmt`, `modules_words`. What is printed goes with the depth of its nesting and with whether the grammar has such a
//! tree (`Printed`). Parentheses stand exactly where a tree binds more loosely than its place allows (`at`).
//!
//! A text that grows word by word, each word behind a blank, and the words of names and types.
//!
//! `specs/Text.antt` says which bytes a word is (`spelling`) and how a text goes on with words (`written`), up to the text of a
//! whole design (`design_text`).
//!
//! The modules that words spell have the nodes of the grammar: whatever was read is printed again.
//!
//! How many names a module declares, and that this is what the limit of a text counts.
#![tactic(auto)]

mod law;
mod name_counts_law;
mod page;
mod printed_law;
mod shaped_law;
mod types;
mod words;

pub use law::{
    parsed_is_shaped, read_is_printed_back, text_is_lexed, text_is_read_back, text_is_spelled,
    text_keeps_names, text_shows_words,
};
pub use name_counts_law::{names_are_counted, names_without_places};
pub use page::Page;
pub use printed_law::{
    expressions_are_spelled, modules_are_spelled, printed_is_read_back, statements_are_spelled,
    types_are_spelled,
};
pub use shaped_law::spelled_is_shaped;
pub use types::{put_identifiers, put_parameters, put_type};
pub use words::{put_name, put_sign};
