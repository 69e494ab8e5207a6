//! The words of a text: its tokens, where each name has a number.
#![tactic(auto)]

mod fixed;
mod known;
mod law;
mod mentions;
mod pass;

pub use law::{
    names_are_mentioned, text_has_one_list, tokens_are_within, tokens_have_one_list, words_stay,
    words_tell_tokens,
};
pub use mentions::{greater_bounds, joined_modules, mentions_are_of_words, mentions_law};
pub use pass::{words, words_of_text};
