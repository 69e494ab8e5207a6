//! The tokens of a text: its names, keywords, numbers, bit-vector types and literals, and signs.
#![tactic(auto)]

mod ahead;
mod byte;
mod error;
mod fault;
mod gap;
mod law;
mod lexer;
mod number;
mod place;
mod position;
mod sign;
mod token;
mod whole;
mod word;

pub use error::LexError;
pub use fault::LexFault;
pub use law::{text_has_one_reading, tokens_rise};
pub use lexer::{Lexer, MAX_TEXT};
pub use place::Place;
pub use token::{Token, TokenKind};
pub use whole::tokens;
