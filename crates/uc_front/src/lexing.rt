//! The second pass: the tokens of all texts.

ghost use Rattle.std.specs.Prelude.{◌≡◌, ◌≤◌, length, map, IfOk, IfErr};
ghost use Rattle.std.specs.List.{concat};
ghost use Rattle.uc_front.specs.Errors.{IsTextError};
ghost use Rattle.uc_front.specs.Refused.{IsUnlexed};
ghost use Rattle.uc_front.specs.Sources.{AreLexed, texts_of};
ghost use Rattle.uc_front.specs.Turning.{lexical};

use crate::error::FrontError;
use crate::reading::MAX_FILES;
use crate::refusal::Refusal;
use std::alloc::Global;
use uc_items::Items;
use uc_lexer::{LexError, LexFault, MAX_TEXT, Token, tokens};

/// A text with its tokens.
#[derive(Drop)]
pub struct Source {
    pub text: Items<u8>,
    pub tokens: Items<Token>,
}

/// The texts with their tokens. The number of a text's file is its place.
pub(crate) fn lex(alloc: Global, texts: Items<Items<u8>>) -> Result<Items<Source>, FrontError>
    requires few { length texts ≤ MAX_FILES }
    requires within { length (concat texts) ≤ MAX_TEXT }
    ensures texts { IfOk result (λ sources. texts_of sources ≡ texts) }
    ensures lexed { IfOk result (AreLexed 0) }
    ensures refused { IfErr result (IsTextError (IsUnlexed texts)) }
{
    let mut sources = Items::new(alloc);
    for text in texts.into_vec() {
        let tokens = match tokens(alloc, sources.len() as u16, text.as_slice()) {
            Ok(tokens) => Items::from_vec(tokens),
            Err(error) => return Err(lexical(error)),
        };
        sources.push(Source { text, tokens })?;
    }
    Ok(sources)
}

fn lexical(error: LexError) -> FrontError
    ensures { result ≡ lexical error }
{
    match error {
        LexError::NoMemory => FrontError::NoMemory,
        LexError::Fault(LexFault::BadByte(place)) => FrontError::Refused(Refusal::BadByte(place)),
        LexError::Fault(LexFault::BadNumber(place)) => {
            FrontError::Refused(Refusal::BadNumber(place))
        }
        LexError::Fault(LexFault::OpenComment(place)) => {
            FrontError::Refused(Refusal::OpenComment(place))
        }
    }
}
