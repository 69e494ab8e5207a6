ghost use Rattle.std.specs.Prelude.{◌≤◌, length, IfOk, IfErr};
ghost use Rattle.uc_lexer.specs.Text.{Tokens, IsLexError};

use crate::error::LexError;
use crate::lexer::{Lexer, MAX_TEXT};
use crate::token::Token;
use std::alloc::Global;

/// All tokens of a text.
pub fn tokens(alloc: Global, file: u16, text: &[u8]) -> Result<Vec<Token>, LexError>
    requires { length text.now ≤ MAX_TEXT }
    ensures tokens { IfOk result (λ found. Tokens file text.now found.items) }
    ensures fault { IfErr result (IsLexError file text.now) }
{
    let mut lexer = Lexer::new(file, text);
    let mut found = Vec::new(alloc);
    'turns: loop {
        match lexer.next() {
            Ok(Some(token)) => found.push(token)?,
            Ok(None) => return Ok(found),
            Err(fault) => return Err(LexError::Fault(fault)),
        }
    }
}
