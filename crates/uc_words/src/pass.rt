ghost use Rattle.std.specs.Prelude.{◌≡◌, ◌≤◌, ◌<◌, ℕ, List, length, Err, IfOk, IfErr, OnOk, OnErr};
ghost use Rattle.uc_lexer.specs.declared.error.LexError.TheVariants.{Fault};
ghost use Rattle.uc_lexer.specs.declared.fault.LexFault.{LexFault};
ghost use Rattle.uc_lexer.specs.declared.token.Token.{Token};
ghost use Rattle.uc_lexer.specs.Text.{IsLexError, Tokens};
ghost use Rattle.uc_syntax.specs.Numbering.{KeepNumbers};
ghost use Rattle.uc_syntax.specs.Mentions.{NamesBelow, FilesBelow};
ghost use Rattle.uc_words.specs.Fixed as spec;
ghost use Rattle.uc_words.specs.Mentions.{tokens_mention, words_mention};
ghost use Rattle.uc_words.specs.Words.{AreWithin, AreWords, HasFrontOf, IsKind, IsText, bytes_of, with_token, with_tokens};

use crate::fixed::fixed_kind;
use crate::known::name_kind;
use std::alloc::{AllocError, Global};
use uc_grammar::{Kind, Word};
use uc_lexer::{LexError, MAX_TEXT, Token, tokens};
use uc_syntax::Names;

/// The words of the tokens of a text. Each name gets its number, as it comes. An `Err` is want of memory, or of numbers for
/// names. Then those of the first tokens have their numbers.
pub fn words(
    alloc: Global,
    names: &mut Names,
    text: &[u8],
    tokens: &[Token],
) -> Result<Vec<Word>, AllocError>
    requires { AreWithin text.now tokens.now }
    ensures words { IfOk result (λ ws. AreWords names.new text.now tokens.now ws.items) }
    ensures names { OnOk result (names.new ≡ with_tokens names.old text.now tokens.now) }
    ensures kept { KeepNumbers names.old names.new }
    ensures err { OnErr result (HasFrontOf names.old text.now tokens.now names.new) }
    ensures names_known { IfOk result (λ ws. NamesBelow (length names.new) (words_mention ws.items)) }
    ensures files_known { IfOk result (λ ws. (n : ℕ) → FilesBelow n (tokens_mention tokens.now) → FilesBelow n (words_mention ws.items)) }
{
    let mut words = Vec::with_capacity(alloc, tokens.len())?;
    for token in tokens {
        let kind = kind_of(alloc, names, text, token)?;
        words.push(Word {
            kind,
            place: token.place,
        })?;
    }
    Ok(words)
}

/// The kind of a token's word, and the number of its name.
fn kind_of(alloc: Global, names: &mut Names, text: &[u8], token: &Token) -> Result<Kind, AllocError>
    requires start { token.now.start ≤ token.now.end }
    requires end { token.now.end ≤ length text.now }
    ensures kind { IfOk result (IsKind names.new (bytes_of text.now token.now) (spec.fixed_kind token.now.kind)) }
    ensures names { OnOk result (names.new ≡ with_token text.now names.old token.now) }
    ensures kept { KeepNumbers names.old names.new }
    ensures err { OnErr result (names.new ≡ names.old) }
{
    if let Some(kind) = fixed_kind(token.kind) {
        return Ok(kind);
    }
    let name = &text[token.start as usize..token.end as usize];
    let number = names.intern(alloc, name)?;
    Ok(name_kind(name, number))
}

/// The words of a text, or its first fault. `file` is the number of the text's file, which the places bear.
pub fn words_of_text(
    alloc: Global,
    names: &mut Names,
    file: u16,
    text: &[u8],
) -> Result<Vec<Word>, LexError>
    requires { length text.now ≤ MAX_TEXT }
    ensures words { IfOk result (λ ws. IsText names.new file text.now ws.items) }
    ensures names { OnOk result ((tokens : List Token) → Tokens file text.now tokens → names.new ≡ with_tokens names.old text.now tokens) }
    ensures kept { KeepNumbers names.old names.new }
    ensures names_known { IfOk result (λ ws. NamesBelow (length names.new) (words_mention ws.items)) }
    ensures files_known { IfOk result (λ ws. (n : ℕ) → file < n → FilesBelow n (words_mention ws.items)) }
    ensures fault { IfErr result (IsLexError file text.now) }
    ensures err { OnErr result ((tokens : List Token) → Tokens file text.now tokens → HasFrontOf names.old text.now tokens names.new) }
    ensures unread { OnErr result (((tokens : List Token) → ¬ Tokens file text.now tokens) → names.new ≡ names.old) }
    ensures fault_keeps { (fault : LexFault) → result ≡ Err (Fault fault) → names.new ≡ names.old }
{
    let tokens = tokens(alloc, file, text)?;
    match words(alloc, names, text, tokens.as_slice()) {
        Ok(words) => Ok(words),
        Err(_) => Err(LexError::NoMemory),
    }
}
