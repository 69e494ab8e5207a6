//! Signs.

ghost use Rattle.std.specs.Prelude.{◌≡◌, ◌∷◌};
ghost use Rattle.uc_lexer.specs.Bytes as byte;
ghost use Rattle.uc_lexer.specs.Reading.{begins, sign_in, with_first};
ghost use Rattle.uc_lexer.specs.Table.{signs};

use crate::byte::is_word;
use crate::token::TokenKind;

/// The longest sign at the front of the text, and its length.
pub(crate) fn sign_at(text: &[u8]) -> Option<(TokenKind, usize)>
    ensures { result ≡ sign_in signs text.now }
{
    let first = text.first()?;
    match *first {
        b'<' => less(text),
        b'=' => equal(text),
        b'>' => greater(text),
        b'!' => not(text),
        b'&' => and(text),
        b'|' => or(text),
        b'+' => plus(text),
        b'-' => minus(text),
        b'(' => Some((TokenKind::LeftParen, 1)),
        b')' => Some((TokenKind::RightParen, 1)),
        b'{' => Some((TokenKind::LeftBrace, 1)),
        b'}' => Some((TokenKind::RightBrace, 1)),
        b'[' => Some((TokenKind::LeftBracket, 1)),
        b']' => Some((TokenKind::RightBracket, 1)),
        b',' => Some((TokenKind::Comma, 1)),
        b';' => Some((TokenKind::Semicolon, 1)),
        b':' => Some((TokenKind::Colon, 1)),
        b'.' => Some((TokenKind::Dot, 1)),
        b'\'' => Some((TokenKind::Prime, 1)),
        b'*' => Some((TokenKind::Star, 1)),
        b'^' => Some((TokenKind::Caret, 1)),
        b'~' => Some((TokenKind::Tilde, 1)),
        _ => None,
    }
}

fn less(text: &[u8]) -> Option<(TokenKind, usize)>
    ensures { result ≡ sign_in (with_first 60 signs) text.now }
{
    if text.starts_with(b"<==>") {
        Some((TokenKind::Iff, 4))
    } else if text.starts_with(b"<=_u") && !begins_word(&text[4..]) {
        Some((TokenKind::LessEqualUnsigned, 4))
    } else if text.starts_with(b"<_u") && !begins_word(&text[3..]) {
        Some((TokenKind::LessUnsigned, 3))
    } else if text.starts_with(b"<=") {
        Some((TokenKind::LessEqual, 2))
    } else if text.starts_with(b"<") {
        Some((TokenKind::Less, 1))
    } else {
        None
    }
}

fn equal(text: &[u8]) -> Option<(TokenKind, usize)>
    ensures { result ≡ sign_in (with_first 61 signs) text.now }
{
    if text.starts_with(b"==>") {
        Some((TokenKind::Implies, 3))
    } else if text.starts_with(b"==") {
        Some((TokenKind::Equal, 2))
    } else if text.starts_with(b"=") {
        Some((TokenKind::Assign, 1))
    } else {
        None
    }
}

fn greater(text: &[u8]) -> Option<(TokenKind, usize)>
    ensures { result ≡ sign_in (with_first 62 signs) text.now }
{
    if text.starts_with(b">=_u") && !begins_word(&text[4..]) {
        Some((TokenKind::GreaterEqualUnsigned, 4))
    } else if text.starts_with(b">_u") && !begins_word(&text[3..]) {
        Some((TokenKind::GreaterUnsigned, 3))
    } else if text.starts_with(b">=") {
        Some((TokenKind::GreaterEqual, 2))
    } else if text.starts_with(b">") {
        Some((TokenKind::Greater, 1))
    } else {
        None
    }
}

fn not(text: &[u8]) -> Option<(TokenKind, usize)>
    ensures { result ≡ sign_in (with_first 33 signs) text.now }
{
    if text.starts_with(b"!=") {
        Some((TokenKind::NotEqual, 2))
    } else if text.starts_with(b"!") {
        Some((TokenKind::Not, 1))
    } else {
        None
    }
}

fn and(text: &[u8]) -> Option<(TokenKind, usize)>
    ensures { result ≡ sign_in (with_first 38 signs) text.now }
{
    if text.starts_with(b"&&") {
        Some((TokenKind::And, 2))
    } else if text.starts_with(b"&") {
        Some((TokenKind::Ampersand, 1))
    } else {
        None
    }
}

fn or(text: &[u8]) -> Option<(TokenKind, usize)>
    ensures { result ≡ sign_in (with_first 124 signs) text.now }
{
    if text.starts_with(b"||") {
        Some((TokenKind::Or, 2))
    } else if text.starts_with(b"|") {
        Some((TokenKind::Bar, 1))
    } else {
        None
    }
}

fn plus(text: &[u8]) -> Option<(TokenKind, usize)>
    ensures { result ≡ sign_in (with_first 43 signs) text.now }
{
    if text.starts_with(b"++") {
        Some((TokenKind::Concat, 2))
    } else if text.starts_with(b"+") {
        Some((TokenKind::Plus, 1))
    } else {
        None
    }
}

fn minus(text: &[u8]) -> Option<(TokenKind, usize)>
    ensures { result ≡ sign_in (with_first 45 signs) text.now }
{
    if text.starts_with(b"->") {
        Some((TokenKind::Arrow, 2))
    } else if text.starts_with(b"-") {
        Some((TokenKind::Minus, 1))
    } else {
        None
    }
}

/// Whether a letter, a digit or `_` comes next.
fn begins_word(text: &[u8]) -> bool
    ensures { result ≡ begins byte.is_word text.now }
{
    match text {
        [first, ..] => is_word(*first),
        [] => false,
    }
}
