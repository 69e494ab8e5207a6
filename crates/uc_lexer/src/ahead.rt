//! The token at the front of a text.

ghost use Rattle.std.specs.Prelude.{◌≡◌, ◌+◌, ◌≤◌, length};
ghost use Rattle.uc_lexer.specs.Bytes as byte;
ghost use Rattle.uc_lexer.specs.Bytes.{AreAll, Begins, value_of};
ghost use Rattle.uc_lexer.specs.Gap.{HasNoGap};
ghost use Rattle.uc_lexer.specs.Ahead.{IsAhead, as_ahead};
ghost use Rattle.uc_lexer.specs.Reading.{begins, limited};

use crate::byte::is_letter;
use crate::lexer::MAX_TEXT;
use crate::number::{digits_end, value, width, width_digits};
use crate::sign::sign_at;
use crate::token::TokenKind;
use crate::word::{word_end, word_kind};

/// What stands at the front of a text.
pub(crate) enum Ahead {
    /// A token, and its length.
    Token(TokenKind, usize),
    BadNumber,
    BadByte,
    End,
}

/// What stands at the front of a text that begins with neither a blank nor a comment.
#[inline]
pub(crate) fn token_ahead(text: &[u8]) -> Ahead
    requires small { length text.now ≤ MAX_TEXT }
    requires no_gap { HasNoGap text.now }
    ensures { IsAhead text.now result }
{
    if text.is_empty() {
        return Ahead::End;
    }
    if begins_letter(text) {
        word_ahead(text)
    } else if begins_digit(text) {
        number_ahead(text)
    } else {
        match sign_at(text) {
            Some((kind, length)) => Ahead::Token(kind, length),
            None => Ahead::BadByte,
        }
    }
}

fn word_ahead(text: &[u8]) -> Ahead
    requires { Begins byte.is_letter text.now }
    ensures { IsAhead text.now result }
{
    let end = word_end(text);
    match word_kind(&text[..end]) {
        Some(kind) => Ahead::Token(kind, end),
        None => Ahead::BadNumber,
    }
}

fn number_ahead(text: &[u8]) -> Ahead
    requires small { length text.now ≤ MAX_TEXT }
    requires digit { Begins byte.is_digit text.now }
    ensures { IsAhead text.now result }
{
    let end = digits_end(text);
    let (digits, rest) = text.split_at(end);
    let width = width_digits(rest);
    if !width.is_empty() {
        literal(digits, width)
    } else if begins_letter(rest) {
        Ahead::BadNumber
    } else {
        plain_number(digits)
    }
}

fn plain_number(digits: &[u8]) -> Ahead
    requires { AreAll byte.is_digit digits.now }
    ensures { result ≡ as_ahead (limited (TokenKind.Number (value_of digits.now))) (length digits.now) }
{
    match value(digits) {
        Some(value) => Ahead::Token(TokenKind::Number(value), digits.len()),
        None => Ahead::BadNumber,
    }
}

fn literal(digits: &[u8], width_part: &[u8]) -> Ahead
    requires small { length digits.now + length width_part.now ≤ MAX_TEXT }
    requires digits { AreAll byte.is_digit digits.now }
    requires width { AreAll byte.is_digit width_part.now }
    ensures { result ≡ as_ahead (limited (TokenKind.BvLit (value_of digits.now) (value_of width_part.now))) (length digits.now + 2 + length width_part.now) }
{
    match (value(digits), width(width_part)) {
        (Some(value), Some(width)) => Ahead::Token(
            TokenKind::BvLit(value, width),
            digits.len() + 2 + width_part.len(),
        ),
        _ => Ahead::BadNumber,
    }
}

/// Whether a letter or `_` comes next.
fn begins_letter(text: &[u8]) -> bool
    ensures { result ≡ begins byte.is_letter text.now }
{
    match text {
        [first, ..] => is_letter(*first),
        [] => false,
    }
}

/// Whether a digit comes next.
fn begins_digit(text: &[u8]) -> bool
    ensures { result ≡ begins byte.is_digit text.now }
{
    match text {
        [first, ..] => first.is_ascii_digit(),
        [] => false,
    }
}
