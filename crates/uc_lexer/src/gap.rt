//! Blanks and comments.

ghost use Rattle.std.specs.Prelude.{◌≡◌, ℕ, ◌∷◌, List, ◌+◌, ◌<◌, ◌≤◌, length, slice_index, IsTrue, ◌↔◌, MatchOption, MatchResult};
ghost use Rattle.std.specs.List.{take_while};
ghost use Rattle.uc_lexer.specs.Gap.{IsOpen, IsOpenComment, HasNoGap};
ghost use Rattle.uc_lexer.specs.Reading.{is_in_line};
ghost use Rattle.uc_lexer.specs.Ahead.{IsPosition, IsStep, IsBlockUpTo, IsBehindGap, from};

use crate::lexer::MAX_TEXT;
use crate::position::Position;

/// The position behind blanks and whole comments. The error is that of a comment without end.
pub(crate) fn skip_gap(text: &[u8], start: Position) -> Result<Position, Position>
    requires small { length text.now ≤ MAX_TEXT }
    requires position { IsPosition text.now start }
    ensures { MatchResult result
        (λ here. IsBehindGap text.now start here × HasNoGap (from text.now here))
        (λ here. IsBehindGap text.now start here × IsOpenComment (from text.now here)) }
{
    let mut here = start;
    'steps: loop {
        match next_step(text, here) {
            Step::Gap(after) => here = after,
            Step::Token => return Ok(here),
            Step::Open => return Err(here),
        }
    }
}

/// What stands at a position.
pub(crate) enum Step {
    /// A blank or a whole comment, which ends there.
    Gap(Position),
    /// Neither a blank nor a comment.
    Token,
    /// A comment without end.
    Open,
}

#[inline(always)]
fn next_step(text: &[u8], here: Position) -> Step
    requires small { length text.now ≤ MAX_TEXT }
    requires position { IsPosition text.now here }
    ensures { IsStep text.now here result }
{
    if here.at >= text.len() {
        return Step::Token;
    }
    match text[here.at] {
        b' ' | b'\t' | b'\r' => Step::Gap(here.along(1)),
        b'\n' => Step::Gap(here.next_line()),
        b'/' => comment(text, here),
        _ => Step::Token,
    }
}

/// What stands at a slash.
fn comment(text: &[u8], here: Position) -> Step
    requires small { length text.now ≤ MAX_TEXT }
    requires position { IsPosition text.now here }
    requires slash { (rest : List ℕ) × (from text.now here ≡ 47 ∷ rest) }
    ensures { IsStep text.now here result }
{
    match text.get(here.at + 1) {
        Some(b'/') => Step::Gap(here.along(2 + line_length(&text[here.at + 2..]))),
        Some(b'*') => match block_end(text, here.along(2)) {
            Some(after) => Step::Gap(after),
            None => Step::Open,
        },
        _ => Step::Token,
    }
}

/// The length of the line that is left.
fn line_length(text: &[u8]) -> usize
    ensures { result ≡ length (take_while is_in_line text.now) }
{
    text.iter().take_while(|c| **c != b'\n').count()
}

/// The position behind the first `*/`.
fn block_end(text: &[u8], start: Position) -> Option<Position>
    requires small { length text.now ≤ MAX_TEXT }
    requires position { IsPosition text.now start }
    ensures { MatchOption result (IsOpen (from text.now start)) (λ after. IsBlockUpTo text.now start after) }
{
    let mut here = start;
    'bytes: while here.at + 1 < text.len() {
        if closes(text, here.at) {
            return Some(here.along(2));
        }
        here = behind(text, here);
    }
    None
}

/// Whether `*/` stands there.
#[inline(always)]
fn closes(text: &[u8], at: usize) -> bool
    requires { at + 1 < length text.now }
    ensures { IsTrue result ↔ ((slice_index text.now at ≡ 42) × (slice_index text.now (at + 1) ≡ 47)) }
{
    text[at] == b'*' && text[at + 1] == b'/'
}

/// The position of the next byte.
#[inline(always)]
fn behind(text: &[u8], here: Position) -> Position
    requires small { length text.now ≤ MAX_TEXT }
    requires position { IsPosition text.now here }
    requires some { here.at < length text.now }
    ensures position { IsPosition text.now result }
    ensures at { result.at ≡ here.at + 1 }
{
    if text[here.at] == b'\n' {
        here.next_line()
    } else {
        here.along(1)
    }
}
