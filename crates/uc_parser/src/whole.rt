//! Reads a whole text.

ghost use Rattle.std.specs.Prelude.{◌≡◌, ◌<◌, ◌≤◌, length};
ghost use Rattle.uc_lexer.specs.Places.{place_behind};
ghost use Rattle.uc_lexer.specs.Text.{Tokens};
ghost use Rattle.uc_parser.specs.Verdict.{AreNamesAfter, IsParsed, IsParsedText, end_of, max_levels, max_names, place_at};
ghost use Rattle.uc_syntax.specs.Numbering.{KeepNumbers};

use crate::error::ParseError;
use crate::module::modules;
use std::alloc::Global;
use uc_forms::{Fault, Stop};
use uc_grammar::Word;
use uc_items::Items;
use uc_lexer::{MAX_TEXT, Place, Token};
use uc_parse_expressions::Reader;
use uc_syntax::{Module, Names};
use uc_words::words;

/// In as many nested forms a token may lie.
pub const MAX_LEVELS: u8 = 200;

/// As many names a module may declare.
pub const MAX_NAMES: u32 = 65_535;

/// The place of the next word, or the end.
fn place(rest: &[Word], end: Place) -> Place
    ensures { result ≡ place_at end rest.now }
{
    match rest {
        [] => end,
        [word, ..] => word.place,
    }
}

/// The modules that words spell, or the first fault. `end` is the place behind the last word.
pub fn parse_words(alloc: Global, words: &[Word], end: Place) -> Result<Items<Module>, ParseError>
    ensures { IsParsed max_levels max_names end words.now result }
{
    let mut reader = Reader::new(alloc, words, MAX_NAMES);
    match modules(&mut reader, MAX_LEVELS) {
        Ok(found) => {
            if let Some(name) = reader.names.past {
                return Err(ParseError::TooManyNames(name.place));
            }
            if !reader.rest.is_empty() {
                return Err(ParseError::Syntax(place(reader.rest, end)));
            }
            Ok(found)
        }
        Err(Stop::Memory) => Err(ParseError::NoMemory),
        Err(Stop::At(fault)) => {
            if let Some(name) = reader.names.past {
                return Err(ParseError::TooManyNames(name.place));
            }
            let place = place(reader.rest, end);
            match fault {
                Fault::Syntax => Err(ParseError::Syntax(place)),
                Fault::TooDeep => Err(ParseError::TooDeep(place)),
            }
        }
    }
}

/// The place behind a byte that stands at this place.
fn behind(place: Place, byte: u8) -> Place
    requires line { place.line < 4_294_967_295 }
    requires col { place.col < 4_294_967_295 }
    ensures { result ≡ place_behind place byte }
{
    if byte == b'\n' {
        Place {
            line: place.line + 1,
            col: 1,
            ..place
        }
    } else {
        Place {
            col: place.col + 1,
            ..place
        }
    }
}

/// The place behind the last byte of a text. `file` is the number of the text's file.
pub fn end_of(file: u16, text: &[u8]) -> Place
    requires { length text.now ≤ MAX_TEXT }
    ensures { result ≡ end_of file text.now }
{
    let mut place = Place {
        file,
        line: 1,
        col: 1,
    };
    for byte in text {
        place = behind(place, *byte);
    }
    place
}

/// The modules that the tokens of a text spell, or the first fault. `file` is the number of the text's file, which its places
/// bear. On an `Err` names may have been added.
pub fn parse(
    alloc: Global,
    names: &mut Names,
    file: u16,
    text: &[u8],
    tokens: &[Token],
) -> Result<Items<Module>, ParseError>
    requires small { length text.now ≤ MAX_TEXT }
    requires tokens { Tokens file text.now tokens.now }
    ensures parsed { IsParsedText names.new file text.now tokens.now result }
    ensures names { AreNamesAfter names.old text.now tokens.now result names.new }
    ensures kept { KeepNumbers names.old names.new }
{
    let words = words(alloc, names, text, tokens)?;
    parse_words(alloc, words.as_slice(), end_of(file, text))
}
