//! The third pass: the modules of all texts.

ghost use Rattle.std.specs.Prelude.{◌≡◌, ◌≤◌, length, map, fold, slice_get, Some, IfOk, IfErr, OnOk};
ghost use Rattle.std.specs.List.{concat};
ghost use Rattle.uc_syntax.specs.Numbering.{with_text};
ghost use Rattle.uc_front.specs.Denotes.{AreSpelled, with_source};
ghost use Rattle.uc_front.specs.Errors.{IsTextError};
ghost use Rattle.uc_front.specs.Refused.{IsUnspelled};
ghost use Rattle.uc_front.specs.Sources.{words_of, AreLexed, texts_of};
ghost use Rattle.uc_front.specs.Turning.{syntactic};

use crate::error::FrontError;
use crate::lexing::Source;
use crate::reading::MAX_FILES;
use crate::refusal::Refusal;
use std::alloc::{AllocError, Global};
use uc_items::Items;
use uc_lexer::MAX_TEXT;
use uc_parser::{ParseError, parse};
use uc_syntax::{Module, Names};

/// The numbers of the files' names.
pub(crate) fn intern_all(
    alloc: Global,
    names: &mut Names,
    files: &[&str],
) -> Result<Items<u32>, AllocError>
    ensures names { OnOk result (names.new ≡ fold with_text names.old (words_of files.now)) }
    ensures numbers { IfOk result (λ numbers. map (slice_get names.new) numbers ≡ map (λ f. Some f) (words_of files.now)) }
{
    let mut numbers = Items::new(alloc);
    for file in files {
        let number = names.intern(alloc, file.as_bytes())?;
        numbers.push(number)?;
    }
    Ok(numbers)
}

/// The modules that the texts spell, in order.
pub(crate) fn parse_all(
    alloc: Global,
    names: &mut Names,
    sources: &[Source],
) -> Result<Items<Module>, FrontError>
    requires few { length sources.now ≤ MAX_FILES }
    requires within { length (concat (texts_of sources.now)) ≤ MAX_TEXT }
    requires lexed { AreLexed 0 sources.now }
    ensures names { OnOk result (names.new ≡ fold with_source names.old sources.now) }
    ensures spelled { IfOk result (AreSpelled names.new sources.now) }
    ensures refused { IfErr result (IsTextError (IsUnspelled (fold with_source names.old sources.now) sources.now)) }
{
    let mut modules = Items::new(alloc);
    for (number, source) in sources.iter().enumerate() {
        let text = source.text.as_slice();
        let tokens = source.tokens.as_slice();
        let found = match parse(alloc, names, number as u16, text, tokens) {
            Ok(found) => found,
            Err(error) => return Err(syntactic(error)),
        };
        modules.append(found)?;
    }
    Ok(modules)
}

fn syntactic(error: ParseError) -> FrontError
    ensures { result ≡ syntactic error }
{
    match error {
        ParseError::NoMemory => FrontError::NoMemory,
        ParseError::Syntax(place) => FrontError::Refused(Refusal::Syntax(place)),
        ParseError::TooDeep(place) => FrontError::Refused(Refusal::TooDeep(place)),
        ParseError::TooManyNames(place) => FrontError::Refused(Refusal::TooManyNames(place)),
    }
}
