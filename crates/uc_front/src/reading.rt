//! The first pass: the texts of all files.

ghost use Rattle.std.specs.Prelude.{◌≡◌, ◌≤◌, length, Some, IsTrue, IsErrOf, IfOk, IfErr};
ghost use Rattle.std.specs.List.{concat};
ghost use Rattle.uc_io.specs.Faults.{Rose};
ghost use Rattle.uc_front.specs.declared.error.FrontError.TheVariants.{ReadFault};
ghost use Rattle.uc_front.specs.Errors.{IsFrontError, IsUnreadFile};
ghost use Rattle.uc_front.specs.Refused.{IsUnread};
ghost use Rattle.uc_front.specs.Sources.{words_of, AreTexts};
ghost use Rattle.uc_front.specs.Turning.{unread};

use crate::error::FrontError;
use crate::refusal::Refusal;
use std::alloc::Global;
use uc_io::{ReadError, Texts, read_all};
use uc_items::Items;
use uc_lexer::MAX_TEXT;

/// So many files may a design have.
pub const MAX_FILES: usize = 256;

/// The texts of these files, in order.
pub(crate) fn read_texts<X: Texts>(
    alloc: Global,
    texts: &mut X,
    files: &[&str],
) -> Result<Items<Items<u8>>, FrontError>
    requires { length files.now ≤ MAX_FILES }
    ensures read { IsTrue (X.tells texts.old) → IfOk result (AreTexts (X.held texts.old) (words_of files.now)) }
    ensures within { IfOk result (λ found. length (concat found) ≤ MAX_TEXT) }
    ensures count { IfOk result (λ found. length found ≡ length files.now) }
    ensures refused { IsTrue (X.tells texts.old) → IfErr result (IsFrontError (IsUnread (X.held texts.old) (words_of files.now))) }
    ensures cause { IsErrOf result FrontError.ReadFault → Rose (X.faults texts.old) (X.faults texts.new) }
    ensures no_fault { (¬ IsErrOf result FrontError.ReadFault) → X.faults texts.new ≡ X.faults texts.old }
    ensures later { X.faults texts.old ≤ X.faults texts.new }
    ensures telling { X.tells texts.new ≡ X.tells texts.old }
    ensures holding { X.held texts.new ≡ X.held texts.old }
{
    let mut found = Items::new(alloc);
    let mut room = MAX_TEXT as u64;
    for (number, file) in files.iter().enumerate() {
        let text = read_text(alloc, texts, number as u16, file, room)?;
        room -= text.len() as u64;
        found.push(text)?;
    }
    Ok(found)
}

/// The text of the file of this number, where so many bytes are left of the limit.
fn read_text<X: Texts>(
    alloc: Global,
    texts: &mut X,
    number: u16,
    file: &str,
    room: u64,
) -> Result<Items<u8>, FrontError>
    ensures read { IsTrue (X.tells texts.old) → IfOk result (λ text. X.held texts.old file.now ≡ Some text) }
    ensures within { IfOk result (λ text. length text ≤ room) }
    ensures refused { IsTrue (X.tells texts.old) → IfErr result (IsFrontError (IsUnreadFile (X.held texts.old file.now) number room)) }
    ensures cause { IsErrOf result FrontError.ReadFault → Rose (X.faults texts.old) (X.faults texts.new) }
    ensures no_fault { (¬ IsErrOf result FrontError.ReadFault) → X.faults texts.new ≡ X.faults texts.old }
    ensures later { X.faults texts.old ≤ X.faults texts.new }
    ensures telling { X.tells texts.new ≡ X.tells texts.old }
    ensures holding { X.held texts.new ≡ X.held texts.old }
{
    match read_all(alloc, texts, file, room) {
        Ok(text) => Ok(Items::from_vec(text)),
        Err(error) => Err(unread(number, error)),
    }
}

fn unread(file: u16, error: ReadError) -> FrontError
    ensures { result ≡ unread file error }
{
    match error {
        ReadError::NoMemory => FrontError::NoMemory,
        ReadError::ReadFault => FrontError::ReadFault,
        ReadError::NoText => FrontError::Refused(Refusal::NoFile(file)),
        ReadError::TooLong => FrontError::Refused(Refusal::TooLong(file)),
    }
}
