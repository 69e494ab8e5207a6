//! From the texts of files to a design.

ghost use Rattle.std.specs.Prelude.{◌≡◌, ◌≤◌, length, IsTrue, IsErrOf, IfOk, IfErr};
ghost use Rattle.uc_io.specs.Faults.{Rose};
ghost use Rattle.uc_front.specs.declared.error.FrontError.TheVariants.{ReadFault};
ghost use Rattle.uc_front.specs.Denotes.{Denotes, IsKept, RunsToday};
ghost use Rattle.uc_front.specs.Errors.{IsFrontError};
ghost use Rattle.uc_front.specs.Refused.{IsRefused};
ghost use Rattle.uc_front.specs.Sources.{words_of};

use crate::design::design_of;
use crate::error::FrontError;
use crate::lexing::lex;
use crate::reading::{MAX_FILES, read_texts};
use std::alloc::Global;
use uc_io::Texts;
use uc_runnable::Runnable;

/// The design that the texts of these names denote, if it keeps the rules and runs today. A file is numbered by its place.
///
/// A name that comes twice is read twice.
pub fn read_design<X: Texts>(
    alloc: Global,
    texts: &mut X,
    files: &[&str],
) -> Result<Runnable, FrontError>
    requires { length files.now ≤ MAX_FILES }
    ensures denoted { IsTrue (X.tells texts.old) → IfOk result (Denotes (X.held texts.old) (words_of files.now)) }
    ensures kept { IfOk result IsKept }
    ensures runs { IfOk result RunsToday }
    ensures refused { IsTrue (X.tells texts.old) → IfErr result (IsFrontError (IsRefused (X.held texts.old) (words_of files.now))) }
    ensures cause { IsErrOf result FrontError.ReadFault → Rose (X.faults texts.old) (X.faults texts.new) }
    ensures no_fault { (¬ IsErrOf result FrontError.ReadFault) → X.faults texts.new ≡ X.faults texts.old }
    ensures later { X.faults texts.old ≤ X.faults texts.new }
    ensures telling { X.tells texts.new ≡ X.tells texts.old }
    ensures holding { X.held texts.new ≡ X.held texts.old }
{
    let found = read_texts(alloc, texts, files)?;
    let sources = lex(alloc, found)?;
    design_of(alloc, files, sources.as_slice())
}
