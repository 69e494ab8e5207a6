//! What a run is to answer, before a byte is written.

ghost use Rattle.std.specs.Prelude.{◌≡◌, ◌≤◌, ◌<◌, ◌^◌, length, IsTrue, IsErrOf, IfOk};
ghost use Rattle.uc_io.specs.Faults.{Rose};
ghost use Rattle.uc_front.specs.Sources.{words_of};
ghost use Rattle.uclid.specs.declared.answer.Stop.TheVariants.{NoMemory, ReadFault};
ghost use Rattle.uclid.specs.Answers.{is_form, are_names, line_budget, IsAnswer, IsFilesAnswer, HasSpent, begins_with_dash, status_of, session_of};

use std::alloc::{AllocError, Global};
use uc_front::{FrontError, MAX_FILES, Refusal, read_design};
use uc_io::Texts;
use uc_items::beside;
use uc_judge::run_control;
use uc_log::Meter;
use uc_report::{Report, status_of};
use uc_runnable::Runnable;

/// How many entries of a log each line may spend.
const LINE_BUDGET: u64 = 1_048_576;

/// An accepted design and the report of its control block.
#[derive(Drop)]
pub struct Session {
    pub design: Runnable,
    pub report: Report,
}

/// What a run is to write.
#[derive(Drop)]
pub enum Answer {
    /// The usage line.
    Usage,
    /// The error line of a refusal.
    Refused(Refusal),
    /// The text of a report.
    Reported(Session),
}

/// Why nothing is to be written.
#[derive(Clone, Copy, Debug, PartialEq, Eq)]
pub(crate) enum Stop {
    NoMemory,
    ReadFault,
}

impl From<AllocError> for Stop {
    ghost from_gives = { λ _ e. e ≡ NoMemory };

    fn from(_: AllocError) -> Stop {
        Stop::NoMemory
    }
}

/// What the words and the texts lead to.
pub(crate) fn decide<X: Texts, M: Meter>(
    alloc: Global,
    words: &[&str],
    texts: &mut X,
    meter: &mut M,
) -> Result<Answer, Stop>
    requires total { M.total meter.old < 2 ^ 126 }
    ensures answer { IfOk result (IsAnswer (X.tells texts.old) (words_of words.now) (X.held texts.old)) }
    ensures spent { IfOk result (HasSpent (M.total meter.old) (M.total meter.new)) }
    ensures unspent { IsErrOf result Stop.ReadFault → M.total meter.new ≡ M.total meter.old }
    ensures spent_later { M.total meter.old ≤ M.total meter.new }
    ensures cause { IsErrOf result Stop.ReadFault → Rose (X.faults texts.old) (X.faults texts.new) }
    ensures no_fault { (¬ IsErrOf result Stop.ReadFault) → X.faults texts.new ≡ X.faults texts.old }
    ensures later { X.faults texts.old ≤ X.faults texts.new }
    ensures telling { X.tells texts.new ≡ X.tells texts.old }
    ensures holding { X.held texts.new ≡ X.held texts.old }
{
    if !is_form(words) {
        return Ok(Answer::Usage);
    }
    answer_files(alloc, words, texts, meter)
}

/// What the texts of files lead to.
fn answer_files<X: Texts, M: Meter>(
    alloc: Global,
    files: &[&str],
    texts: &mut X,
    meter: &mut M,
) -> Result<Answer, Stop>
    requires few { length files.now ≤ MAX_FILES }
    requires total { M.total meter.old < 2 ^ 126 }
    ensures answer { IfOk result (IsFilesAnswer (X.tells texts.old) (words_of files.now) (X.held texts.old)) }
    ensures spent { IfOk result (HasSpent (M.total meter.old) (M.total meter.new)) }
    ensures unspent { IsErrOf result Stop.ReadFault → M.total meter.new ≡ M.total meter.old }
    ensures spent_later { M.total meter.old ≤ M.total meter.new }
    ensures cause { IsErrOf result Stop.ReadFault → Rose (X.faults texts.old) (X.faults texts.new) }
    ensures no_fault { (¬ IsErrOf result Stop.ReadFault) → X.faults texts.new ≡ X.faults texts.old }
    ensures later { X.faults texts.old ≤ X.faults texts.new }
    ensures telling { X.tells texts.new ≡ X.tells texts.old }
    ensures holding { X.held texts.new ≡ X.held texts.old }
{
    match read_design(alloc, texts, files) {
        Ok(design) => {
            let report = run_control(alloc, &design, LINE_BUDGET, meter);
            let (design, report) = beside(design, report)?;
            Ok(Answer::Reported(Session { design, report }))
        }
        Err(FrontError::Refused(refusal)) => Ok(Answer::Refused(refusal)),
        Err(FrontError::NoMemory) => Err(Stop::NoMemory),
        Err(FrontError::ReadFault) => Err(Stop::ReadFault),
    }
}

/// Whether there are 1 to 256 words, and none begins with `-`.
fn is_form(words: &[&str]) -> bool
    ensures { result ≡ is_form (words_of words.now) }
{
    !words.is_empty() && words.len() <= MAX_FILES && are_names(words)
}

/// Whether no word begins with `-`.
fn are_names(words: &[&str]) -> bool
    ensures { result ≡ are_names (words_of words.now) }
{
    for word in words {
        if begins_with_dash(word.as_bytes()) {
            return false;
        }
    }
    true
}

fn begins_with_dash(word: &[u8]) -> bool
    ensures { result ≡ begins_with_dash word.now }
{
    matches!(word, [b'-', ..])
}

/// The status where all is written.
pub(crate) fn status_of_answer(answer: &Answer) -> u8
    ensures { result ≡ status_of answer.now }
{
    match answer {
        Answer::Usage => 4,
        Answer::Refused(_) => 3,
        Answer::Reported(session) => status_of(&session.report),
    }
}

/// The session of an answer, if it has one.
pub(crate) fn session_of(answer: Answer) -> Option<Session>
    ensures { result ≡ session_of answer }
{
    match answer {
        Answer::Reported(session) => Some(session),
        _ => None,
    }
}
