//! The bytes of an answer.

ghost use Rattle.std.specs.Prelude.{◌≡◌, ◌++◌, ◌<◌, decimal, length, IfOk, OnOk};
ghost use Rattle.uclid.specs.Answers.{error_line, text_of, word_at};
ghost use Rattle.uc_front.specs.Sources.{words_of};
ghost use Rattle.uc_report.specs.ControlText.{report_text};

use crate::answer::{Answer, Session};
use itoa::Buffer;
use std::alloc::{AllocError, Global};
use uc_front::Refusal;
use uc_judge::shown_design;
use uc_report::report_text;

const USAGE: &[u8] =
    b"usage: uclid [--main NAME] [--budget N] FILE... or uclid --ring N [--budget N]\n";

/// The text of an answer for these words.
pub(crate) fn text_of(alloc: Global, words: &[&str], answer: &Answer) -> Result<Vec<u8>, AllocError>
    ensures { IfOk result (λ text. text.items ≡ text_of (words_of words.now) answer.now) }
{
    match answer {
        Answer::Usage => Vec::from_slice(alloc, USAGE),
        Answer::Refused(refusal) => {
            let file = word_at(words, usize::from(refusal.place().file));
            error_line(alloc, file, *refusal)
        }
        Answer::Reported(session) => session_text(alloc, session),
    }
}

/// The word of a number, none where there is none.
fn word_at<'a>(words: &[&'a str], number: usize) -> &'a [u8]
    ensures { result.now ≡ word_at (words_of words.now) number }
{
    match words.get(number) {
        Some(word) => word.as_bytes(),
        None => &[],
    }
}

fn session_text(alloc: Global, session: &Session) -> Result<Vec<u8>, AllocError>
    ensures { IfOk result (λ text. text.items ≡ report_text session.now.design session.now.report) }
{
    report_text(alloc, &shown_design(&session.design), &session.report)
}

/// The line of a refusal.
#[tactic(auto, unfolding(crate::specs::Answers::error_line))]
fn error_line(alloc: Global, file: &[u8], refusal: Refusal) -> Result<Vec<u8>, AllocError>
    ensures { IfOk result (λ text. text.items ≡ error_line file.now refusal) }
{
    let place = refusal.place();
    let mut line = Vec::new(alloc);
    put(&mut line, b"error ")?;
    put_number(&mut line, refusal.number())?;
    put(&mut line, b" in ")?;
    put(&mut line, file)?;
    put(&mut line, b" at line ")?;
    put_number(&mut line, place.line)?;
    put(&mut line, b", column ")?;
    put_number(&mut line, place.col)?;
    put(&mut line, b"\n")?;
    Ok(line)
}

fn put(out: &mut Vec<u8>, bytes: &[u8]) -> Result<(), AllocError>
    ensures { OnOk result (out.new.items ≡ out.old.items ++ bytes.now) }
{
    out.extend_from_slice(bytes)
}

fn put_number(out: &mut Vec<u8>, number: u32) -> Result<(), AllocError>
    ensures { OnOk result (out.new.items ≡ out.old.items ++ decimal number) }
{
    let mut buffer = Buffer::new();
    put(out, buffer.format(number).as_bytes())
}
