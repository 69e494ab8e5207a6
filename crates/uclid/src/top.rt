//! The top call.

ghost use Rattle.std.specs.Prelude.{◌≡◌, ◌≤◌, ◌<◌, ◌^◌, None};
ghost use Rattle.uc_front.specs.Sources.{words_of};
ghost use Rattle.uclid.specs.Runs.{Ends, HasWritten, HasPaid};

use crate::answer::{Answer, Session, Stop, decide, session_of, status_of_answer};
use crate::lines::text_of;
use std::alloc::Global;
use uc_io::{Sink, Texts, write_whole};
use uc_items::beside;
use uc_log::Meter;

/// How a run ended. The session is there where a report was to be written.
#[derive(Drop)]
pub struct Outcome {
    pub status: u8,
    pub session: Option<Session>,
}

impl Outcome {
    /// The status alone. A session is dropped here, so no program needs the proof that this is done rightly.
    pub fn into_status(self) -> u8
        ensures { result ≡ self.status }
    {
        let status = self.status;
        drop(self);
        status
    }
}

/// Reads the files that the words name, in order, judges their design, and writes the report.
///
/// Each line may spend 2^20 entries of a log, which the meter counts. Statuses: 0 where all lines passed, 1 where one failed, else 2
/// where one is undecided, 3 where the texts are refused (an error line is written), 4 where the words are not 1 to 256 names, of which
/// none begins with `-` (the usage line is written), 5 after a fault of the texts, 6 after a fault of the sink, 7 for want of memory.
pub fn run<X: Texts, K: Sink, M: Meter>(
    alloc: Global,
    words: &[&str],
    texts: &mut X,
    out: &mut K,
    meter: &mut M,
) -> Outcome
    requires total { M.total meter.old < 2 ^ 126 }
    ensures ends { Ends
        (record { tells = X.tells texts.old; held = X.held texts.old; faults = X.faults texts.old; faults_after = X.faults texts.new })
        (words_of words.now)
        (record { tells = K.tells out.old; taken = K.taken out.old; taken_after = K.taken out.new; faults = K.faults out.old; faults_after = K.faults out.new })
        result }
    ensures spent { HasPaid (M.total meter.old) (M.total meter.new) result }
    ensures unspent { result.session ≡ None → (¬ (result.status ≡ 7)) → M.total meter.new ≡ M.total meter.old }
    ensures texts_still { (¬ (result.status ≡ 5)) → X.faults texts.new ≡ X.faults texts.old }
    ensures texts_later { X.faults texts.old ≤ X.faults texts.new }
    ensures sink_still { (¬ (result.status ≡ 6)) → K.faults out.new ≡ K.faults out.old }
    ensures sink_later { K.faults out.old ≤ K.faults out.new }
    ensures texts_telling { X.tells texts.new ≡ X.tells texts.old }
    ensures sink_telling { K.tells out.new ≡ K.tells out.old }
    ensures holding { X.held texts.new ≡ X.held texts.old }
{
    match decide(alloc, words, texts, meter) {
        Ok(answer) => written(alloc, words, answer, out),
        Err(Stop::ReadFault) => stopped(5),
        Err(Stop::NoMemory) => stopped(7),
    }
}

/// Writes the text of an answer.
fn written<K: Sink>(alloc: Global, words: &[&str], answer: Answer, out: &mut K) -> Outcome
    ensures ends { HasWritten (words_of words.now) answer
        (record { tells = K.tells out.old; taken = K.taken out.old; taken_after = K.taken out.new; faults = K.faults out.old; faults_after = K.faults out.new })
        result }
    ensures still { (¬ (result.status ≡ 6)) → K.faults out.new ≡ K.faults out.old }
    ensures later { K.faults out.old ≤ K.faults out.new }
    ensures telling { K.tells out.new ≡ K.tells out.old }
{
    let text = text_of(alloc, words, &answer);
    let Ok((answer, text)) = beside(answer, text) else {
        return stopped(7);
    };
    let status = status_of_answer(&answer);
    let session = session_of(answer);
    match write_whole(out, text.as_slice()) {
        Ok(()) => Outcome { status, session },
        Err(_) => Outcome { status: 6, session },
    }
}

/// The outcome of a run that has written nothing.
fn stopped(status: u8) -> Outcome
    ensures status { result.status ≡ status }
    ensures session { result.session ≡ None }
{
    Outcome {
        status,
        session: None,
    }
}
