//! The verifier as a program: it reads the 1 to 256 files that its words name, judges their design, and writes the report.
#![tactic(auto)]

use std::alloc::{AllocError, Global};
use std::io::ErrorKind;
use std::process::ExitCode;
use std::{env, io};
use uc_files::{FileTexts, WriterSink};
use uc_log::CountMeter;
use uclid::run;

/// The status where there is no memory for the words of the command line.
const NO_WORDS: u8 = 7;

fn main(rt: HostRuntime) -> ExitCode {
    let Ok(words) = command_words(&rt) else {
        return ExitCode::from(NO_WORDS);
    };
    let Ok(words) = borrowed(rt.alloc(), &words) else {
        return ExitCode::from(NO_WORDS);
    };
    let mut texts = FileTexts::new(&rt);
    let mut out = WriterSink::new(io::writer(&rt));
    let mut meter = CountMeter::new();
    let outcome = run(rt.alloc(), &words, &mut texts, &mut out, &mut meter);
    ExitCode::from(outcome.into_status())
}

/// The words after the program's name; none where one of them is no UTF-8, which is no command line either.
fn command_words(rt: &HostRuntime) -> io::Result<Vec<String>> {
    let mut words = Vec::new(rt.alloc());
    match env::args(rt) {
        Ok(all) => {
            for word in all.skip(1) {
                words.push(word)?;
            }
            Ok(words)
        }
        Err(fault) if fault.kind() == ErrorKind::InvalidData => Ok(words),
        Err(fault) => Err(fault),
    }
}

fn borrowed(alloc: Global, words: &[String]) -> Result<Vec<&str>, AllocError> {
    let mut borrowed = Vec::new(alloc);
    for word in words {
        borrowed.push(word.as_str())?;
    }
    Ok(borrowed)
}
