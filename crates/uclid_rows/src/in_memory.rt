//! Runs over texts and a sink in memory.

use std::alloc::{AllocError, Global};
use std::io;
use uc_io::{MemSink, MemTexts};
use uc_log::CountMeter;
use uclid::run;

/// The status of a run, whether it has a session, and what was written.
#[derive(Drop)]
pub(crate) struct Ended {
    pub(crate) status: u8,
    pub(crate) has_session: bool,
    pub(crate) written: Vec<u8>,
}

/// What the words find: the texts of `m.ucl` and of `n.ucl`, and the numbers of the calls that fail.
#[derive(Clone, Copy)]
pub(crate) struct World<'a> {
    pub(crate) first: &'a [u8],
    pub(crate) second: &'a [u8],
    pub(crate) failing_reads: &'a [u64],
    pub(crate) failing_writes: &'a [u64],
}

impl<'a> World<'a> {
    /// One text, and no call that fails.
    pub(crate) fn of(first: &'a [u8]) -> World<'a> {
        World {
            first,
            second: b"",
            failing_reads: &[],
            failing_writes: &[],
        }
    }
}

/// A run on these words. The sink takes ten bytes a call.
pub(crate) fn finish(alloc: Global, words: &[&str], world: &World) -> Result<Ended, AllocError> {
    let mut texts = texts_of(alloc, world)?;
    let mut sink = MemSink::new(alloc, 10, world.failing_writes.to_vec(alloc)?);
    let mut meter = CountMeter::new();
    let outcome = run(alloc, words, &mut texts, &mut sink, &mut meter);
    let has_session = outcome.session.is_some();
    let status = outcome.into_status();
    let written = sink.bytes().to_vec(alloc)?;
    Ok(Ended {
        status,
        has_session,
        written,
    })
}

fn texts_of(alloc: Global, world: &World) -> Result<MemTexts, AllocError> {
    let mut files = Vec::new(alloc);
    files.push(file_of(alloc, "m.ucl", world.first)?)?;
    files.push(file_of(alloc, "n.ucl", world.second)?)?;
    Ok(MemTexts::new(files, 4096, world.failing_reads.to_vec(alloc)?))
}

/// A text under its name.
pub(crate) fn file_of(
    alloc: Global,
    name: &str,
    text: &[u8],
) -> Result<(String, Vec<u8>), AllocError> {
    let text = text.to_vec(alloc)?;
    let name = String::from_str(alloc, name)?;
    Ok((name, text))
}

/// Prints what was written, and the status.
pub(crate) fn print_ended(rt: &HostRuntime, written: &[u8], status: u8) -> io::Result<()> {
    let text = String::from_utf8_lossy(rt.alloc(), written)?;
    print!(rt; "{text}")?;
    println!(rt; "status {status}")
}
