//! Calls of the texts and of the sink that fail, each in its turn, and words and texts past the limits.

use crate::in_memory::{Ended, World, finish, print_ended};
use std::alloc::{AllocError, Global};
use std::io;

const TOGGLE: &[u8] =
    b"module main { var x : boolean; init { x = true; } next { x' = !x; } invariant any : x || !x; control { unroll(2); check; print_results; } }";

pub(crate) fn print_faults(rt: &HostRuntime) -> io::Result<()> {
    print_limits(rt)?;
    for call in 0..4 {
        let ended = run_failing(rt.alloc(), &[call], &[])?;
        println!(rt; "# call {call} of the texts fails")?;
        print_ended(rt, ended.written.as_slice(), ended.status)?;
    }
    let whole = run_failing(rt.alloc(), &[], &[])?;
    for call in 0..21 {
        let ended = run_failing(rt.alloc(), &[], &[call])?;
        println!(rt; "# call {call} of the sink fails")?;
        print_front(rt, whole.written.as_slice(), &ended)?;
    }
    Ok(())
}

fn run_failing(alloc: Global, reads: &[u64], writes: &[u64]) -> Result<Ended, AllocError> {
    let world = World {
        failing_reads: reads,
        failing_writes: writes,
        ..World::of(TOGGLE)
    };
    finish(alloc, &["m.ucl"], &world)
}

/// Prints how much of the report was written, and whether there is a session.
fn print_front(rt: &HostRuntime, report: &[u8], ended: &Ended) -> io::Result<()> {
    let count = ended.written.len();
    let is_front = report.get(..count) == Some(ended.written.as_slice());
    let of = if is_front {
        "of the report"
    } else {
        "of another text"
    };
    let session = if ended.has_session {
        "a session"
    } else {
        "no session"
    };
    println!(rt; "{count} bytes {of}, {session}")?;
    println!(rt; "status {}", ended.status)
}

/// Texts of blanks at the limit and past it, alone and together: how many are in the first, and how many in the second.
const BLANKS: [(usize, usize); 3] = [(9_000_000, 9_000_000), (16_777_216, 0), (16_777_217, 0)];

/// One file too many, and texts that are large.
fn print_limits(rt: &HostRuntime) -> io::Result<()> {
    println!(rt; "# 257 files")?;
    let ended = finish(rt.alloc(), &["m.ucl"; 257], &World::of(TOGGLE))?;
    print_ended(rt, ended.written.as_slice(), ended.status)?;
    for (first, second) in BLANKS {
        print_blanks(rt, first, second)?;
    }
    Ok(())
}

fn print_blanks(rt: &HostRuntime, first: usize, second: usize) -> io::Result<()> {
    let alloc = rt.alloc();
    println!(rt; "# texts of {first} and {second} blanks")?;
    let first = vec![in alloc; b' '; first]?;
    let second = vec![in alloc; b' '; second]?;
    let world = World {
        second: second.as_slice(),
        ..World::of(first.as_slice())
    };
    let ended = finish(alloc, &["m.ucl", "n.ucl"], &world)?;
    print_ended(rt, ended.written.as_slice(), ended.status)
}
