ghost use Rattle.std.specs.Prelude.{◌≡◌, ◌≤◌, ◌++◌, List, ℕ, IsTrue, Some, None};
ghost use Rattle.uc_io.specs.Faults.{Rose};
ghost use Rattle.uc_io.specs.Sink.{GrewByFront};

use std::alloc::{AllocError, Global};
use std::process::Abort;
use std::test::Fail;
use uc_io::{MemSink, MemTexts, ReadError, Sink, Texts, read_all, write_whole};

#[derive(Clone, Copy, Debug, PartialEq, Eq)]
enum Copied {
    Whole,
    NotRead(ReadError),
    NotWritten,
}

/// A program over any texts and any sink: its own clauses follow from those of the two calls that it makes.
fn copy<X: Texts, K: Sink>(alloc: Global, texts: &mut X, name: &str, sink: &mut K) -> Copied
    ensures whole { result ≡ Copied.Whole → IsTrue (X.tells texts.old) → IsTrue (K.tells sink.old) →
        (text : List ℕ) × (X.held texts.old name.now ≡ Some text) × (K.taken sink.new ≡ K.taken sink.old ++ text) }
    ensures not_read { result ≡ Copied.NotRead ReadError.ReadFault → Rose (X.faults texts.old) (X.faults texts.new) }
    ensures no_text { result ≡ Copied.NotRead ReadError.NoText → IsTrue (X.tells texts.old) →
        X.held texts.old name.now ≡ None }
    ensures not_written { result ≡ Copied.NotWritten → Rose (K.faults sink.old) (K.faults sink.new) }
    ensures front { result ≡ Copied.NotWritten → IsTrue (X.tells texts.old) → IsTrue (K.tells sink.old) →
        (text : List ℕ) × (X.held texts.old name.now ≡ Some text)
        × GrewByFront (K.taken sink.old) (K.taken sink.new) text }
{
    match read_all(alloc, texts, name, 1000) {
        Ok(text) => match write_whole(sink, &text) {
            Ok(()) => Copied::Whole,
            Err(WriteFault) => Copied::NotWritten,
        },
        Err(error) => Copied::NotRead(error),
    }
}

/// The letters from a to z, an empty text, and one more text of the first name.
fn texts(alloc: Global, piece: usize, fails: &[u64]) -> Result<MemTexts, AllocError>
    requires { 1 ≤ piece }
{
    let mut files = Vec::new(alloc);
    for (name, text) in [("letters", LETTERS), ("empty", ""), ("letters", "later")] {
        files.push((
            String::from_str(alloc, name)?,
            text.as_bytes().to_vec(alloc)?,
        ))?;
    }
    Ok(MemTexts::new(files, piece, fails.to_vec(alloc)?))
}

const LETTERS: &str = "abcdefghijklmnopqrstuvwxyz";

/// The letters, read in pieces.
fn letters(alloc: Global, piece: usize, fails: &[u64], limit: u64) -> Result<Vec<u8>, ReadError>
    requires { 1 ≤ piece }
{
    let mut texts = texts(alloc, piece, fails)?;
    read_all(alloc, &mut texts, "letters", limit)
}

fn check_letters(rt: &impl Abort, alloc: Global, piece: usize, limit: u64) -> Result<(), ReadError>
    requires { 1 ≤ piece }
{
    let text = letters(alloc, piece, &[], limit)?;
    assert_eq!(rt; text.as_slice(), LETTERS.as_bytes(), "in pieces of {piece}");
    Ok(())
}

#[test]
fn a_text_comes_whole_in_pieces(rt: HostRuntime) -> Result<(), Fail> {
    for (piece, limit) in [(1, 26), (10, 26), (26, 27), (100, u64::MAX)] {
        check_letters(&rt, rt.alloc(), piece, limit)?;
    }
    Ok(())
}

/// How many bytes are read of a text in pieces of 10.
fn length_of(alloc: Global, name: &str, limit: u64) -> Result<usize, ReadError> {
    let mut texts = texts(alloc, 10, &[])?;
    let text = read_all(alloc, &mut texts, name, limit)?;
    Ok(text.len())
}

#[test]
fn each_refusal_has_its_cause(rt: HostRuntime) {
    let cases = [
        ("letters", 25, Err(ReadError::TooLong)),
        ("letters", 0, Err(ReadError::TooLong)),
        ("letter", 26, Err(ReadError::NoText)),
        ("", 26, Err(ReadError::NoText)),
        ("empty", 0, Ok(0)),
        ("letters", 26, Ok(26)),
    ];
    for (name, limit, wanted) in cases {
        assert_eq!(rt;
            length_of(rt.alloc(), name, limit),
            wanted,
            "{name} up to {limit}"
        );
    }
}

/// How many letters are read in pieces of 10, where a call fails.
fn letters_but(alloc: Global, call: u64) -> Result<usize, ReadError> {
    let text = letters(alloc, 10, &[call], 100)?;
    Ok(text.len())
}

#[test]
fn a_text_fails_at_each_of_its_reads_in_turn(rt: HostRuntime) -> Result<(), Fail> {
    let alloc = rt.alloc();
    // One call opens it, three give 10, 10 and 6 bytes, and one finds the end.
    for call in 0..5 {
        assert_eq!(rt;
            letters_but(alloc, call),
            Err(ReadError::ReadFault),
            "at call {call}"
        );
    }
    let read = letters(alloc, 10, &[5, 6], 100)?;
    assert_eq!(rt; read.as_slice(), LETTERS.as_bytes());
    Ok(())
}

/// Copies the letters, in pieces of 7 bytes.
fn copy_letters(alloc: Global, sink: &mut MemSink) -> Result<Copied, AllocError> {
    let mut texts = texts(alloc, 7, &[])?;
    Ok(copy(alloc, &mut texts, "letters", sink))
}

/// Copies to a sink that fails at a call.
fn check_copy(
    rt: &impl Abort,
    alloc: Global,
    call: u64,
    wanted: Copied,
    front: &[u8],
) -> Result<(), AllocError> {
    let mut sink = MemSink::new(alloc, 10, vec![in alloc; call]?);
    let copied = copy_letters(alloc, &mut sink)?;
    assert_eq!(rt; copied, wanted, "at call {call}");
    assert_eq!(rt; sink.bytes(), front, "at call {call}");
    Ok(())
}

#[test]
fn a_sink_fails_at_each_of_its_writes_in_turn(rt: HostRuntime) -> Result<(), Fail> {
    for (call, taken) in [(0, 0), (1, 10), (2, 20), (3, 26)] {
        let wanted = if call < 3 {
            Copied::NotWritten
        } else {
            Copied::Whole
        };
        let front = LETTERS.as_bytes().get(..taken).ok_or("26 letters")?;
        check_copy(&rt, rt.alloc(), call, wanted, front)?;
    }
    Ok(())
}
