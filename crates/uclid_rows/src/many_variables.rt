//! Designs of many free variables, whose texts are made.

use crate::in_memory::{World, finish, print_ended};
use std::alloc::{AllocError, Global};
use std::io;

pub(crate) fn print_rings(rt: &HostRuntime) -> io::Result<()> {
    for count in [20, 60, 200] {
        println!(rt; "# {count} variables that go round")?;
        let text = ring_of(rt.alloc(), count)?;
        let ended = finish(rt.alloc(), &["m.ucl"], &World::of(text.as_slice()))?;
        print_ended(rt, ended.written.as_slice(), ended.status)?;
    }
    Ok(())
}

/// The name of a variable: `x` and two letters.
fn put_name(text: &mut Vec<u8>, number: usize) -> Result<(), AllocError> {
    let high = b'a' + (number / 26 % 26) as u8;
    let low = b'a' + (number % 26) as u8;
    text.extend_from_slice(&[b'x', high, low])
}

/// The formula that the first variable and each implication from one variable to the next give the last one. Without the last
/// variable it is false where all variables are true.
fn put_chain(text: &mut Vec<u8>, count: usize, with_last: bool) -> Result<(), AllocError> {
    text.extend_from_slice(b"!")?;
    put_name(text, 0)?;
    for number in 1..count {
        text.extend_from_slice(b" || !(!")?;
        put_name(text, number - 1)?;
        text.extend_from_slice(b" || ")?;
        put_name(text, number)?;
        text.extend_from_slice(b")")?;
    }
    if with_last {
        text.extend_from_slice(b" || ")?;
        put_name(text, count.saturating_sub(1))?;
    }
    text.extend_from_slice(b";\n")
}

/// The declaration of the variables.
fn put_variables(text: &mut Vec<u8>, count: usize) -> Result<(), AllocError> {
    text.extend_from_slice(b"  var xaa")?;
    for number in 1..count {
        text.extend_from_slice(b", ")?;
        put_name(text, number)?;
    }
    text.extend_from_slice(b" : boolean;\n")
}

/// The step in which each variable takes the value of the one before it, and the first that of the last.
fn put_step(text: &mut Vec<u8>, count: usize) -> Result<(), AllocError> {
    text.extend_from_slice(b"  next {\n")?;
    for number in 0..count {
        let before = if number == 0 { count - 1 } else { number - 1 };
        put_name(text, number)?;
        text.extend_from_slice(b"' = ")?;
        put_name(text, before)?;
        text.extend_from_slice(b";\n")?;
    }
    text.extend_from_slice(b"  }\n")
}

/// A design of variables without first values, which go round in each step.
fn put_ring(text: &mut Vec<u8>, count: usize) -> Result<(), AllocError> {
    text.extend_from_slice(b"module main {\n")?;
    put_variables(text, count)?;
    put_step(text, count)?;
    text.extend_from_slice(b"  invariant whole : ")?;
    put_chain(text, count, true)?;
    text.extend_from_slice(b"  invariant open : ")?;
    put_chain(text, count, false)?;
    text.extend_from_slice(b"  control { unroll(1); check; print_results; }\n}\n")
}

fn ring_of(alloc: Global, count: usize) -> Result<Vec<u8>, AllocError> {
    let mut text = Vec::new(alloc);
    put_ring(&mut text, count)?;
    Ok(text)
}
