//! Worked rows of the whole verifier. Each line of the file `rows` has the words of one command line, which name files beside it. What each
//! run writes, and its status, are printed. Behind them come runs that no line of the file can have: texts and a sink in memory, whose calls
//! fail in turn, texts past the limit, designs of many variables, other budgets. The gate compares all of it with what is wanted.
#![tactic(auto)]

mod budgets;
mod faults;
mod in_memory;
mod many_variables;

use crate::budgets::print_budgets;
use crate::faults::print_faults;
use crate::many_variables::print_rings;
use std::alloc::{AllocError, Global};
use std::{fs, io};
use uc_files::{FileTexts, WriterSink};
use uc_log::CountMeter;
use uclid::run;

fn main(rt: HostRuntime) -> io::Result<()> {
    print_rows(&rt)?;
    print_faults(&rt)?;
    print_rings(&rt)?;
    print_budgets(&rt)
}

fn print_rows(rt: &HostRuntime) -> io::Result<()> {
    let rows = fs::read_to_string(rt, "rows")?;
    for row in rows.lines() {
        println!(rt; "$ uclid {row}")?;
        let status = status_of(rt, row)?;
        println!(rt; "status {status}")?;
    }
    Ok(())
}

/// Runs the verifier on the words of a row, and answers its status.
fn status_of(rt: &HostRuntime, row: &str) -> Result<u8, AllocError> {
    let words = words_of(rt.alloc(), row)?;
    let mut texts = FileTexts::new(rt);
    let mut out = WriterSink::new(io::writer(rt));
    let mut meter = CountMeter::new();
    let outcome = run(rt.alloc(), &words, &mut texts, &mut out, &mut meter);
    Ok(outcome.into_status())
}

fn words_of(alloc: Global, row: &str) -> Result<Vec<&str>, AllocError> {
    let mut words = Vec::new(alloc);
    for word in row.split_whitespace() {
        words.push(word)?;
    }
    Ok(words)
}
