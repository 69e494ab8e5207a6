//! A design of one boolean that is false at first and turned at each step where a constant is true: the lines of the formula that it is
//! false, after up to three steps, each with its verdict, and of a failed line the values of the constant and of the last cell.
#![tactic(auto)]

mod judging;
mod toggle;

use crate::judging::judged;
use std::test::Fail;
use uc_flat_lines::{FlatVerdict, FlatWhy};
use uc_items::at;
use uc_values::Value;

fn main(rt: HostRuntime) -> Result<(), Fail> {
    let lines = judged(rt.alloc())?;
    let lines = lines.as_slice();
    for line in lines {
        let steps = line.steps;
        let formula = line.formula;
        match &line.verdict {
            FlatVerdict::Passed => println!(rt; "after {steps} steps formula {formula} passed")?,
            FlatVerdict::Failed(trace) => {
                let run = match at(trace.copies.as_slice(), 0) {
                    Some(only) => only.as_slice(),
                    None => &[],
                };
                let positions = run.len();
                let constant = word(at(trace.constants.as_slice(), 0));
                let cell = match at(run, steps as usize) {
                    Some(last) => word(at(last.cells.as_slice(), 0)),
                    None => "missing",
                };
                println!(rt;
                    "after {steps} steps formula {formula} failed by {positions} positions: constant {constant}, cell {cell}"
                )?
            }
            FlatVerdict::Undef(FlatWhy::Memory) => println!(rt;
                "after {steps} steps formula {formula} wants memory"
            )?,
            FlatVerdict::Undef(FlatWhy::Budget) => println!(rt;
                "after {steps} steps formula {formula} spent its budget"
            )?,
        }
    }
    Ok(())
}

fn word(value: Option<&Value>) -> &'static str {
    match value {
        Some(Value::Bool(true)) => "true",
        Some(Value::Bool(false)) => "false",
        _ => "missing",
    }
}
