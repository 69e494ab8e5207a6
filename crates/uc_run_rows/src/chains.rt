//! Chains of uses as long as an accepted design may have them.

use crate::formulas::{Answer, judged, scope_of_main};
use std::alloc::{AllocError, Global};
use std::process::Abort;
use std::test::Fail;
use uc_items::Items;
use uc_meaning::{Interp, Scope, State};
use uc_values::Value;

/// A design with so many defines, each of which is the next. The last is an output of an instance, which is bound to the variable of main.
fn with_defines(alloc: Global, count: u32) -> Result<Vec<u8>, AllocError> {
    let mut text = Vec::from_slice(
        alloc,
        b"module main { var x : boolean; instance i : sub(o : (x)); invariant row : d1(); ",
    )?;
    for number in 1..count {
        let next = number + 1;
        let define = format!(in alloc; "define d{number}() : boolean = d{next}(); ")?;
        text.extend_from_slice(define.as_bytes())?;
    }
    let last = format!(in alloc; "define d{count}() : boolean = i.o; }} ")?;
    text.extend_from_slice(last.as_bytes())?;
    text.extend_from_slice(b"module sub { output o : boolean; }")?;
    Ok(text)
}

/// The scope where the variable is true.
fn scope(alloc: Global) -> Result<Scope, AllocError> {
    let mut cells = Items::new(alloc);
    cells.push(Value::Bool(true))?;
    let interp = Interp {
        consts: Items::new(alloc),
        tables: Items::new(alloc),
    };
    Ok(scope_of_main(alloc, State { cells }, interp))
}

#[test]
fn an_output_behind_32_defines_is_what_it_is_bound_to(rt: HostRuntime) -> Result<(), Fail> {
    let alloc = rt.alloc();
    let scope = scope(alloc)?;
    for count in [1, 31, 32] {
        let text = with_defines(alloc, count)?;
        let answer = judged(alloc, &scope, text.as_slice())?;
        assert_eq!(rt; answer, Answer::True);
    }
    Ok(())
}
