use crate::layout::layout_of;
use Now::{At, Pair, Truth, Whole};
use Outcome::{Leaves, NoMemory, NoStep, NotRead, Steps};
use std::alloc::{AllocError, Global};
use std::process::Abort;
use std::test::Fail;
use uc_checks::step_holds;
use uc_items::{Boxed, Items, beside};
use uc_layout::Layout;
use uc_meaning::{Interp, State, WideOp};
use uc_operators::EvalError;
use uc_values::Value;

/// What a cell is in the new state.
#[derive(Clone, Copy)]
enum Now {
    Whole(i128),
    Truth(bool),
    /// The array f, which is 5 at 3, with this number at another index.
    At(i128, i128),
    Pair(i128, bool),
}

/// What comes of two states.
#[derive(Clone, Copy, Debug, PartialEq, Eq)]
enum Outcome {
    /// A step, and how many sites are listed.
    Steps(usize),
    NoStep,
    /// An operation of this kind leaves 128 bits.
    Leaves(WideOp),
    NoMemory,
    NotRead,
}

/// A step of main by its `next` block, the cells that are other in the new state, the choices that there are, and what comes of it.
type Row = (
    &'static [u8],
    &'static [(usize, Now)],
    &'static [i128],
    Outcome,
);

/// What stands before a `next` block, and behind it. The cells are port, x, y, big, w, q, f and p of main, and then z of its instance.
const FRONT: &[u8] =
    b"module main { type r = record { a : integer, b : boolean }; input port : integer; var x, y, big, w : integer; var q : boolean; var f : [integer]integer; var p : r; procedure twice(n : integer) returns (m : integer) requires n > 1; modifies y; { m = n + n; y = n; } instance i : sub(bound : (x), out : (w)); next { ";

const BACK: &[u8] =
    b" } } module sub { input bound : integer; output out : integer; var z : integer; next { z' = bound'; out' = z + bound; } }";

const PORT: usize = 0;

const X: usize = 1;

const Y: usize = 2;

const W: usize = 4;

const Q: usize = 5;

const F: usize = 6;

const P: usize = 7;

const Z: usize = 8;

/// The old state: port is 0, x is 1, y is 2, big is 2^127 - 1, w is 0, q is false, f is 5 at 3 and else 0, p is (2, true) and z is 6.
const OLD: [Now; 9] = [
    Whole(0),
    Whole(1),
    Whole(2),
    Whole(i128::MAX),
    Whole(0),
    Truth(false),
    At(3, 5),
    Pair(2, true),
    Whole(6),
];

const ROWS: [Row; 46] = [
    (b"", &[], &[], Steps(0)),
    (b"", &[(PORT, Whole(9))], &[], Steps(0)),
    (b"", &[(Y, Whole(9))], &[], NoStep),
    (b"", &[], &[5], NoStep),
    (b"x' = y + 1;", &[(X, Whole(3))], &[], Steps(0)),
    (b"x' = y + 1;", &[(X, Whole(4))], &[], NoStep),
    (b"x' = y + 1;", &[(X, Whole(3)), (Y, Whole(9))], &[], NoStep),
    (
        b"x', y' = y, x;",
        &[(X, Whole(2)), (Y, Whole(1))],
        &[],
        Steps(0),
    ),
    (
        b"x', y' = y, x;",
        &[(X, Whole(2)), (Y, Whole(2))],
        &[],
        NoStep,
    ),
    (
        b"x' = 4; y' = x' + x;",
        &[(X, Whole(4)), (Y, Whole(5))],
        &[],
        Steps(0),
    ),
    (
        b"x' = 4; y' = x' + x;",
        &[(X, Whole(4)), (Y, Whole(8))],
        &[],
        NoStep,
    ),
    (b"f'[x] = 7;", &[(F, At(1, 7))], &[], Steps(0)),
    (b"f'[x] = 7;", &[(F, At(2, 7))], &[], NoStep),
    (b"f'[3] = 5;", &[], &[], Steps(0)),
    (b"p'.a = 8;", &[(P, Pair(8, true))], &[], Steps(0)),
    (b"p'.a = 8;", &[(P, Pair(8, false))], &[], NoStep),
    (
        b"p'.a = 8; p'.b = q;",
        &[(P, Pair(8, false))],
        &[],
        Steps(0),
    ),
    (b"havoc x';", &[(X, Whole(99))], &[], Steps(0)),
    (b"havoc x';", &[(Y, Whole(99))], &[], NoStep),
    (
        b"assert x == 1; assert x == 2; assert q;",
        &[],
        &[],
        Steps(2),
    ),
    (
        b"for k in range(1, 3) { assert k == 2; }",
        &[],
        &[],
        Steps(1),
    ),
    (b"assume x == 1; x' = 7;", &[(X, Whole(7))], &[], Steps(0)),
    (b"assume x == 2; x' = 7;", &[(X, Whole(7))], &[], NoStep),
    (
        b"assume x' == 7; havoc x';",
        &[(X, Whole(7))],
        &[],
        Steps(0),
    ),
    (
        b"if (x == 1) { y' = 3; } else { y' = 4; }",
        &[(Y, Whole(3))],
        &[],
        Steps(0),
    ),
    (
        b"if (x == 1) { y' = 3; } else { y' = 4; }",
        &[(Y, Whole(4))],
        &[],
        NoStep,
    ),
    (b"if (q) { y' = 3; }", &[], &[], Steps(0)),
    (b"q' = x == 1;", &[(Q, Truth(true))], &[], Steps(0)),
    (
        b"case q : { y' = 3; } x == 1 : { y' = 4; } esac",
        &[(Y, Whole(4))],
        &[],
        Steps(0),
    ),
    (
        b"for k in range(1, 1) { f'[k] = k + 7; }",
        &[(F, At(1, 8))],
        &[],
        Steps(0),
    ),
    (b"next (i);", &[(Z, Whole(1)), (W, Whole(7))], &[], Steps(0)),
    (b"next (i);", &[(Z, Whole(1)), (W, Whole(8))], &[], NoStep),
    (
        b"x' = 4; next (i);",
        &[(X, Whole(4)), (Z, Whole(4)), (W, Whole(7))],
        &[],
        Steps(0),
    ),
    (
        b"x' = 4; next (i);",
        &[(X, Whole(4)), (Z, Whole(1)), (W, Whole(7))],
        &[],
        NoStep,
    ),
    (
        b"x' = 4; next (i);",
        &[(X, Whole(4)), (Z, Whole(4)), (W, Whole(10))],
        &[],
        NoStep,
    ),
    (
        b"call (x') = twice(4);",
        &[(X, Whole(8)), (Y, Whole(4))],
        &[0],
        Steps(0),
    ),
    (b"call (x') = twice(4);", &[(X, Whole(8))], &[0], NoStep),
    (
        b"call (x') = twice(4);",
        &[(X, Whole(8)), (Y, Whole(4))],
        &[],
        NoStep,
    ),
    (
        b"call (x') = twice(4);",
        &[(X, Whole(8)), (Y, Whole(4))],
        &[0, 0],
        NoStep,
    ),
    (
        b"x' = 5; call (f'[x]) = twice(x);",
        &[(X, Whole(5)), (Y, Whole(1)), (F, At(1, 2))],
        &[0],
        Steps(1),
    ),
    (
        b"x' = 5; call (f'[x]) = twice(x);",
        &[(X, Whole(5)), (Y, Whole(5)), (F, At(1, 10))],
        &[0],
        NoStep,
    ),
    (b"x' = big + 1;", &[], &[], Leaves(WideOp::Add)),
    (b"f'[big * big] = 1;", &[], &[], Leaves(WideOp::Mul)),
    (b"assume q; x' = big + 1;", &[], &[], NoStep),
    (b"y' = 3; x' = big + 1;", &[], &[], NoStep),
    (b"call (x') = twice(big);", &[], &[0], Leaves(WideOp::Add)),
];

/// The array of whole numbers that is 5 at 3, and else 0, with a number at another index.
fn array(alloc: Global, index: i128, number: i128) -> Result<Value, AllocError> {
    let mut exceptions = Items::new(alloc);
    exceptions.push((Value::Int(3), Value::Int(5)))?;
    if index != 3 {
        exceptions.push((Value::Int(index), Value::Int(number)))?;
    }
    Ok(Value::Arr(Boxed::new(alloc, Value::Int(0))?, exceptions))
}

fn pair(alloc: Global, number: i128, truth: bool) -> Result<Value, AllocError> {
    let mut parts = Items::new(alloc);
    parts.push(Value::Int(number))?;
    parts.push(Value::Bool(truth))?;
    Ok(Value::Rec(parts))
}

fn value(alloc: Global, now: Now) -> Result<Value, AllocError> {
    match now {
        Whole(number) => Ok(Value::Int(number)),
        Truth(truth) => Ok(Value::Bool(truth)),
        At(index, number) => array(alloc, index, number),
        Pair(number, truth) => pair(alloc, number, truth),
    }
}

fn changed(changes: &[(usize, Now)], place: usize, old: Now) -> Now {
    for (cell, now) in changes {
        if *cell == place {
            return *now;
        }
    }
    old
}

/// The old state with other values of some cells.
fn state(alloc: Global, changes: &[(usize, Now)]) -> Result<State, AllocError> {
    let mut cells = Items::new(alloc);
    for (place, old) in OLD.iter().enumerate() {
        cells.push(value(alloc, changed(changes, place, *old))?)?;
    }
    Ok(State { cells })
}

fn choices(alloc: Global, numbers: &[i128]) -> Result<Items<Value>, AllocError> {
    let mut choices = Items::new(alloc);
    for number in numbers {
        choices.push(Value::Int(*number))?;
    }
    Ok(choices)
}

fn judged(alloc: Global, layout: &Layout, old: &State, new: &State, choices: &[Value]) -> Outcome {
    let interp = Interp {
        consts: Items::new(alloc),
        tables: Items::new(alloc),
    };
    match step_holds(alloc, layout, &interp, old, new, choices) {
        Ok(Some(sites)) => Steps(sites.len()),
        Ok(None) => NoStep,
        Err(EvalError::Wide(wide)) => Leaves(wide.op),
        Err(EvalError::NoMemory) => NoMemory,
    }
}

fn outcome_in(
    alloc: Global,
    text: &[u8],
    old: &State,
    new: &State,
    choices: &[Value],
) -> Result<Outcome, AllocError> {
    match layout_of(alloc, text)? {
        Some(layout) => Ok(judged(alloc, &layout, old, new, choices)),
        None => Ok(NotRead),
    }
}

fn step(
    alloc: Global,
    text: &[u8],
    changes: &[(usize, Now)],
    numbers: &[i128],
) -> Result<Outcome, AllocError> {
    let old = state(alloc, &[])?;
    let states = beside(old, state(alloc, changes))?;
    let (states, choices) = beside(states, choices(alloc, numbers))?;
    outcome_in(alloc, text, &states.0, &states.1, choices.as_slice())
}

#[test]
fn steps_are_as_it_says(rt: HostRuntime) -> Result<(), Fail> {
    let alloc = rt.alloc();
    for (code, changes, choices, expected) in ROWS {
        let mut text = Vec::from_slice(alloc, FRONT)?;
        text.extend_from_slice(code)?;
        text.extend_from_slice(BACK)?;
        let found = step(alloc, text.as_slice(), changes, choices)?;
        assert_eq!(rt; found, expected, "{code:?}");
    }
    Ok(())
}
