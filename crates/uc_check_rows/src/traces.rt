use crate::layout::layout_of;
use Outcome::{Accepted, Leaves, NoMemory, NotRead, Refused};
use Part::{Bits, Numbers, Pairs, Whole, Words};
use Subject::{Exit, Formula, SiteAt};
use std::alloc::{AllocError, Global};
use std::process::Abort;
use std::test::Fail;
use uc_checks::accepts_trace;
use uc_items::{Boxed, Items, beside};
use uc_layout::Layout;
use uc_meaning::{At, Choices, Interp, Line, Path, Site, State, Trace, What, WideOp};
use uc_operators::EvalError;
use uc_syntax::Place;
use uc_values::{Table, Value};

/// A cell, or a choice.
#[derive(Clone, Copy)]
enum Part {
    Whole(i128),
    Bits(u8, u64),
    /// An array of numbers with its default and the elements at some numbers.
    Numbers(i128, &'static [(i128, i128)]),
    /// The same at truth values.
    Pairs(i128, &'static [(bool, i128)]),
    /// An array of bytes at two bits, the same at each index.
    Words(u64),
}

/// What a line judges: a declaration of main by its number, a site of main by its column and number, or an `ensures`.
#[derive(Clone, Copy)]
enum Subject {
    Formula(u32),
    SiteAt(u32, u32),
    Exit(u32),
}

/// What comes of a trace.
#[derive(Clone, Copy, Debug, PartialEq, Eq)]
enum Outcome {
    Accepted,
    Refused,
    /// An operation of this kind leaves 128 bits.
    Leaves(WideOp),
    NoMemory,
    NotRead,
}

/// The cells, and the choices that led to them.
type Position = (&'static [Part], &'static [Part]);

type Run = &'static [Position];

/// A text, when a line is judged, its subject, the copies, how many functions there are, and what comes of the trace.
type Row = (&'static [u8], At, Subject, &'static [Run], usize, Outcome);

const SWAPPED: &[u8] =
    b"module main { var x, y : integer; init { x = 0; y = 0; } next { x' = y; y' = 0; } invariant z : x == 0; }";

const COUNTED: &[u8] =
    b"module main { var a, b : bv4; init { a = 0bv4; b = 0bv4; } next { b' = a'; a' = a + 1bv4; } invariant eq : a == b; invariant ne : a != b; }";

const INSTANCES: &[u8] =
    b"module main { var v, w : integer; instance c1 : counter(up : (1), n : (v)); instance c2 : counter(up : (v), n : (w)); next { next (c1); } invariant still : w == 0; invariant none : v == 0; } module counter { input up : integer; output n : integer; init { n = 0; } next { n' = n + up; } }";

const PUBLIC: &[u8] =
    b"module main { input pub, secret : bv8; var low : bv8; init { low = 0bv8; } next { low' = pub; } hyperaxiom[2] pin : pub.1 == pub.2; hyperinvariant[2] ni : low.1 == low.2; }";

const SECRET: &[u8] =
    b"module main { input pub, secret : bv8; var low : bv8; init { low = 0bv8; } next { low' = secret; } hyperaxiom[2] pin : pub.1 == pub.2; hyperinvariant[2] ni : low.1 == low.2; }";

const PRIMED: &[u8] =
    b"module main { input pub, secret : bv8; var low : bv8; init { low = pub; } next { low' = pub'; } hyperaxiom[2] pin : pub.1 == pub.2; hyperinvariant[2] ni : low.1 == low.2; }";

const FREE: &[u8] =
    b"module main { input pub, secret : bv8; var low : bv8; init { low = pub; } next { low' = pub'; } hyperinvariant[2] ni : low.1 == low.2; }";

const GUARDED: &[u8] =
    b"module main { input a, d : integer; var m : [integer]integer; init { m[0] = 0; } next { assume a != 0; m' = m[a -> d]; } invariant z : m[0] == 0; }";

const UNGUARDED: &[u8] =
    b"module main { input a, d : integer; var m : [integer]integer; init { m[0] = 0; } next { m' = m[a -> d]; } invariant z : m[0] == 0; }";

const ARRAYS: &[u8] =
    b"module main { var x, y : [boolean]integer; init { x[false] = 0; x[true] = 1; y[true] = 1; y[false] = 0; } invariant e : x == y; invariant u : x != y; }";

const BODIES: &[u8] =
    b"module main { var x : integer; procedure p(d : integer) returns (r : integer) requires d >= 0; ensures r == old(x) + 1; ensures r == x + 1; modifies x; { r = x + 1; havoc x; assume x > d; } procedure q() modifies x; { var s : integer; call (s) = p(-1); } procedure o() requires x >= 0; ensures false; modifies x; { x = 5; } }";

const LISTED: &[u8] =
    b"module main { var x : integer; init { x = 0; assert x == 1; } next { x' = x * x + 2; assert x != 2; } invariant small : x < 6; }";

const PROCESSOR: &[u8] =
    b"module main { type * = common.*; input w : word; var pa, pb : word; instance a : cpu(instr : (w), pc : (pa)); instance b : cpu(instr : (w), pc : (pb)); init { assume a.regs == b.regs; } next { next (a); next (b); } invariant same_regs : a.regs == b.regs; invariant same_pc : pa == pb; invariant other : pa != 1bv8; } module common { type word = bv8; type reg = bv2; type op = enum { nop, add, mov }; } module cpu { type * = common.*; type regs_t = [reg]word; input instr : word; output pc : word; var regs : regs_t; function decode(w : word) : op; init { pc = 0bv8; } next { pc' = pc + 1bv8; case decode(instr) == add : { regs'[instr[1:0]] = regs[instr[1:0]] + regs[instr[3:2]]; } decode(instr) == mov : { regs'[instr[1:0]] = regs[instr[3:2]]; } esac } }";

const ROWS: [Row; 39] = [
    (
        SWAPPED,
        At::Step(1),
        Formula(3),
        &[&[(&[Whole(0), Whole(5)], &[]), (&[Whole(5), Whole(0)], &[])]],
        0,
        Accepted,
    ),
    (
        SWAPPED,
        At::Step(1),
        Formula(3),
        &[&[(&[Whole(0), Whole(0)], &[]), (&[Whole(0), Whole(0)], &[])]],
        0,
        Refused,
    ),
    (
        SWAPPED,
        At::Step(1),
        Formula(3),
        &[&[(&[Whole(5), Whole(5)], &[]), (&[Whole(5), Whole(0)], &[])]],
        0,
        Refused,
    ),
    (
        SWAPPED,
        At::Step(1),
        Formula(3),
        &[&[
            (&[Whole(0), Whole(5)], &[Whole(1)]),
            (&[Whole(5), Whole(0)], &[]),
        ]],
        0,
        Refused,
    ),
    (
        SWAPPED,
        At::Step(2),
        Formula(3),
        &[&[
            (&[Whole(0), Whole(5)], &[]),
            (&[Whole(5), Whole(0)], &[]),
            (&[Whole(0), Whole(0)], &[]),
        ]],
        0,
        Refused,
    ),
    (
        SWAPPED,
        At::Base(0),
        Formula(3),
        &[&[(&[Whole(0), Whole(0)], &[Whole(7), Whole(8)])]],
        0,
        Refused,
    ),
    (
        COUNTED,
        At::Step(1),
        Formula(3),
        &[&[
            (&[Bits(4, 3), Bits(4, 3)], &[]),
            (&[Bits(4, 4), Bits(4, 4)], &[]),
        ]],
        0,
        Refused,
    ),
    (
        COUNTED,
        At::Exactly(1),
        Formula(4),
        &[&[
            (&[Bits(4, 0), Bits(4, 0)], &[Bits(4, 9), Bits(4, 9)]),
            (&[Bits(4, 1), Bits(4, 1)], &[]),
        ]],
        0,
        Accepted,
    ),
    (
        COUNTED,
        At::Exactly(1),
        Formula(4),
        &[&[
            (&[Bits(4, 0), Bits(4, 0)], &[Bits(4, 9), Bits(4, 9)]),
            (&[Bits(4, 1), Bits(4, 0)], &[]),
        ]],
        0,
        Refused,
    ),
    (
        INSTANCES,
        At::Exactly(1),
        Formula(5),
        &[&[
            (&[Whole(0), Whole(0)], &[Whole(9), Whole(9)]),
            (&[Whole(1), Whole(0)], &[]),
        ]],
        0,
        Accepted,
    ),
    (
        INSTANCES,
        At::Exactly(1),
        Formula(4),
        &[&[
            (&[Whole(0), Whole(0)], &[Whole(9), Whole(9)]),
            (&[Whole(1), Whole(1)], &[]),
        ]],
        0,
        Refused,
    ),
    (
        INSTANCES,
        At::Exactly(1),
        Formula(5),
        &[&[
            (&[Whole(2), Whole(0)], &[Whole(2), Whole(0)]),
            (&[Whole(3), Whole(0)], &[]),
        ]],
        0,
        Refused,
    ),
    (
        SECRET,
        At::Step(1),
        Formula(5),
        &[
            &[
                (&[Bits(8, 7), Bits(8, 1), Bits(8, 0)], &[]),
                (&[Bits(8, 6), Bits(8, 0), Bits(8, 1)], &[]),
            ],
            &[
                (&[Bits(8, 7), Bits(8, 2), Bits(8, 0)], &[]),
                (&[Bits(8, 6), Bits(8, 0), Bits(8, 2)], &[]),
            ],
        ],
        0,
        Accepted,
    ),
    (
        SECRET,
        At::Step(1),
        Formula(5),
        &[
            &[
                (&[Bits(8, 7), Bits(8, 1), Bits(8, 0)], &[]),
                (&[Bits(8, 6), Bits(8, 0), Bits(8, 1)], &[]),
            ],
            &[
                (&[Bits(8, 7), Bits(8, 2), Bits(8, 0)], &[]),
                (&[Bits(8, 5), Bits(8, 0), Bits(8, 2)], &[]),
            ],
        ],
        0,
        Refused,
    ),
    (
        SECRET,
        At::Step(1),
        Formula(5),
        &[
            &[
                (&[Bits(8, 7), Bits(8, 1), Bits(8, 3)], &[]),
                (&[Bits(8, 6), Bits(8, 0), Bits(8, 1)], &[]),
            ],
            &[
                (&[Bits(8, 7), Bits(8, 2), Bits(8, 0)], &[]),
                (&[Bits(8, 6), Bits(8, 0), Bits(8, 2)], &[]),
            ],
        ],
        0,
        Refused,
    ),
    (
        PUBLIC,
        At::Step(1),
        Formula(5),
        &[
            &[
                (&[Bits(8, 7), Bits(8, 1), Bits(8, 0)], &[]),
                (&[Bits(8, 6), Bits(8, 0), Bits(8, 7)], &[]),
            ],
            &[
                (&[Bits(8, 7), Bits(8, 2), Bits(8, 0)], &[]),
                (&[Bits(8, 6), Bits(8, 0), Bits(8, 7)], &[]),
            ],
        ],
        0,
        Refused,
    ),
    (
        PUBLIC,
        At::Step(1),
        Formula(5),
        &[
            &[
                (&[Bits(8, 7), Bits(8, 1), Bits(8, 0)], &[]),
                (&[Bits(8, 6), Bits(8, 0), Bits(8, 7)], &[]),
            ],
            &[
                (&[Bits(8, 4), Bits(8, 2), Bits(8, 0)], &[]),
                (&[Bits(8, 6), Bits(8, 0), Bits(8, 4)], &[]),
            ],
        ],
        0,
        Refused,
    ),
    (
        PRIMED,
        At::Base(0),
        Formula(5),
        &[
            &[(
                &[Bits(8, 7), Bits(8, 0), Bits(8, 7)],
                &[Bits(8, 7), Bits(8, 0), Bits(8, 1)],
            )],
            &[(
                &[Bits(8, 6), Bits(8, 0), Bits(8, 6)],
                &[Bits(8, 6), Bits(8, 0), Bits(8, 1)],
            )],
        ],
        0,
        Refused,
    ),
    (
        PRIMED,
        At::Step(1),
        Formula(5),
        &[
            &[
                (&[Bits(8, 7), Bits(8, 1), Bits(8, 0)], &[]),
                (&[Bits(8, 6), Bits(8, 0), Bits(8, 6)], &[]),
            ],
            &[
                (&[Bits(8, 7), Bits(8, 2), Bits(8, 0)], &[]),
                (&[Bits(8, 5), Bits(8, 0), Bits(8, 5)], &[]),
            ],
        ],
        0,
        Refused,
    ),
    (
        FREE,
        At::Base(0),
        Formula(4),
        &[
            &[(
                &[Bits(8, 7), Bits(8, 0), Bits(8, 7)],
                &[Bits(8, 7), Bits(8, 0), Bits(8, 1)],
            )],
            &[(
                &[Bits(8, 6), Bits(8, 0), Bits(8, 6)],
                &[Bits(8, 6), Bits(8, 0), Bits(8, 1)],
            )],
        ],
        0,
        Accepted,
    ),
    (
        FREE,
        At::Step(1),
        Formula(4),
        &[
            &[
                (&[Bits(8, 7), Bits(8, 1), Bits(8, 0)], &[]),
                (&[Bits(8, 6), Bits(8, 0), Bits(8, 6)], &[]),
            ],
            &[
                (&[Bits(8, 7), Bits(8, 2), Bits(8, 0)], &[]),
                (&[Bits(8, 5), Bits(8, 0), Bits(8, 5)], &[]),
            ],
        ],
        0,
        Accepted,
    ),
    (
        UNGUARDED,
        At::Step(1),
        Formula(4),
        &[&[
            (&[Whole(0), Whole(5), Numbers(0, &[])], &[]),
            (&[Whole(1), Whole(1), Numbers(0, &[(0, 5)])], &[]),
        ]],
        0,
        Accepted,
    ),
    (
        GUARDED,
        At::Step(1),
        Formula(4),
        &[&[
            (&[Whole(0), Whole(5), Numbers(0, &[])], &[]),
            (&[Whole(1), Whole(1), Numbers(0, &[(0, 5)])], &[]),
        ]],
        0,
        Refused,
    ),
    (
        GUARDED,
        At::Step(1),
        Formula(4),
        &[&[
            (&[Whole(2), Whole(5), Numbers(0, &[])], &[]),
            (&[Whole(1), Whole(1), Numbers(0, &[(2, 5)])], &[]),
        ]],
        0,
        Refused,
    ),
    (
        ARRAYS,
        At::Exactly(0),
        Formula(2),
        &[&[(
            &[
                Pairs(0, &[(false, 0), (true, 1)]),
                Pairs(1, &[(true, 1), (false, 0)]),
            ],
            &[Pairs(0, &[]), Pairs(1, &[])],
        )]],
        0,
        Refused,
    ),
    (
        ARRAYS,
        At::Exactly(0),
        Formula(3),
        &[&[(
            &[
                Pairs(0, &[(false, 0), (true, 1)]),
                Pairs(1, &[(true, 1), (false, 0)]),
            ],
            &[Pairs(0, &[]), Pairs(1, &[])],
        )]],
        0,
        Accepted,
    ),
    (
        BODIES,
        At::Body(1),
        Exit(1),
        &[&[
            (&[Whole(3)], &[]),
            (&[Whole(9)], &[Whole(2), Whole(0), Whole(9)]),
        ]],
        0,
        Refused,
    ),
    (
        BODIES,
        At::Body(1),
        Exit(2),
        &[&[
            (&[Whole(3)], &[]),
            (&[Whole(9)], &[Whole(2), Whole(0), Whole(9)]),
        ]],
        0,
        Accepted,
    ),
    (
        BODIES,
        At::Body(1),
        Exit(2),
        &[&[
            (&[Whole(3)], &[]),
            (&[Whole(9)], &[Whole(-1), Whole(0), Whole(9)]),
        ]],
        0,
        Refused,
    ),
    (
        BODIES,
        At::Body(1),
        Exit(2),
        &[&[
            (&[Whole(3)], &[]),
            (&[Whole(1)], &[Whole(2), Whole(0), Whole(1)]),
        ]],
        0,
        Refused,
    ),
    (
        BODIES,
        At::Body(2),
        SiteAt(236, 1),
        &[&[
            (&[Whole(3)], &[]),
            (&[Whole(0)], &[Whole(8), Whole(9), Whole(0)]),
        ]],
        0,
        Accepted,
    ),
    (
        BODIES,
        At::Body(2),
        SiteAt(236, 2),
        &[&[
            (&[Whole(3)], &[]),
            (&[Whole(0)], &[Whole(8), Whole(9), Whole(0)]),
        ]],
        0,
        Refused,
    ),
    (
        BODIES,
        At::Body(3),
        Exit(1),
        &[&[(&[Whole(-1)], &[]), (&[Whole(5)], &[])]],
        0,
        Refused,
    ),
    (
        BODIES,
        At::Body(3),
        Exit(1),
        &[&[(&[Whole(1)], &[]), (&[Whole(5)], &[])]],
        0,
        Accepted,
    ),
    (
        LISTED,
        At::Exactly(0),
        SiteAt(46, 0),
        &[&[(&[Whole(0)], &[Whole(1)])]],
        0,
        Accepted,
    ),
    (
        LISTED,
        At::Exactly(1),
        SiteAt(46, 0),
        &[&[(&[Whole(0)], &[Whole(1)]), (&[Whole(2)], &[])]],
        0,
        Refused,
    ),
    (
        LISTED,
        At::Exactly(2),
        SiteAt(86, 0),
        &[&[
            (&[Whole(0)], &[Whole(1)]),
            (&[Whole(2)], &[]),
            (&[Whole(6)], &[]),
        ]],
        0,
        Accepted,
    ),
    (
        LISTED,
        At::Step(1),
        Formula(3),
        &[&[
            (&[Whole(-20_000_000_000_000_000_000)], &[]),
            (&[Whole(2)], &[]),
        ]],
        0,
        Leaves(WideOp::Mul),
    ),
    (
        PROCESSOR,
        At::Exactly(1),
        Formula(9),
        &[&[
            (
                &[Bits(8, 4), Bits(8, 0), Bits(8, 0), Words(3), Words(3)],
                &[Bits(8, 4), Bits(8, 9), Bits(8, 9), Words(3), Words(3)],
            ),
            (
                &[Bits(8, 0), Bits(8, 1), Bits(8, 1), Words(3), Words(3)],
                &[],
            ),
        ]],
        1,
        Accepted,
    ),
];

fn array(
    alloc: Global,
    default: Value,
    exceptions: Items<(Value, Value)>,
) -> Result<Value, AllocError> {
    Ok(Value::Arr(Boxed::new(alloc, default)?, exceptions))
}

fn numbers(alloc: Global, default: i128, elements: &[(i128, i128)]) -> Result<Value, AllocError> {
    let mut exceptions = Items::new(alloc);
    for (index, element) in elements {
        exceptions.push((Value::Int(*index), Value::Int(*element)))?;
    }
    array(alloc, Value::Int(default), exceptions)
}

fn pairs(alloc: Global, default: i128, elements: &[(bool, i128)]) -> Result<Value, AllocError> {
    let mut exceptions = Items::new(alloc);
    for (index, element) in elements {
        exceptions.push((Value::Bool(*index), Value::Int(*element)))?;
    }
    array(alloc, Value::Int(default), exceptions)
}

fn value(alloc: Global, part: Part) -> Result<Value, AllocError> {
    match part {
        Whole(number) => Ok(Value::Int(number)),
        Bits(width, bits) => Ok(Value::Bv(width, bits)),
        Numbers(default, elements) => numbers(alloc, default, elements),
        Pairs(default, elements) => pairs(alloc, default, elements),
        Words(bits) => array(alloc, Value::Bv(8, bits), Items::new(alloc)),
    }
}

fn values(alloc: Global, parts: &[Part]) -> Result<Items<Value>, AllocError> {
    let mut values = Items::new(alloc);
    for part in parts {
        values.push(value(alloc, *part)?)?;
    }
    Ok(values)
}

fn position_of(alloc: Global, parts: &Position) -> Result<(State, Choices), AllocError> {
    let cells = values(alloc, parts.0)?;
    let (cells, choices) = beside(cells, values(alloc, parts.1))?;
    Ok((State { cells }, choices))
}

fn copy(alloc: Global, positions: &[Position]) -> Result<Items<(State, Choices)>, AllocError> {
    let mut copy = Items::new(alloc);
    for parts in positions {
        copy.push(position_of(alloc, parts)?)?;
    }
    Ok(copy)
}

fn copies(alloc: Global, runs: &[Run]) -> Result<Items<Items<(State, Choices)>>, AllocError> {
    let mut copies = Items::new(alloc);
    for run in runs {
        copies.push(copy(alloc, run)?)?;
    }
    Ok(copies)
}

/// One function, which gives the first label everywhere.
fn interp(alloc: Global, functions: usize) -> Result<Interp, AllocError> {
    let mut tables = Items::new(alloc);
    for _ in 0..functions {
        tables.push(Table {
            rows: Items::new(alloc),
            default: Value::Enum(0, 0),
        })?;
    }
    Ok(Interp {
        consts: Items::new(alloc),
        tables,
    })
}

fn what(alloc: Global, subject: Subject) -> What {
    let path = Path::main(alloc);
    match subject {
        Formula(decl) => What::Formula { path, decl },
        SiteAt(col, requires_) => {
            let place = Place {
                file: 0,
                line: 1,
                col,
            };
            What::AtSite(Site {
                path,
                place,
                requires_,
            })
        }
        Exit(number) => What::Ensures(number),
    }
}

fn judged(alloc: Global, layout: &Layout, line: &Line, trace: &Trace) -> Outcome {
    match accepts_trace(alloc, layout, line, trace) {
        Ok(true) => Accepted,
        Ok(false) => Refused,
        Err(EvalError::Wide(wide)) => Leaves(wide.op),
        Err(EvalError::NoMemory) => NoMemory,
    }
}

fn line(alloc: Global, at: At, subject: Subject, copies: usize) -> Line {
    Line {
        command: 0,
        at,
        what: what(alloc, subject),
        arity: if copies == 2 { 2 } else { 1 },
    }
}

fn trace(alloc: Global, functions: usize, runs: &[Run]) -> Result<Trace, AllocError> {
    let copies = copies(alloc, runs)?;
    let (copies, interp) = beside(copies, interp(alloc, functions))?;
    Ok(Trace { interp, copies })
}

fn outcome_in(
    alloc: Global,
    text: &[u8],
    line: &Line,
    trace: &Trace,
) -> Result<Outcome, AllocError> {
    match layout_of(alloc, text)? {
        Some(layout) => Ok(judged(alloc, &layout, line, trace)),
        None => Ok(NotRead),
    }
}

fn outcome_of(alloc: Global, row: &Row) -> Result<Outcome, AllocError> {
    let (text, at, subject, runs, functions, _) = row;
    let trace = trace(alloc, *functions, runs)?;
    let line = line(alloc, *at, *subject, runs.len());
    outcome_in(alloc, text, &line, &trace)
}

#[test]
fn traces_refute_as_it_says(rt: HostRuntime) -> Result<(), Fail> {
    let alloc = rt.alloc();
    for (number, row) in ROWS.iter().enumerate() {
        let found = outcome_of(alloc, row)?;
        assert_eq!(rt; found, row.5, "{number}");
    }
    Ok(())
}
