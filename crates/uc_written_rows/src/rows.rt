//! Texts, and the first part that they write twice.

use std::alloc::{AllocError, Global};
use std::process::Abort;
use std::test::Fail;
use uc_lexer::{MAX_TEXT, tokens};
use uc_lookup::SystemRef;
use uc_module_writes::note_twice_in_step;
use uc_names::DesignNames;
use uc_parser::parse;
use uc_rules::Fault;
use uc_syntax::{Module, Names};

/// What the modules of a text are judged to be.
#[derive(Clone, Copy, Debug, PartialEq, Eq)]
enum Answer {
    Kept,
    /// The number of the rule that is broken first, with its line and column.
    Breaks(u32, u32, u32),
    NotRead,
    NoMemory,
}

use Answer::{Breaks, Kept, NoMemory, NotRead};

fn first_fault(
    alloc: Global,
    names: &Names,
    modules: &[Module],
) -> Result<Option<Fault>, AllocError> {
    let system = SystemRef {
        names,
        files: &[],
        modules,
        main: 0,
    };
    let design = DesignNames::of(alloc, system)?;
    let mut first = None;
    note_twice_in_step(alloc, &design, &mut first)?;
    Ok(first)
}

fn judged(alloc: Global, text: &[u8]) -> Answer {
    if text.len() > MAX_TEXT {
        return NotRead;
    }
    let Ok(tokens) = tokens(alloc, 0, text) else {
        return NotRead;
    };
    let mut names = Names::new(alloc);
    let Ok(modules) = parse(alloc, &mut names, 0, text, tokens.as_slice()) else {
        return NotRead;
    };
    match first_fault(alloc, &names, modules.as_slice()) {
        Ok(None) => Kept,
        Ok(Some(fault)) => Breaks(fault.rule.number(), fault.place.line, fault.place.col),
        Err(AllocError) => NoMemory,
    }
}

/// Texts with a fault each, and the nearest ones without one.
const ROWS: [(&[u8], Answer); 47] = [
    (b"module m { next { x' = 1; y' = 2; } }", Kept),
    (b"module m { next { x' = 1; x' = 2; } }", Breaks(24, 1, 27)),
    (
        b"module m { next { r' = s; r'.f = 1; } }",
        Breaks(24, 1, 27),
    ),
    (
        b"module m { next { r'.f = 1; r' = s; } }",
        Breaks(24, 1, 29),
    ),
    (b"module m { next { r'.f = 1; r'.g = 2; } }", Kept),
    (
        b"module m { next { r'.f.g = 1; r'.f.h = 2; r'.f = s; } }",
        Breaks(24, 1, 43),
    ),
    (b"module m { next { r'.f.g = 1; r'.g.f = 2; } }", Kept),
    (
        b"module m { next { a'[0] = 1; a'[1] = 2; } }",
        Breaks(24, 1, 30),
    ),
    (
        b"module m { next { a'[0].f = 1; a'[1].g = 2; } }",
        Breaks(24, 1, 32),
    ),
    (b"module m { next { r'.f[0] = 1; r'.g[0] = 2; } }", Kept),
    (b"module m { next { x', x' = 1, 2; } }", Breaks(24, 1, 19)),
    (
        b"module m { next { x', y' = 1, 2; x' = 3; } }",
        Breaks(24, 1, 34),
    ),
    (
        b"module m { next { havoc x'; x' = 1; } }",
        Breaks(24, 1, 29),
    ),
    (
        b"module m { next { if (c) { x' = 1; } else { x' = 2; } } }",
        Kept,
    ),
    (
        b"module m { next { if (c) { x' = 1; } else if (d) { y' = 2; } x' = 3; } }",
        Breaks(24, 1, 62),
    ),
    (
        b"module m { next { if (c) { y' = 1; } else { x' = 2; } x' = 3; } }",
        Breaks(24, 1, 55),
    ),
    (
        b"module m { next { x' = 1; if (c) { } else { x' = 2; } } }",
        Breaks(24, 1, 45),
    ),
    (
        b"module m { next { case c : { x' = 1; } d : { x' = 2; } default : { x' = 3; x' = 4; } esac } }",
        Breaks(24, 1, 76),
    ),
    (
        b"module m { next { for k in range(3, 3) { x' = 1; } } }",
        Kept,
    ),
    (
        b"module m { next { for k in range(3, 4) { x' = 1; } } }",
        Breaks(24, 1, 42),
    ),
    (
        b"module m { next { for k in range(4, 3) { x' = 1; } x' = 2; } }",
        Kept,
    ),
    (
        b"module m { next { for k in range(0, 1) { if (c) { x' = 1; } else { y' = 2; } } } }",
        Breaks(24, 1, 51),
    ),
    (
        b"module m { procedure p() modifies x; { } next { call p(); y' = 1; } }",
        Kept,
    ),
    (
        b"module m { procedure p() modifies x; { } next { call p(); x' = 1; } }",
        Breaks(24, 1, 59),
    ),
    (
        b"module m { procedure p() modifies x; { } next { x' = 1; call p(); } }",
        Breaks(24, 1, 57),
    ),
    (
        b"module m { procedure p() returns (z : integer) modifies x; { } next { call (x') = p(); } }",
        Breaks(24, 1, 71),
    ),
    (
        b"module s { next { x' = 1; } } module m { instance i : s(x : (y)); next { next (i); } }",
        Kept,
    ),
    (
        b"module s { next { x' = 1; } } module m { instance i : s(x : (y)); next { next (i); y' = 2; } }",
        Breaks(24, 1, 84),
    ),
    (
        b"module s { next { x' = 1; } } module m { instance i : s(x : (y)); next { y' = 2; next (i); } }",
        Breaks(24, 1, 82),
    ),
    (
        b"module s { next { x'.f = 1; } } module m { instance i : s(x : (y)); next { next (i); y'.g = 2; } }",
        Kept,
    ),
    (
        b"module s { next { x'.f = 1; } } module m { instance i : s(x : (y)); next { next (i); y'.f = 2; } }",
        Breaks(24, 1, 86),
    ),
    (
        b"module m { instance i : s(x : (y)); next { next (i); y' = 2; } } module s { next { x' = 1; } }",
        Breaks(24, 1, 54),
    ),
    (
        b"module s { next { x' = 1; z' = 2; } } module m { instance i : s(x : (y), z : (y)); next { next (i); } }",
        Breaks(24, 1, 91),
    ),
    (
        b"module s { next { x'.f = 1; z'.g = 2; } } module m { instance i : s(x : (y), z : (y)); next { next (i); } }",
        Kept,
    ),
    (
        b"module s { next { if (c) { x' = 1; } else { z' = 2; } } } module m { instance i : s(x : (y), z : (y)); next { next (i); } }",
        Kept,
    ),
    (
        b"module s { next { for k in range(0, 1) { if (c) { x' = 1; } else { z' = 2; } } } } module m { instance i : s(x : (y), z : (y)); next { next (i); } }",
        Breaks(24, 1, 51),
    ),
    (
        b"module s { procedure p() modifies z; { } next { x' = 1; call p(); } } module m { instance i : s(x : (y), z : (y)); next { next (i); } }",
        Breaks(24, 1, 123),
    ),
    (
        b"module m { instance i : s(x : (y)); next { next (i); } } module s { next { x' = 1; x' = 2; } }",
        Breaks(24, 1, 84),
    ),
    (
        b"module s { next { x' = 1; } } module m { instance i : s(x : (y)); next { if (c) { next (i); } else { next (i); } } }",
        Kept,
    ),
    (
        b"module s { next { x' = 1; } } module m { instance i : s(x : (y)); next { next (i); if (c) { next (i); } } }",
        Breaks(24, 1, 93),
    ),
    (
        b"module s { next { w' = 1; } } module m { instance i : s(); instance k : s(); next { next (i); next (k); } }",
        Kept,
    ),
    (
        b"module s { next { w' = 1; } } module m { instance i : s(); next { for n in range(0, 1) { next (i); } } }",
        Breaks(24, 1, 90),
    ),
    (
        b"module s { next { } } module m { instance i : s(); next { next (i); next (i); } }",
        Kept,
    ),
    (
        b"module s { next { x' = 1; } } module m { instance i : s(x : (y)); instance k : s(x : (y)); next { next (i); next (k); } }",
        Breaks(24, 1, 109),
    ),
    (
        b"module s { next { x' = 1; z' = 2; } } module n { instance j : s(x : (u), z : (v)); next { next (j); } } module m { instance i : n(u : (y), v : (y)); next { next (i); } }",
        Breaks(24, 1, 157),
    ),
    (
        b"module s { next { x' = 1; z' = 2; } } module n { instance j : s(x : (u), z : (u)); next { next (j); } } module m { instance i : n(u : (y)); next { next (i); } }",
        Breaks(24, 1, 91),
    ),
    (
        b"module m { instance i : n(u : (y)); next { next (i); } } module n { instance j : s(x : (u)); next { if (c) { next (j); } else { u' = 3; } } } module s { next { x' = 1; } }",
        Kept,
    ),
];

#[test]
fn parts_that_are_written_twice_stand_at_their_places(rt: HostRuntime) -> Result<(), Fail> {
    let alloc = rt.alloc();
    for (text, expected) in ROWS {
        let answer = judged(alloc, text);
        assert_eq!(rt; answer, expected);
    }
    Ok(())
}

/// Modules that each have two instances of the one before, of which one is stepped on each path, with their outputs the other way round.
fn with_chain(alloc: Global, count: u32) -> Result<Vec<u8>, AllocError> {
    let mut text = Vec::from_slice(alloc, b"module m0 { next { x' = 1; z' = 2; } } ")?;
    for number in 0..count {
        let next = number + 1;
        let module = format!(in alloc;
            "module m{next} {{ instance a : m{number}(x : (x), z : (z)); instance b : m{number}(x : (z), z : (x)); next {{ if (c) {{ next (a); }} else {{ next (b); }} }} }} "
        )?;
        text.extend_from_slice(module.as_bytes())?;
    }
    Ok(text)
}

#[test]
fn a_chain_of_modules_ends_at_once(rt: HostRuntime) -> Result<(), Fail> {
    let alloc = rt.alloc();
    let mut text = with_chain(alloc, 40)?;
    assert_eq!(rt; judged(alloc, text.as_slice()), Kept);
    text.extend_from_slice(
        b"module main { instance i : m40(x : (y), z : (y)); next { next (i); } }",
    )?;
    let meets = matches!(judged(alloc, text.as_slice()), Breaks(24, 1, _));
    assert!(rt; meets);
    Ok(())
}
