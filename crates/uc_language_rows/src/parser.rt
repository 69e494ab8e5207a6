use std::alloc::{AllocError, Global};
use std::process::Abort;
use std::test::Fail;
use uc_items::Items;
use uc_lexer::{MAX_TEXT, tokens};
use uc_parser::{MAX_NAMES, ParseError, parse};
use uc_syntax::{Module, Names};

/// What a text is answered.
#[derive(Clone, Copy, Debug, PartialEq, Eq)]
enum Answer {
    /// So many modules, and so many declarations in the first.
    Read(usize, usize),
    /// A fault, with its line and its column.
    Syntax(u32, u32),
    TooDeep(u32, u32),
    TooManyNames(u32, u32),
    NoMemory,
    NoTokens,
}

use Answer::{NoMemory, NoTokens, Read, Syntax, TooDeep, TooManyNames};

fn parsed(alloc: Global, text: &[u8]) -> Answer {
    if text.len() > MAX_TEXT {
        return NoTokens;
    }
    let Ok(tokens) = tokens(alloc, 0, text) else {
        return NoTokens;
    };
    let mut names = Names::new(alloc);
    answered(parse(alloc, &mut names, 0, text, tokens.as_slice()))
}

fn sizes(modules: &[Module]) -> Answer {
    match modules.first() {
        None => Read(modules.len(), 0),
        Some(first) => Read(modules.len(), first.decls.len()),
    }
}

fn answered(read: Result<Items<Module>, ParseError>) -> Answer {
    match read {
        Ok(modules) => sizes(modules.as_slice()),
        Err(ParseError::NoMemory) => NoMemory,
        Err(ParseError::Syntax(place)) => Syntax(place.line, place.col),
        Err(ParseError::TooDeep(place)) => TooDeep(place.line, place.col),
        Err(ParseError::TooManyNames(place)) => TooManyNames(place.line, place.col),
    }
}

/// For each production a text that is read, and one that is refused.
const ROWS: [(&[u8], Answer); 61] = [
    (b"", Read(0, 0)),
    (b"module m { } // none\n", Read(1, 0)),
    (b"module m { }\nmodule n { }", Read(2, 0)),
    (b"module m { } ;", Syntax(1, 14)),
    (b"module { }", Syntax(1, 8)),
    (b"module m {\n  // no end\n", Syntax(3, 1)),
    (
        b"module m { type t; type u = t; type * = n.*; }",
        Read(1, 3),
    ),
    (b"module m { type * = n.k; }", Syntax(1, 23)),
    (
        b"module m { var a, b : boolean; input c : integer; output d : bv8; const e : m.t; }",
        Read(1, 4),
    ),
    (b"module m { var a b : boolean; }", Syntax(1, 18)),
    (
        b"module m { type t = enum { a, b }; type u = record { a : t, b : [bv2]bv4 }; }",
        Read(1, 2),
    ),
    (b"module m { type t = enum { }; }", Syntax(1, 28)),
    (b"module m { type t = record { a }; }", Syntax(1, 32)),
    (b"module m { type t = [bv2 bv4; }", Syntax(1, 26)),
    (
        b"module m { function f() : bv8; function g(a : bv8, b : t) : bv8; }",
        Read(1, 2),
    ),
    (b"module m { function f : bv8; }", Syntax(1, 23)),
    (
        b"module m { define f(a : bv8) : bv8 = a + 1bv8; }",
        Read(1, 1),
    ),
    (b"module m { define f(a : bv8) : bv8; }", Syntax(1, 35)),
    (
        b"module m { procedure p(a : bv8) returns (b : bv8) requires a == a; ensures b == a; modifies x, y; { b = a; } }",
        Read(1, 1),
    ),
    (
        b"module m { procedure p() modifies x y; { } }",
        Syntax(1, 37),
    ),
    (b"module m { procedure p() returns { } }", Syntax(1, 34)),
    (b"module m { procedure p() returns () { } }", Syntax(1, 35)),
    (
        b"module m { instance i : n(a : (b), c : (d + 1)); instance j : n(); }",
        Read(1, 2),
    ),
    (b"module m { instance i : n(a : b); }", Syntax(1, 31)),
    (
        b"module m { init { x = 1; } next { x' = x + 1; next (i); } }",
        Read(1, 2),
    ),
    (b"module m { init x = 1; }", Syntax(1, 17)),
    (
        b"module m { invariant p : x == 1; axiom q : x > 0; axiom x > 0; }",
        Read(1, 3),
    ),
    (b"module m { invariant x == 1; }", Syntax(1, 24)),
    (b"module m { axiom q : ; }", Syntax(1, 22)),
    (
        b"module m { hyperinvariant[2] p : x.1 == x.2; hyperaxiom[2] q : true; }",
        Read(1, 2),
    ),
    (b"module m { hyperinvariant p : true; }", Syntax(1, 27)),
    (
        b"module m { control { v = unroll(3); induction; induction(2); w = verify(p); check; print_results; v.print_cex(x, i.y); print_cex; } }",
        Read(1, 1),
    ),
    (b"module m { control { unroll; } }", Syntax(1, 28)),
    (b"module m { control { verify(1); } }", Syntax(1, 29)),
    (b"module m { control { f(p); } }", Syntax(1, 23)),
    (
        b"module m { control { v.print_cex(); print_cex(x y); } }",
        Syntax(1, 49),
    ),
    (
        b"module m { init { var a : bv8; skip; { } assert x; assert n : x; assume y; havoc z; havoc z'; } }",
        Read(1, 1),
    ),
    (b"module m { init { skip } }", Syntax(1, 24)),
    (
        b"module m { init { if (a) { } else if (b) { } else { } } }",
        Read(1, 1),
    ),
    (b"module m { init { if (a) skip; } }", Syntax(1, 26)),
    (
        b"module m { init { case a : { } b : { } default : { } esac } }",
        Read(1, 1),
    ),
    (b"module m { init { case a : { } } }", Syntax(1, 32)),
    (
        b"module m { init { for i in range(0, 3) { } for (j : bv2) in range(-1, 1bv2) { } } }",
        Read(1, 1),
    ),
    (b"module m { init { for i in (0, 3) { } } }", Syntax(1, 28)),
    (
        b"module m { init { call p(); call (a, b.c) = q(1, 2); } }",
        Read(1, 1),
    ),
    (b"module m { init { call (a) q(); } }", Syntax(1, 28)),
    (
        b"module m { init { a, b.c, d[1]' = 1, 2, 3; } }",
        Syntax(1, 31),
    ),
    (
        b"module m { init { a, b'.c, d[1].e = 1, 2, 3; } }",
        Read(1, 1),
    ),
    (b"module m { init { a = 1, ; } }", Syntax(1, 26)),
    (
        b"module m { axiom (if a then b else if c then d else e) <==> (f ==> g || h && !i); }",
        Read(1, 1),
    ),
    (b"module m { axiom if a then b; }", Syntax(1, 29)),
    (b"module m { axiom a == b == c; }", Syntax(1, 25)),
    (
        b"module m { axiom a | b ^ c & d ++ e + f - g * -h == ~i; }",
        Read(1, 1),
    ),
    (
        b"module m { axiom a[1] == a[1 -> 2][7:0].f.2 + bv_zero_extend(8, x) + old(y) + z' + f() + 3bv8; }",
        Read(1, 1),
    ),
    (b"module m { axiom a[1 -> ]; }", Syntax(1, 25)),
    (b"module m { axiom old(1); }", Syntax(1, 22)),
    (b"module m { axiom f(a b); }", Syntax(1, 22)),
    (b"module m { axiom forall; }", Syntax(1, 18)),
    (b"module m { while }", Syntax(1, 12)),
    (b"var x : bv8;", Syntax(1, 1)),
    (b"module m { type t = ; }", Syntax(1, 21)),
];

fn check_rows(rt: &impl Abort, alloc: Global, rows: &[(&[u8], Answer)]) {
    for &(text, expected) in rows {
        assert_eq!(rt; parsed(alloc, text), expected, "{text:?}");
    }
}

#[test]
fn texts_are_read_or_refused_at_their_place(rt: HostRuntime) {
    check_rows(&rt, rt.alloc(), &ROWS);
}

/// A text with a part again and again.
fn repeated(
    alloc: Global,
    front: &[u8],
    part: &[u8],
    times: u32,
    back: &[u8],
) -> Result<Vec<u8>, AllocError> {
    let mut text = Vec::from_slice(alloc, front)?;
    for _ in 0..times {
        text.extend_from_slice(part)?;
    }
    text.extend_from_slice(back)?;
    Ok(text)
}

/// A part that stands so many times between a front and a back, and the answer.
type LongRow = (&'static [u8], &'static [u8], u32, &'static [u8], Answer);

const LONG_ROWS: [LongRow; 9] = [
    (
        b"module m { axiom true",
        b" && true",
        99_999,
        b"; }",
        Read(1, 1),
    ),
    (
        b"module m { axiom ",
        b"if a then b else ",
        100_000,
        b"c; }",
        Read(1, 1),
    ),
    (b"module m { axiom ", b"(", 198, b"a", Syntax(1, 217)),
    (b"module m { axiom ", b"(", 200, b"a", TooDeep(1, 217)),
    (b"module m { axiom ", b"!", 199, b"a; }", Read(1, 1)),
    (
        b"module m { axiom ",
        b"!",
        1_000_000,
        b"a; }",
        TooDeep(1, 217),
    ),
    (
        b"module m { var a",
        b", a",
        65_534,
        b" : bv8; }",
        Read(1, 1),
    ),
    (
        b"module m { axiom a : b; var\n",
        b"a,",
        65_535,
        b"",
        TooManyNames(2, 131_069),
    ),
    (
        b"module n { axiom a : b; } module m { var\na",
        b",a",
        65_534,
        b":bv8; axiom\nb:",
        TooManyNames(3, 1),
    ),
];

fn check_long(rt: &impl Abort, alloc: Global, rows: &[LongRow]) -> Result<(), AllocError> {
    for &(front, part, times, back, expected) in rows {
        let text = repeated(alloc, front, part, times, back)?;
        assert_eq!(rt; parsed(alloc, &text), expected);
    }
    Ok(())
}

#[test]
fn long_texts_are_read_or_refused(rt: HostRuntime) -> Result<(), Fail> {
    check_long(&rt, rt.alloc(), &LONG_ROWS)?;
    Ok(())
}
