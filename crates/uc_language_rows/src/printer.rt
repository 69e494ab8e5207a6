//! Texts that are read and printed again.

use crate::texts::modules_of;
use std::alloc::Global;
use std::process::Abort;
use uc_printer::print_modules;
use uc_syntax::Names;

/// The text that is printed of what a text spells, if it is read.
fn reprinted(alloc: Global, text: &[u8]) -> Option<Vec<u8>> {
    let mut names = Names::new(alloc);
    let modules = modules_of(alloc, &mut names, text)?;
    print_modules(alloc, &names, modules.as_slice()).ok()
}

fn is_printed(alloc: Global, text: &[u8], expected: &[u8]) -> bool {
    match reprinted(alloc, text) {
        Some(printed) => printed.as_slice() == expected,
        None => false,
    }
}

/// Texts that have each production, and the texts that are printed of what they spell.
const ROWS: [(&[u8], &[u8]); 15] = [
    (b"", b""),
    (
        b"module main{invariant ok:true;}",
        b"module main { invariant ok : true ; }\n",
    ),
    (
        b"module m { } // none\nmodule n{}",
        b"module m { }\nmodule n { }\n",
    ),
    (
        b"module m{type t;type u=t;type * = n.*;type v=enum{a,b};type w=record{a:t,b:[bv2]bv4};}",
        b"module m { type t ; type u = t ; type * = n . * ; type v = enum { a , b } ; type w = record { a : t , b : [ bv2 ] bv4 } ; }\n",
    ),
    (
        b"module m { var a, b : boolean; input c : integer; output d : bv8; const e : m.t; }",
        b"module m { var a , b : boolean ; input c : integer ; output d : bv8 ; const e : m . t ; }\n",
    ),
    (
        b"module m { function f() : bv8; define g(a : bv8, b : t) : bv8 = a + 1bv8; }",
        b"module m { function f ( ) : bv8 ; define g ( a : bv8 , b : t ) : bv8 = a + 1bv8 ; }\n",
    ),
    (
        b"module m { procedure p(a : t) returns (b : t) requires a; ensures b; modifies x, y; { b = a; } procedure q() { } }",
        b"module m { procedure p ( a : t ) returns ( b : t ) requires a ; ensures b ; modifies x , y ; { b = a ; } procedure q ( ) { } }\n",
    ),
    (
        b"module m { instance i : n(a : (b), c : (d)); instance j : n(); init { } next { x' = x; next (i); } }",
        b"module m { instance i : n ( a : ( b ) , c : ( d ) ) ; instance j : n ( ) ; init { } next { x ' = x ; next ( i ) ; } }\n",
    ),
    (
        b"module m { invariant p : a; axiom q : b; axiom c; hyperinvariant[2] r : x.1 == x.2; hyperaxiom[2] s : true; }",
        b"module m { invariant p : a ; axiom q : b ; axiom c ; hyperinvariant [ 2 ] r : x . 1 == x . 2 ; hyperaxiom [ 2 ] s : true ; }\n",
    ),
    (
        b"module m { control { v = unroll(3); induction; induction(2); verify(p); check; print_results; v.print_cex(x, i.y); print_cex(); print_cex; } }",
        b"module m { control { v = unroll ( 3 ) ; induction ; induction ( 2 ) ; verify ( p ) ; check ; print_results ; v . print_cex ( x , i . y ) ; print_cex ( ) ; print_cex ; } }\n",
    ),
    (
        b"module m { init { var a : t; skip; { } assert x; assert n : x; assume y; havoc z'; call p(); call (a, b.c) = q(1, 2); a, b'.c, d[1].e = 1, 2, 3; } }",
        b"module m { init { var a : t ; skip ; { } assert x ; assert n : x ; assume y ; havoc z ' ; call p ( ) ; call ( a , b . c ) = q ( 1 , 2 ) ; a , b ' . c , d [ 1 ] . e = 1 , 2 , 3 ; } }\n",
    ),
    (
        b"module m { init { if (a) { } else if (b) { skip; } else { } case a : { } default : { } esac for i in range(0, 3) { } for (j : t) in range(-1, 2) { } } }",
        b"module m { init { if a { } else if b { skip ; } else { } case a : { } default : { } esac for i in range ( 0 , 3 ) { } for ( j : t ) in range ( - 1 , 2 ) { } } }\n",
    ),
    (
        b"module m { axiom (if a then b else if c then d else e) <==> (f ==> g || h && !(!i)); axiom if (if a then b else c) then d else e; }",
        b"module m { axiom ( if a then b else if c then d else e ) <==> f ==> g || h && ! ! i ; axiom if if a then b else c then d else e ; }\n",
    ),
    (
        b"module m { axiom a | b ^ c & d ++ e + f - g * -h == ~i; axiom a - (b - c) == (a - b) - c; axiom (a == b) == ((c)); axiom (a ==> b) ==> -(c + d) < e; }",
        b"module m { axiom a | b ^ c & d ++ e + f - g * - h == ~ i ; axiom a - ( b - c ) == ( a - b ) - c ; axiom ( a == b ) == c ; axiom ( a ==> b ) ==> - ( c + d ) < e ; }\n",
    ),
    (
        b"module m { axiom a <_u b && c >=_u d; axiom a[1 -> 2][7:0].f.2 == bv_zero_extend(8, x) + old(y) + z' + f() + 3bv8; axiom (a + b).f == false; }",
        b"module m { axiom a <_u b && c >=_u d ; axiom a [ 1 -> 2 ] [ 7 : 0 ] . f . 2 == bv_zero_extend ( 8 , x ) + old ( y ) + z ' + f ( ) + 3bv8 ; axiom ( a + b ) . f == false ; }\n",
    ),
];

#[test]
fn texts_are_printed_word_by_word_and_read_again(rt: HostRuntime) {
    for (text, expected) in ROWS {
        assert!(rt; is_printed(rt.alloc(), text, expected), "{text:?}");
        assert!(rt;
            is_printed(rt.alloc(), expected, expected),
            "{text:?} again"
        );
    }
}
