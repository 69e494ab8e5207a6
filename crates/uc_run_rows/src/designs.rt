//! Designs that are copied, taken apart and made anew.

use crate::layout::design_of;
use std::alloc::{AllocError, Global};
use std::process::Abort;
use uc_printer::print;
use uc_syntax::Design;

/// The design of the parts of a copy.
fn made_anew(alloc: Global, design: &Design) -> Result<Design, AllocError> {
    let (names, files, modules) = design.copy(alloc)?.parts();
    Design::of(alloc, names, files, modules)
}

/// What is printed of the design that a text spells, made anew, if it is one.
fn printed_anew(alloc: Global, text: &[u8]) -> Result<Option<Vec<u8>>, AllocError> {
    let Some(design) = design_of(alloc, text)? else {
        return Ok(None);
    };
    let anew = made_anew(alloc, &design)?;
    Ok(Some(print(alloc, &anew)?))
}

const TEXT: &[u8] = b"module n { output d : bv8 ; }
module main { type c = enum { red , green } ; type r = record { k : c , n : bv2 } ; input go : boolean ; var s : r ; var a : [ bv2 ] bv4 ; function f ( x : bv2 ) : bv2 ; define g ( x : bv2 ) : bv2 = x + 1bv2 ; procedure p ( x : bv2 ) returns ( y : bv2 ) requires x == 0bv2 ; ensures y == x ; modifies s ; { y = x ; } instance i : n ( d : ( s ) ) ; init { s . k = red ; s . n = 0bv2 ; } next { if go { s ' . k = green ; s ' . n = g ( s . n ) ; } next ( i ) ; } invariant z : s . k == red ==> s . n == 0bv2 ; axiom f ( 1bv2 ) == a [ 0bv2 -> 1bv4 ] [ 0bv2 ] [ 1 : 0 ] ; control { unroll ( 2 ) ; check ; print_results ; } }
";

#[test]
fn the_design_of_a_copys_parts_is_printed_as_it_was(rt: HostRuntime) {
    let printed = printed_anew(rt.alloc(), TEXT).unwrap_or(None);
    assert!(rt; printed.is_some_and(|text| text.as_slice() == TEXT));
}
