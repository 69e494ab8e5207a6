//! The rules on order and sizes.

use crate::texts::modules_of;
use std::alloc::{AllocError, Global};
use std::process::Abort;
use std::test::Fail;
use uc_lookup::SystemRef;
use uc_names::DesignNames;
use uc_rules::Fault;
use uc_sizes::is_too_large;
use uc_syntax::{Module, Names};
use uc_uses::{has_long_uses, note_use_cycles};
use uc_written_once::{note_large_enums, note_long_loops, note_named_twice, note_stepped_twice};

/// What the modules of a text are judged to be.
#[derive(Clone, Copy, Debug, PartialEq, Eq)]
enum Answer {
    Kept,
    /// The number of the rule that is broken first, with its line and column.
    Breaks(u32, u32, u32),
    NotRead,
    NoMemory,
}

use Answer::{Breaks, Kept, NoMemory, NotRead};

/// A design with its first module as main.
fn design_of<'a>(names: &'a Names, modules: &'a [Module]) -> SystemRef<'a> {
    SystemRef {
        names,
        files: &[],
        modules,
        main: 0,
    }
}

fn first_fault(alloc: Global, system: SystemRef<'_>) -> Result<Option<Fault>, AllocError> {
    let mut first = None;
    for module in system.modules {
        note_long_loops(module, &mut first);
        note_large_enums(alloc, module, &mut first)?;
        note_named_twice(alloc, module, &mut first)?;
        note_stepped_twice(alloc, module, &mut first)?;
    }
    let design = DesignNames::of(alloc, system)?;
    note_use_cycles(alloc, &design, &mut first)?;
    Ok(first)
}

fn judged(alloc: Global, text: &[u8]) -> Answer {
    let mut names = Names::new(alloc);
    let Some(modules) = modules_of(alloc, &mut names, text) else {
        return NotRead;
    };
    match first_fault(alloc, design_of(&names, modules.as_slice())) {
        Ok(None) => Kept,
        Ok(Some(fault)) => Breaks(fault.rule.number(), fault.place.line, fault.place.col),
        Err(AllocError) => NoMemory,
    }
}

/// Texts with a fault each, and the nearest ones without one.
const ROWS: [(&[u8], Answer); 33] = [
    (b"module m { init { for i in range(1, 4096) { } } }", Kept),
    (
        b"module m { init { for i in range(0, 4096) { } } }",
        Breaks(27, 1, 19),
    ),
    (
        b"module m { next { for i in range(-4000, 95) { } for i in range(-4000, 96) { } } }",
        Breaks(27, 1, 49),
    ),
    (b"module m { init { for i in range(-1, -5000) { } } }", Kept),
    (
        b"module m { procedure p() { if (a) { } else { for i in range(-5000, -1) { } } } }",
        Breaks(27, 1, 46),
    ),
    (
        b"module m { init { for i in range(0, 340282366920938463463374607431768211455) { } } }",
        Breaks(27, 1, 19),
    ),
    (b"module m { init { x, y = 1, 2; } }", Kept),
    (
        b"module m { init { x, y, x = 1, 2, 3; } }",
        Breaks(24, 1, 19),
    ),
    (
        b"module m { init { case a : { x.f, x.g = 1, 2; } esac } }",
        Breaks(24, 1, 30),
    ),
    (
        b"module m { procedure p() { call (x, x) = q(); } }",
        Breaks(24, 1, 28),
    ),
    (b"module m { next { x', x' = 1, 2; } }", Kept),
    (b"module m { next { next (i); next (j); } }", Kept),
    (
        b"module m { next { next (i); next (j); next (i); } }",
        Breaks(26, 1, 39),
    ),
    (
        b"module m { next { if (a) { next (i); } else { next (i); } } }",
        Kept,
    ),
    (
        b"module m { next { if (a) { next (i); } else if (b) { next (j); } next (i); } }",
        Breaks(26, 1, 66),
    ),
    (
        b"module m { next { if (a) { next (j); } else { next (i); } next (i); } }",
        Breaks(26, 1, 59),
    ),
    (
        b"module m { next { next (i); if (a) { } else { next (i); } } }",
        Breaks(26, 1, 47),
    ),
    (
        b"module m { next { case a : { next (i); } b : { next (i); } default : { next (i); next (i); } esac } }",
        Breaks(26, 1, 82),
    ),
    (
        b"module m { next { for k in range(3, 3) { next (i); } } }",
        Kept,
    ),
    (
        b"module m { next { for k in range(3, 4) { next (i); } } }",
        Breaks(26, 1, 42),
    ),
    (
        b"module m { next { for k in range(4, 3) { next (i); } next (i); } }",
        Kept,
    ),
    (
        b"module m { next { for k in range(0, 1) { for l in range(0, 0) { next (i); } } } }",
        Breaks(26, 1, 65),
    ),
    (
        b"module m { next { for k in range(0, 1) { for l in range(0, -1) { next (i); } } } }",
        Kept,
    ),
    (
        b"module m { next { next (i); } } module n { next { next (i); { next (i); } } }",
        Breaks(26, 1, 63),
    ),
    (
        b"module m { define f(a : boolean) : boolean = g(a); define g(b : boolean) : boolean = !b; }",
        Kept,
    ),
    (
        b"module m { define f(a : boolean) : boolean = g(a); define g(b : boolean) : boolean = !f(b); }",
        Breaks(23, 1, 12),
    ),
    (
        b"module m { procedure p() { call q(); } procedure q() { } }",
        Kept,
    ),
    (
        b"module m { procedure r() { call p(); } procedure p() { call q(); } procedure q() { if (a) { call p(); } } }",
        Breaks(23, 1, 40),
    ),
    (
        b"module m { input x : boolean; } module main { instance a : m(x : (b.x)); instance b : m(x : (a.x)); }",
        Breaks(23, 1, 62),
    ),
    (
        b"module m { input x : boolean; } module main { instance a : m(x : (b.x)); instance b : m(x : (true)); }",
        Kept,
    ),
    (
        b"module m { input x : boolean; } module main { define f() : boolean = a.x; instance a : m(x : (f())); }",
        Breaks(23, 1, 47),
    ),
    (
        b"module k { input y : boolean; } module m { input x : boolean; instance i : k(y : (x)); } module main { instance a : m(x : (a.i.y)); }",
        Breaks(23, 1, 78),
    ),
    (
        b"module k { input y : boolean; } module m { input x : boolean; instance i : k(y : (x)); } module main { instance a : m(x : (b.i.y)); instance b : m(x : (true)); }",
        Kept,
    ),
];

#[test]
fn faults_of_order_stand_at_their_places(rt: HostRuntime) -> Result<(), Fail> {
    let alloc = rt.alloc();
    for (text, expected) in ROWS {
        let answer = judged(alloc, text);
        assert_eq!(rt; answer, expected);
    }
    Ok(())
}

/// A module whose enum has so many labels.
fn with_labels(alloc: Global, count: u32) -> Result<Vec<u8>, AllocError> {
    let mut text = Vec::from_slice(alloc, b"module m { var x : enum { a")?;
    for number in 1..count {
        let label = format!(in alloc; ", b{number}")?;
        text.extend_from_slice(label.as_bytes())?;
    }
    text.extend_from_slice(b" }; }")?;
    Ok(text)
}

#[test]
fn an_enum_has_at_most_4096_labels(rt: HostRuntime) -> Result<(), Fail> {
    let alloc = rt.alloc();
    let text = with_labels(alloc, 4096)?;
    assert_eq!(rt; judged(alloc, text.as_slice()), Kept);
    let longer = with_labels(alloc, 4097)?;
    assert_eq!(rt; judged(alloc, longer.as_slice()), Breaks(27, 1, 20));
    Ok(())
}

/// Whether the first module of a text, as main, expands to too much.
fn is_large(alloc: Global, text: &[u8]) -> Option<bool> {
    let mut names = Names::new(alloc);
    let modules = modules_of(alloc, &mut names, text)?;
    is_too_large(alloc, &design_of(&names, modules.as_slice())).ok()
}

#[test]
fn main_expands_to_at_most_a_million_statements(rt: HostRuntime) -> Result<(), Fail> {
    let alloc = rt.alloc();
    let most =
        b"module main { init { for i in range(1, 999) { for j in range(1, 1000) { skip; } } } }";
    let more =
        b"module main { init { for i in range(1, 999) { for j in range(1, 1000) { skip; } } skip; } }";
    assert_eq!(rt; is_large(alloc, most.as_slice()), Some(false));
    assert_eq!(rt; is_large(alloc, more.as_slice()), Some(true));
    Ok(())
}

/// Modules that stand under main so many levels deep, each with two instances of the next.
fn with_levels(alloc: Global, count: u32) -> Result<Vec<u8>, AllocError> {
    let mut text = Vec::from_slice(
        alloc,
        b"module main { instance a : m1(); instance b : m1(); } ",
    )?;
    for level in 1..count {
        let next = level + 1;
        let module = format!(in alloc;
            "module m{level} {{ instance a : m{next}(); instance b : m{next}(); }} "
        )?;
        text.extend_from_slice(module.as_bytes())?;
    }
    let last = format!(in alloc; "module m{count} {{ }}")?;
    text.extend_from_slice(last.as_bytes())?;
    Ok(text)
}

#[test]
fn main_has_at_most_65535_instances(rt: HostRuntime) -> Result<(), Fail> {
    let alloc = rt.alloc();
    let text = with_levels(alloc, 15)?;
    assert_eq!(rt; is_large(alloc, text.as_slice()), Some(false));
    let deeper = with_levels(alloc, 16)?;
    assert_eq!(rt; is_large(alloc, deeper.as_slice()), Some(true));
    Ok(())
}

/// A module with a chain of so many defines.
fn with_chain(alloc: Global, count: u32) -> Result<Vec<u8>, AllocError> {
    let mut text = Vec::from_slice(alloc, b"module m { ")?;
    for number in 1..count {
        let next = number + 1;
        let define = format!(in alloc; "define f{number}() : boolean = f{next}(); ")?;
        text.extend_from_slice(define.as_bytes())?;
    }
    let last = format!(in alloc; "define f{count}() : boolean = true; }}")?;
    text.extend_from_slice(last.as_bytes())?;
    Ok(text)
}

/// Whether a chain of uses of a text is too long.
fn is_long(alloc: Global, text: &[u8]) -> Option<bool> {
    let mut names = Names::new(alloc);
    let modules = modules_of(alloc, &mut names, text)?;
    let design = DesignNames::of(alloc, design_of(&names, modules.as_slice())).ok()?;
    has_long_uses(alloc, &design).ok()
}

#[test]
fn a_chain_has_at_most_32_uses(rt: HostRuntime) -> Result<(), Fail> {
    let alloc = rt.alloc();
    let text = with_chain(alloc, 32)?;
    assert_eq!(rt; is_long(alloc, text.as_slice()), Some(false));
    let longer = with_chain(alloc, 33)?;
    assert_eq!(rt; is_long(alloc, longer.as_slice()), Some(true));
    Ok(())
}
