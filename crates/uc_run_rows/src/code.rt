use crate::layout::layout_of;
use Outcome::{BadChoice, Ends, Leaves, NoMemory, NotRead, NotTruth, Stopped};
use std::alloc::{AllocError, Global};
use std::process::Abort;
use std::test::Fail;
use uc_evaluator::eval_expr;
use uc_items::{Boxed, Items};
use uc_layout::Layout;
use uc_meaning::{CodeEnd, Interp, Path, Scope, State, WideOp};
use uc_operators::EvalError;
use uc_runs::run_code;
use uc_syntax::{Decl, Expr, Module, Stmt};
use uc_values::Value;

/// What comes of code.
#[derive(Clone, Copy, Debug, PartialEq, Eq)]
enum Outcome {
    /// Whether the formula is true at the end, how many sites are listed, and how many choices are used.
    Ends(bool, usize, usize),
    Stopped,
    BadChoice(usize),
    /// An operation of this kind leaves 128 bits.
    Leaves(WideOp),
    NotTruth,
    NoMemory,
    NotRead,
}

/// What stands before code, between it and its formula, and behind the formula.
const FRONT: &[u8] =
    b"module main { type r = record { a : integer, b : boolean }; var x, y, big : integer; var f : [integer]integer; var p : r; var q : boolean; procedure twice(n : integer) returns (m : integer) requires n > 0; requires n < 9; modifies y; { m = n + n; y = n; } procedure two(n : integer) returns (a : integer, b : boolean) { if (n > 0) { var c : integer; c = n + 1; a = c; } b = n > 0; } procedure again() modifies x; { x = x + 1; call (y) = twice(x); } instance i : sub(out : (y)); init { ";

const MIDDLE: &[u8] = b" } invariant row : ";

const BACK: &[u8] = b"; } module sub { output out : integer; var z : integer; }";

/// Code of main from the state where x is 1, y is 2, big is 2^127 - 1, f is 5 at 3 and else 0, p is (2, true) and q is false, by the choices
/// 5, true and 7; and a formula at its end.
const ROWS: [(&[u8], &[u8], Outcome); 32] = [
    (b"x = 5; y = x + 1;", b"x == 5 && y == 6", Ends(true, 0, 0)),
    (b"x, y = y, x;", b"x == 2 && y == 1", Ends(true, 0, 0)),
    (b"x, f[x] = 3, 7;", b"f[3] == 7", Ends(true, 0, 0)),
    (
        b"f[3] = 9; f[x] = 4;",
        b"f[3] == 9 && f[1] == 4 && f[2] == 0",
        Ends(true, 0, 0),
    ),
    (b"p.a = 8;", b"p.a == 8 && p.b", Ends(true, 0, 0)),
    (
        b"if (x == 2) { y = 10; } else if (x == 1) { y = 11; } else { y = 12; }",
        b"y == 11",
        Ends(true, 0, 0),
    ),
    (b"if (x == 2) { y = 10; }", b"y == 2", Ends(true, 0, 0)),
    (
        b"case x == 2 : { y = 3; } x == 1 : { y = 4; } true : { y = 5; } esac",
        b"y == 4",
        Ends(true, 0, 0),
    ),
    (
        b"case x == 2 : { y = 3; } default : { y = 6; } esac",
        b"y == 6",
        Ends(true, 0, 0),
    ),
    (
        b"for i in range(1, 4) { x = x + i; }",
        b"x == 11",
        Ends(true, 0, 0),
    ),
    (
        b"for i in range(4, 1) { x = x + i; }",
        b"x == 1",
        Ends(true, 0, 0),
    ),
    (
        b"for i in range(-2, 0) { x = x + i; }",
        b"x == 0 - 2",
        Ends(true, 0, 0),
    ),
    (
        b"for i in range(2bv4, 3bv4) { if (i == 3bv4) { y = 9; } }",
        b"y == 9",
        Ends(true, 0, 0),
    ),
    (
        b"{ var x : integer; y = x; x = 3; }",
        b"x == 1 && y == 5",
        Ends(true, 0, 1),
    ),
    (
        b"havoc x; havoc q; havoc y;",
        b"x == 5 && q && y == 7",
        Ends(true, 0, 3),
    ),
    (b"havoc q;", b"true", BadChoice(0)),
    (b"havoc x; havoc y;", b"true", BadChoice(1)),
    (
        b"havoc x; havoc q; havoc x; havoc x;",
        b"true",
        BadChoice(3),
    ),
    (b"assume x == 1; y = 4;", b"y == 4", Ends(true, 0, 0)),
    (b"assume x == 2; x = big + 1;", b"true", Stopped),
    (
        b"assert x == 1; assert x == 2; assert q;",
        b"x == 1",
        Ends(true, 2, 0),
    ),
    (
        b"for i in range(1, 3) { assert q; }",
        b"true",
        Ends(true, 1, 0),
    ),
    (
        b"skip; x = big + 1; assume q;",
        b"true",
        Leaves(WideOp::Add),
    ),
    (b"f[big * big] = 1;", b"true", Leaves(WideOp::Mul)),
    (
        b"if (x == 1) { y = 3; } else { y = big + big; }",
        b"y == 3",
        Ends(true, 0, 0),
    ),
    (
        b"call (x) = twice(4);",
        b"x == 8 && y == 4",
        Ends(true, 0, 1),
    ),
    (
        b"call (f[x]) = twice(9);",
        b"f[1] == 18 && y == 9",
        Ends(true, 1, 1),
    ),
    (b"call (x) = twice(big);", b"true", Leaves(WideOp::Add)),
    (b"call (x, q) = two(1);", b"x == 2 && q", Ends(true, 0, 3)),
    (b"call again();", b"x == 2 && y == 4", Ends(true, 0, 1)),
    (b"call (x) = two(1, 2); next (i);", b"true", Stopped),
    (b"y = 8; y = i.out + 1;", b"y == 9", Ends(true, 0, 0)),
];

/// The array of whole numbers that is 5 at 3, and else 0.
fn array(alloc: Global) -> Result<Value, AllocError> {
    let mut exceptions = Items::new(alloc);
    exceptions.push((Value::Int(3), Value::Int(5)))?;
    Ok(Value::Arr(Boxed::new(alloc, Value::Int(0))?, exceptions))
}

fn record(alloc: Global) -> Result<Value, AllocError> {
    let mut parts = Items::new(alloc);
    parts.push(Value::Int(2))?;
    parts.push(Value::Bool(true))?;
    Ok(Value::Rec(parts))
}

fn state(alloc: Global) -> Result<State, AllocError> {
    let mut cells = Items::new(alloc);
    cells.push(Value::Int(1))?;
    cells.push(Value::Int(2))?;
    cells.push(Value::Int(i128::MAX))?;
    cells.push(array(alloc)?)?;
    cells.push(record(alloc)?)?;
    cells.push(Value::Bool(false))?;
    cells.push(Value::Int(0))?;
    Ok(State { cells })
}

fn scope(alloc: Global) -> Result<Scope, AllocError> {
    Ok(Scope {
        path: Path::main(alloc),
        before: state(alloc)?,
        after: None,
        at_entry: None,
        copies: Items::new(alloc),
        locals: Items::new(alloc),
        interp: Interp {
            consts: Items::new(alloc),
            tables: Items::new(alloc),
        },
    })
}

fn init_of(module: &Module) -> Option<&[Stmt]> {
    module.decls.as_slice().iter().find_map(|decl| match decl {
        Decl::Init(_, block) => Some(block.as_slice()),
        _ => None,
    })
}

fn formula_of(module: &Module) -> Option<&Expr> {
    module.decls.as_slice().iter().find_map(|decl| match decl {
        Decl::Invariant(_, _, formula) => Some(formula),
        _ => None,
    })
}

fn outcome_of(
    alloc: Global,
    layout: &Layout,
    formula: &Expr,
    end: Result<CodeEnd, EvalError>,
) -> Outcome {
    match end {
        Ok(
            CodeEnd::Ended {
                scope,
                violated,
                used,
            },
        ) => match eval_expr(alloc, layout, &scope, formula) {
            Ok(value) => match truth_of(&value) {
                Some(holds) => Ends(holds, violated.len(), used),
                None => NotTruth,
            },
            Err(_) => NoMemory,
        },
        Ok(CodeEnd::Stopped) => Stopped,
        Ok(CodeEnd::BadChoice(number)) => BadChoice(number),
        Err(EvalError::Wide(wide)) => Leaves(wide.op),
        Err(EvalError::NoMemory) => NoMemory,
    }
}

/// What comes of the init block of the first module of a text.
fn run(alloc: Global, text: &[u8]) -> Result<Outcome, AllocError> {
    let Some(layout) = layout_of(alloc, text)? else {
        return Ok(NotRead);
    };
    let [main, ..] = layout.system().modules else {
        return Ok(NotRead);
    };
    let (Some(code), Some(formula)) = (init_of(main), formula_of(main)) else {
        return Ok(NotRead);
    };
    let choices = [Value::Int(5), Value::Bool(true), Value::Int(7)];
    let end = run_code(alloc, &layout, scope(alloc)?, code, &choices);
    Ok(outcome_of(alloc, &layout, formula, end))
}

#[test]
fn code_ends_as_it_says(rt: HostRuntime) -> Result<(), Fail> {
    let alloc = rt.alloc();
    for (code, formula, expected) in ROWS {
        let mut text = Vec::from_slice(alloc, FRONT)?;
        text.extend_from_slice(code)?;
        text.extend_from_slice(MIDDLE)?;
        text.extend_from_slice(formula)?;
        text.extend_from_slice(BACK)?;
        let found = run(alloc, text.as_slice())?;
        assert_eq!(rt; found, expected, "{code:?}");
    }
    Ok(())
}

/// The truth that a value is.
pub(crate) fn truth_of(value: &Value) -> Option<bool> {
    match value {
        Value::Bool(truth) => Some(*truth),
        _ => None,
    }
}
