use crate::code::truth_of;
use crate::layout::layout_of;
use Answer::{False, Leaves, NoMemory, NotRead, NotTruth, True};
use std::alloc::{AllocError, Global};
use std::process::Abort;
use std::test::Fail;
use uc_evaluator::eval_expr;
use uc_items::{Boxed, Items};
use uc_meaning::{Interp, Path, Scope, State, WideOp};
use uc_operators::EvalError;
use uc_syntax::Decl;
use uc_values::{Table, Value};

/// What a formula is found to be.
#[derive(Clone, Copy, Debug, PartialEq, Eq)]
pub(crate) enum Answer {
    True,
    False,
    /// An operation of this kind leaves 128 bits.
    Leaves(WideOp),
    NotTruth,
    NoMemory,
    NotRead,
}

/// What stands before a formula, and behind it.
const FRONT: &[u8] =
    b"module main { type t = enum { red, green }; type r = record { a : integer, b : boolean }; var x, big : integer; var y : bv4; var f : [integer]integer; var p : r; const k : integer; function g(n : integer) : integer; define twice(n : integer) : integer = n + n; instance i : sub(up : (twice(x) + 1)); invariant row : ";

const BACK: &[u8] = b"; } module sub { input up : integer; var z : integer; }";

/// Formulas in the scope of main where x is 7, big is 2^127 - 1, y is 12, f is 5 at 3 and else 0, p is (2, true), the z of i is 9, k is 3,
/// and g is 4 everywhere.
const ROWS: [(&[u8], Answer); 22] = [
    (b"x + 1 == 8 && -x == 0 - 7", True),
    (b"x - 1 - 1 == 7", False),
    (b"big + 1 > big", Leaves(WideOp::Add)),
    (b"big * big == 0 - big - big", Leaves(WideOp::Mul)),
    (b"if (x == 7) then true else big + big == 0", True),
    (b"x == 8 || 0 - big - 1 - 1 == x", Leaves(WideOp::Sub)),
    (b"x == 7 ==> !(x == 7)", False),
    (b"x == 7 <==> y == 12bv4", True),
    (b"y + 5bv4 == 1bv4 && y * 2bv4 == 8bv4", True),
    (b"y < 3bv4 && y >_u 3bv4", True),
    (b"y[3:2] ++ 1bv1 == 7bv3", True),
    (b"bv_sign_extend(4, y) == 252bv8", True),
    (b"f[3] == 5 && f[4] == 0", True),
    (b"f[3 -> 1][3] == 1 && f[3 -> 1][4] == 0", True),
    (b"f[4 -> 6][3 -> 0] == f[3 -> 0][4 -> 6]", True),
    (b"p.a == 2 && p.b", True),
    (b"red == green", False),
    (b"twice(twice(x)) == 28", True),
    (b"twice(big) == 0", Leaves(WideOp::Add)),
    (b"g(k) == k + 1", True),
    (b"i.up == 15 && i.z == 9", True),
    (b"x", NotTruth),
];

/// The array of whole numbers that is 5 at 3, and else 0.
fn array(alloc: Global) -> Result<Value, AllocError> {
    let mut exceptions = Items::new(alloc);
    exceptions.push((Value::Int(3), Value::Int(5)))?;
    Ok(Value::Arr(Boxed::new(alloc, Value::Int(0))?, exceptions))
}

fn record(alloc: Global) -> Result<Value, AllocError> {
    let mut parts = Items::new(alloc);
    parts.push(Value::Int(2))?;
    parts.push(Value::Bool(true))?;
    Ok(Value::Rec(parts))
}

fn state(alloc: Global) -> Result<State, AllocError> {
    let mut cells = Items::new(alloc);
    cells.push(Value::Int(7))?;
    cells.push(Value::Int(i128::MAX))?;
    cells.push(Value::Bv(4, 12))?;
    cells.push(array(alloc)?)?;
    cells.push(record(alloc)?)?;
    cells.push(Value::Int(9))?;
    Ok(State { cells })
}

fn interpretation(alloc: Global) -> Result<Interp, AllocError> {
    let mut consts = Items::new(alloc);
    consts.push(Value::Int(3))?;
    let mut tables = Items::new(alloc);
    tables.push(Table {
        rows: Items::new(alloc),
        default: Value::Int(4),
    })?;
    Ok(Interp { consts, tables })
}

/// The scope of main in a state.
pub(crate) fn scope_of_main(alloc: Global, before: State, interp: Interp) -> Scope {
    Scope {
        path: Path::main(alloc),
        before,
        after: None,
        at_entry: None,
        copies: Items::new(alloc),
        locals: Items::new(alloc),
        interp,
    }
}

fn scope(alloc: Global) -> Result<Scope, AllocError> {
    Ok(scope_of_main(alloc, state(alloc)?, interpretation(alloc)?))
}

/// What the formula of the first invariant of a text is.
pub(crate) fn judged(alloc: Global, scope: &Scope, text: &[u8]) -> Result<Answer, AllocError> {
    let Some(layout) = layout_of(alloc, text)? else {
        return Ok(NotRead);
    };
    let [main, ..] = layout.system().modules else {
        return Ok(NotRead);
    };
    for declaration in main.decls.as_slice() {
        if let Decl::Invariant(_, _, formula) = declaration {
            let answer = match eval_expr(alloc, &layout, scope, formula) {
                Ok(value) => match truth_of(&value) {
                    Some(true) => True,
                    Some(false) => False,
                    None => NotTruth,
                },
                Err(EvalError::Wide(wide)) => Leaves(wide.op),
                Err(EvalError::NoMemory) => NoMemory,
            };
            return Ok(answer);
        }
    }
    Ok(NotRead)
}

#[test]
fn formulas_are_what_they_say(rt: HostRuntime) -> Result<(), Fail> {
    let alloc = rt.alloc();
    let scope = scope(alloc)?;
    for (formula, expected) in ROWS {
        let mut text = Vec::from_slice(alloc, FRONT)?;
        text.extend_from_slice(formula)?;
        text.extend_from_slice(BACK)?;
        let answer = judged(alloc, &scope, text.as_slice())?;
        assert_eq!(rt; answer, expected);
    }
    Ok(())
}
