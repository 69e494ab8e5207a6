//! The walk over an expression.

ghost use Rattle.std.specs.Prelude.{◌≡◌, map, IfOk};
ghost use Rattle.std.specs.Option.{option_and_then};
ghost use Rattle.uc_flat_expressions.specs.Answers.{IsAnswer};
ghost use Rattle.uc_flat_expressions.specs.Pairs.{two_in};
ghost use Rattle.uc_flat_expressions.specs.Names.{named, of_cell, cell_in};
ghost use Rattle.uc_flat_expressions.specs.Building.{chain, junction, implication, sum};
ghost use Rattle.uc_flat_expressions.specs.Expressions.{flat_of, all_of, unary_form, arm_of, joined_arms, truth_literal, number_literal, bits_literal, on_two, plain_primary, select_of, select_all_of};

use crate::building::{
    Chain, choice, comparison, constant, field_selected, from_left, implication, junction, on_bits,
    range_selected, sum, unary_of,
};
use crate::typed::{FlatError, Meant, TypedArm, TypedExpression};
use std::alloc::{AllocError, Global};
use uc_flat::Expression;
use uc_items::{Items, at, beside};
use uc_ops::Op;
use uc_syntax::{
    BitFunction, Branch, Comparison, Expr, Primary, Selection, SumSign, UnaryOperator,
};
use uc_values::{Ty, Value, copy_ty};

/// The expression over cells that has the value of an expression, where names stand for what is listed by their numbers. Not built are
/// whole numbers but as the number of an extension, arrays, functions and defines, `old`, copies, and what breaks a rule of types.
#[cycle(flat_expression)]
#[tactic(auto, using(crate::proofs::Forms::iff_answer, crate::proofs::Forms::implies_answer, crate::proofs::Forms::or_answer, crate::proofs::Forms::and_answer, crate::proofs::Forms::bit_or_answer, crate::proofs::Forms::bit_xor_answer, crate::proofs::Forms::bit_and_answer, crate::proofs::Forms::concat_answer, crate::proofs::Forms::product_answer, crate::proofs::Forms::sum_answer, crate::proofs::Forms::unary_answer, crate::proofs::Forms::if_answer, crate::proofs::Forms::compare_left_err, crate::proofs::Forms::compare_right_err, crate::proofs::Forms::compare_ok, crate::proofs::Forms::on_bits_err, crate::proofs::Forms::on_bits_ok, crate::proofs::Forms::grouped_err, crate::proofs::Forms::grouped_ok, crate::proofs::Forms::plain_answer))]
pub fn flat_expression(
    alloc: Global,
    names: &[Meant],
    e: &Expr,
) -> Result<TypedExpression, FlatError>
    ensures { IsAnswer (flat_of names.now e.now) result }
{
    match e {
        Expr::If(_, branches, otherwise) => {
            let rest = flat_expression(alloc, names, otherwise.get())?;
            let (rest, arms) = beside(rest, flat_arms(alloc, names, branches.as_slice()))?;
            joined_arms(alloc, arms, rest)
        }
        Expr::Iff(_, operands, _) => chained(alloc, names, Chain::Equal, operands.as_slice()),
        Expr::Implies(_, operands, _) => implied(alloc, names, operands.as_slice()),
        Expr::Or(_, operands, _) => joined_truths(alloc, names, Op::Or, operands.as_slice()),
        Expr::And(_, operands, _) => joined_truths(alloc, names, Op::And, operands.as_slice()),
        Expr::Compare(_, how, _, a, b) => {
            let left = flat_expression(alloc, names, a.get())?;
            let (left, right) = beside(left, flat_expression(alloc, names, b.get()))?;
            comparison(alloc, *how, left, right)
        }
        Expr::BitOr(_, operands, _) => chained(alloc, names, Chain::Or, operands.as_slice()),
        Expr::BitXor(_, operands, _) => chained(alloc, names, Chain::Xor, operands.as_slice()),
        Expr::BitAnd(_, operands, _) => chained(alloc, names, Chain::And, operands.as_slice()),
        Expr::Concat(_, operands, _) => chained(alloc, names, Chain::Concat, operands.as_slice()),
        Expr::Sum(_, operands, signs) => {
            summed(alloc, names, operands.as_slice(), signs.as_slice())
        }
        Expr::Product(_, operands, _) => {
            chained(alloc, names, Chain::Multiply, operands.as_slice())
        }
        Expr::Unary(_, operator, operand) => negated(alloc, names, *operator, operand.get()),
        Expr::Selected(_, primary, selections) => match primary {
            Primary::OnBits(function, arguments) => {
                let parts = flat_all(alloc, names, arguments.as_slice())?;
                on_parts(alloc, *function, parts, selections.as_slice())
            }
            Primary::Grouped(inner) => {
                let whole = flat_expression(alloc, names, inner.get())?;
                select_all(alloc, whole, selections.as_slice())
            }
            _ => selected(alloc, names, primary, selections.as_slice()),
        },
    }
}

#[cycle(flat_expression)]
fn flat_all(
    alloc: Global,
    names: &[Meant],
    es: &[Expr],
) -> Result<Items<TypedExpression>, FlatError>
    ensures { IsAnswer (all_of (map (flat_of names.now) es.now)) result }
{
    let mut all = Items::new(alloc);
    for e in es {
        let t = flat_expression(alloc, names, e)?;
        all.push(t)?;
    }
    Ok(all)
}

#[cycle(flat_expression)]
fn chained(
    alloc: Global,
    names: &[Meant],
    kind: Chain,
    es: &[Expr],
) -> Result<TypedExpression, FlatError>
    ensures { IsAnswer (option_and_then (chain kind) (all_of (map (flat_of names.now) es.now))) result }
{
    let parts = flat_all(alloc, names, es)?;
    from_left(alloc, kind, parts)
}

#[cycle(flat_expression)]
fn implied(alloc: Global, names: &[Meant], es: &[Expr]) -> Result<TypedExpression, FlatError>
    ensures { IsAnswer (option_and_then implication (all_of (map (flat_of names.now) es.now))) result }
{
    let parts = flat_all(alloc, names, es)?;
    implication(alloc, parts)
}

#[cycle(flat_expression)]
fn joined_truths(
    alloc: Global,
    names: &[Meant],
    op: Op,
    es: &[Expr],
) -> Result<TypedExpression, FlatError>
    ensures { IsAnswer (option_and_then (junction op) (all_of (map (flat_of names.now) es.now))) result }
{
    let (op, parts) = beside(op, flat_all(alloc, names, es))?;
    junction(alloc, op, parts)
}

#[cycle(flat_expression)]
fn summed(
    alloc: Global,
    names: &[Meant],
    es: &[Expr],
    signs: &[SumSign],
) -> Result<TypedExpression, FlatError>
    ensures { IsAnswer (option_and_then (sum signs.now) (all_of (map (flat_of names.now) es.now))) result }
{
    let parts = flat_all(alloc, names, es)?;
    sum(alloc, signs, parts)
}

#[cycle(flat_expression)]
fn negated(
    alloc: Global,
    names: &[Meant],
    operator: UnaryOperator,
    e: &Expr,
) -> Result<TypedExpression, FlatError>
    ensures { IsAnswer (unary_form operator (flat_of names.now e.now)) result }
{
    let part = flat_expression(alloc, names, e)?;
    unary_of(alloc, operator, part)
}

/// The conditions and the values of arms.
#[cycle(flat_expression)]
fn flat_arms(
    alloc: Global,
    names: &[Meant],
    branches: &[Branch<Expr>],
) -> Result<Items<TypedArm>, FlatError>
    ensures { IsAnswer (all_of (map (arm_of (flat_of names.now)) branches.now)) result }
{
    let mut arms = Items::new(alloc);
    for branch in branches {
        let condition = flat_expression(alloc, names, &branch.condition)?;
        let (condition, value) = beside(condition, flat_expression(alloc, names, &branch.value))?;
        arms.push(TypedArm { condition, value })?;
    }
    Ok(arms)
}

/// Arms and what stands behind them, joined from the last one on.
#[tactic(auto, unfolding(crate::specs::Expressions::joined_arms), using(crate::proofs::Forms::joined_last, crate::proofs::Forms::joined_none))]
fn joined_arms(
    alloc: Global,
    arms: Items<TypedArm>,
    rest: TypedExpression,
) -> Result<TypedExpression, FlatError>
    ensures { IsAnswer (joined_arms arms rest) result }
{
    let mut left = arms;
    let mut whole = rest;
    while let Some(arm) = left.pop() {
        whole = choice(alloc, arm.condition, arm.value, whole)?;
    }
    Ok(whole)
}

/// A primary without parts, with its selections.
fn selected(
    alloc: Global,
    names: &[Meant],
    primary: &Primary<Expr>,
    selections: &[Selection<Expr>],
) -> Result<TypedExpression, FlatError>
    ensures { IsAnswer (option_and_then (λ t. select_all_of t selections.now) (plain_primary names.now primary.now)) result }
{
    let whole = plain_primary(alloc, names, primary)?;
    select_all(alloc, whole, selections)
}

/// A function on bits, with the selections behind it.
fn on_parts(
    alloc: Global,
    function: BitFunction,
    parts: Items<TypedExpression>,
    selections: &[Selection<Expr>],
) -> Result<TypedExpression, FlatError>
    ensures { IsAnswer (option_and_then (λ t. select_all_of t selections.now) (on_two function parts)) result }
{
    let whole = on_two(alloc, function, parts)?;
    select_all(alloc, whole, selections)
}

/// A function on bits, which has two parts.
fn on_two(
    alloc: Global,
    function: BitFunction,
    parts: Items<TypedExpression>,
) -> Result<TypedExpression, FlatError>
    ensures { IsAnswer (on_two function parts) result }
{
    let (number, bits) = two_in(parts)?;
    on_bits(alloc, function, number, bits)
}

/// The two values of a list that has two.
fn two_in<T: Drop>(list: Items<T>) -> Result<(T, T), FlatError>
    ensures { IsAnswer (two_in list) result }
{
    let mut left = list;
    let Some(second) = left.pop() else {
        return Err(FlatError::NotBuilt);
    };
    let Some(first) = left.pop() else {
        return Err(FlatError::NotBuilt);
    };
    if !left.is_empty() {
        return Err(FlatError::NotBuilt);
    }
    Ok((first, second))
}

/// Selections from left to right.
#[tactic(auto, unfolding(crate::specs::Expressions::select_all_of))]
fn select_all(
    alloc: Global,
    whole: TypedExpression,
    selections: &[Selection<Expr>],
) -> Result<TypedExpression, FlatError>
    ensures { IsAnswer (select_all_of whole selections.now) result }
{
    let mut now = whole;
    for selection in selections {
        now = select(alloc, now, selection)?;
    }
    Ok(now)
}

fn select(
    alloc: Global,
    whole: TypedExpression,
    selection: &Selection<Expr>,
) -> Result<TypedExpression, FlatError>
    ensures { IsAnswer (select_of whole selection.now) result }
{
    match selection {
        Selection::Field(_, field) => field_selected(alloc, whole, field.name),
        Selection::Extract(_, high, low) => range_selected(alloc, whole, *high, *low),
        _ => Err(FlatError::NotBuilt),
    }
}

/// A primary without parts.
fn plain_primary(
    alloc: Global,
    names: &[Meant],
    primary: &Primary<Expr>,
) -> Result<TypedExpression, FlatError>
    ensures { IsAnswer (plain_primary names.now primary.now) result }
{
    match primary {
        Primary::Truth(b) => Ok(truth_literal(alloc, *b)),
        Primary::Number(n) => number_literal(alloc, *n),
        Primary::BitsLiteral(n, width) => bits_literal(alloc, *n, *width),
        Primary::Name(name, primed) => named(alloc, names, *name, *primed),
        _ => Err(FlatError::NotBuilt),
    }
}

fn truth_literal(alloc: Global, b: bool) -> TypedExpression
    ensures { result ≡ truth_literal b }
{
    constant(alloc, Op::Const(Ty::Bool, Value::Bool(b)), Ty::Bool)
}

/// A whole number, which is built up to 64.
fn number_literal(alloc: Global, n: u128) -> Result<TypedExpression, FlatError>
    ensures { IsAnswer (number_literal n) result }
{
    if n > 64 {
        return Err(FlatError::NotBuilt);
    }
    Ok(TypedExpression {
        expression: Expression::Apply(Op::Const(Ty::Int, Value::Int(n as i128)), Items::new(alloc)),
        ty: Ty::Int,
        number: Some(n as u8),
    })
}

fn bits_literal(alloc: Global, n: u128, width: u32) -> Result<TypedExpression, FlatError>
    ensures { IsAnswer (bits_literal n width) result }
{
    if width == 0 || width > 64 {
        return Err(FlatError::NotBuilt);
    }
    if n >= 1_u128 << width {
        return Err(FlatError::NotBuilt);
    }
    let width = width as u8;
    let value = Value::Bv(width, n as u64);
    Ok(constant(alloc, Op::Const(Ty::Bv(width), value), Ty::Bv(width)))
}

fn of_cell(alloc: Global, cell: u32, ty: &Ty) -> Result<TypedExpression, AllocError>
    ensures { IfOk result (λ t. t ≡ of_cell cell ty.now) }
{
    let ty = copy_ty(alloc, ty)?;
    Ok(TypedExpression {
        expression: Expression::Cell(cell),
        ty,
        number: None,
    })
}

/// A cell of the old state; primed, that of the new state, where this may be read.
fn cell_in(
    alloc: Global,
    primed: bool,
    old: u32,
    new: Option<u32>,
    ty: &Ty,
) -> Result<TypedExpression, FlatError>
    ensures { IsAnswer (cell_in primed old new ty.now) result }
{
    if !primed {
        let t = of_cell(alloc, old, ty)?;
        return Ok(t);
    }
    match new {
        Some(cell) => {
            let t = of_cell(alloc, cell, ty)?;
            Ok(t)
        }
        None => Err(FlatError::NotBuilt),
    }
}

/// What a name stands for; primed, a cell is that of the new state, where this may be read.
fn named(
    alloc: Global,
    names: &[Meant],
    name: u32,
    primed: bool,
) -> Result<TypedExpression, FlatError>
    ensures { IsAnswer (named names.now name primed) result }
{
    match at(names, name as usize) {
        Some(Meant::Cell(old, new, ty)) => cell_in(alloc, primed, *old, *new, ty),
        Some(Meant::Label(number, labels, place)) => {
            let value = Value::Enum(*number, *place);
            let op = Op::Const(Ty::Enum(*number, *labels), value);
            Ok(constant(alloc, op, Ty::Enum(*number, *labels)))
        }
        Some(Meant::Constant(number, ty)) => {
            let own = copy_ty(alloc, ty)?;
            let ty = copy_ty(alloc, ty)?;
            Ok(constant(alloc, Op::Symbol(*number, own), ty))
        }
        _ => Err(FlatError::NotBuilt),
    }
}
