//! The walk over an expression.

ghost use Rattle.std.specs.Prelude.{◌≡◌, map, OnOk};
ghost use Rattle.uc_rules.specs.Expressions.{is_extension};
ghost use Rattle.uc_order_rules.specs.Sizes.{total};
ghost use Rattle.uc_sizes.specs.Counting.{Adds, behind_first, branch_nodes, nodes_in, nodes_of_all, primary_in, selection_in};

use crate::counted::{Counted, Use};
use std::alloc::AllocError;
use uc_syntax::{BitFunction, Branch, Expr, Primary, Selection};

/// Counts the nodes of an expression, and adds what it uses.
#[cycle(add_nodes)]
pub fn add_nodes<'a>(expression: &'a Expr, counted: &mut Counted<'a>) -> Result<(), AllocError>
    ensures { OnOk result (Adds counted.old counted.new (λ c. nodes_in c expression.now)) }
{
    counted.add_node()?;
    match expression {
        Expr::If(_, branches, otherwise) => {
            add_in_branches(branches.as_slice(), counted)?;
            add_nodes(otherwise.get(), counted)
        }
        Expr::Iff(_, operands, _) => add_nodes_of_all(operands.as_slice(), counted),
        Expr::Implies(_, operands, _) => add_nodes_of_all(operands.as_slice(), counted),
        Expr::Or(_, operands, _) => add_nodes_of_all(operands.as_slice(), counted),
        Expr::And(_, operands, _) => add_nodes_of_all(operands.as_slice(), counted),
        Expr::Compare(_, _, _, left, right) => {
            add_nodes(left.get(), counted)?;
            add_nodes(right.get(), counted)
        }
        Expr::BitOr(_, operands, _) => add_nodes_of_all(operands.as_slice(), counted),
        Expr::BitXor(_, operands, _) => add_nodes_of_all(operands.as_slice(), counted),
        Expr::BitAnd(_, operands, _) => add_nodes_of_all(operands.as_slice(), counted),
        Expr::Concat(_, operands, _) => add_nodes_of_all(operands.as_slice(), counted),
        Expr::Sum(_, operands, _) => add_nodes_of_all(operands.as_slice(), counted),
        Expr::Product(_, operands, _) => add_nodes_of_all(operands.as_slice(), counted),
        Expr::Unary(_, _, operand) => add_nodes(operand.get(), counted),
        Expr::Selected(_, primary, selections) => {
            add_in_primary(primary, selections.as_slice(), counted)?;
            add_in_selections(selections.as_slice(), counted)
        }
    }
}

/// Counts the nodes of expressions, one after another.
#[cycle(add_nodes)]
pub fn add_nodes_of_all<'a>(
    expressions: &'a [Expr],
    counted: &mut Counted<'a>,
) -> Result<(), AllocError>
    ensures { OnOk result (Adds counted.old counted.new (nodes_of_all expressions.now)) }
{
    for expression in expressions {
        add_nodes(expression, counted)?;
    }
    Ok(())
}

#[cycle(add_nodes)]
fn add_in_branches<'a>(
    branches: &'a [Branch<Expr>],
    counted: &mut Counted<'a>,
) -> Result<(), AllocError>
    ensures { OnOk result (Adds counted.old counted.new (λ c. total (map (branch_nodes c) branches.now))) }
{
    for branch in branches {
        add_nodes(&branch.condition, counted)?;
        add_nodes(&branch.value, counted)?;
    }
    Ok(())
}

/// Counts what a primary has, and adds the name that it reads or applies.
#[cycle(add_nodes)]
fn add_in_primary<'a>(
    primary: &'a Primary<Expr>,
    selections: &'a [Selection<Expr>],
    counted: &mut Counted<'a>,
) -> Result<(), AllocError>
    ensures { OnOk result (Adds counted.old counted.new (λ c. primary_in c primary.now selections.now)) }
{
    match primary {
        Primary::Truth(_) => Ok(()),
        Primary::Number(_) => Ok(()),
        Primary::BitsLiteral(_, _) => Ok(()),
        Primary::Name(name, _) => counted.add_use(Use::Name(*name, selections)),
        Primary::Apply(name, arguments) => {
            counted.add_use(Use::Applied(*name))?;
            add_nodes_of_all(arguments.as_slice(), counted)
        }
        Primary::OnBits(function, arguments) => {
            if is_extension(*function) {
                add_behind_first(arguments.as_slice(), counted)
            } else {
                add_nodes_of_all(arguments.as_slice(), counted)
            }
        }
        Primary::Old(identifier) => counted.add_use(Use::Name(identifier.name, &[])),
        Primary::Grouped(inner) => add_nodes(inner.get(), counted),
    }
}

/// Counts the nodes of all expressions but the first.
#[cycle(add_nodes)]
fn add_behind_first<'a>(
    expressions: &'a [Expr],
    counted: &mut Counted<'a>,
) -> Result<(), AllocError>
    ensures { OnOk result (Adds counted.old counted.new (λ c. behind_first (map (nodes_in c) expressions.now))) }
{
    for (place, expression) in expressions.iter().enumerate() {
        if place > 0 {
            add_nodes(expression, counted)?;
        }
    }
    Ok(())
}

#[cycle(add_nodes)]
fn add_in_selections<'a>(
    selections: &'a [Selection<Expr>],
    counted: &mut Counted<'a>,
) -> Result<(), AllocError>
    ensures { OnOk result (Adds counted.old counted.new (λ c. total (map (selection_in c) selections.now))) }
{
    for selection in selections {
        match selection {
            Selection::Element(_, index) => add_nodes(index, counted)?,
            Selection::Update(_, index, value) => {
                add_nodes(index, counted)?;
                add_nodes(value, counted)?;
            }
            Selection::Field(_, _) => {}
            Selection::Copy(_, _) => {}
            Selection::Extract(_, _, _) => {}
        }
    }
    Ok(())
}

/// The number of an extension is no node.
fn is_extension(function: BitFunction) -> bool
    ensures { result ≡ is_extension function }
{
    matches!(function, BitFunction::ZeroExtend | BitFunction::SignExtend)
}
