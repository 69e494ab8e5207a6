//! The walk over an expression.

ghost use Rattle.std.specs.Prelude.{◌≡◌, ◌++◌, OnOk};
ghost use Rattle.std.specs.List.{flat_map};
ghost use Rattle.uc_order_rules.specs.Mentions.{mentions};
ghost use Rattle.uc_uses.specs.Meant.{in_branch, in_selection, meant};

use crate::mentioned_names::{Mentioned, dotted, push};
use std::alloc::{AllocError, Global};
use uc_items::Items;
use uc_syntax::{Branch, Expr, Primary, Selection};

/// Adds what an expression mentions.
#[cycle(add_mentions)]
pub fn add_mentions(
    alloc: Global,
    expression: &Expr,
    found: &mut Items<Mentioned>,
) -> Result<(), AllocError>
    ensures { OnOk result (meant found.new ≡ meant found.old ++ mentions expression.now) }
{
    match expression {
        Expr::If(_, branches, otherwise) => {
            add_in_branches(alloc, branches.as_slice(), found)?;
            add_mentions(alloc, otherwise.get(), found)?;
            Ok(())
        }
        Expr::Iff(_, operands, _) => {
            add_mentions_of_all(alloc, operands.as_slice(), found)?;
            Ok(())
        }
        Expr::Implies(_, operands, _) => {
            add_mentions_of_all(alloc, operands.as_slice(), found)?;
            Ok(())
        }
        Expr::Or(_, operands, _) => {
            add_mentions_of_all(alloc, operands.as_slice(), found)?;
            Ok(())
        }
        Expr::And(_, operands, _) => {
            add_mentions_of_all(alloc, operands.as_slice(), found)?;
            Ok(())
        }
        Expr::Compare(_, _, _, left, right) => {
            add_mentions(alloc, left.get(), found)?;
            add_mentions(alloc, right.get(), found)?;
            Ok(())
        }
        Expr::BitOr(_, operands, _) => {
            add_mentions_of_all(alloc, operands.as_slice(), found)?;
            Ok(())
        }
        Expr::BitXor(_, operands, _) => {
            add_mentions_of_all(alloc, operands.as_slice(), found)?;
            Ok(())
        }
        Expr::BitAnd(_, operands, _) => {
            add_mentions_of_all(alloc, operands.as_slice(), found)?;
            Ok(())
        }
        Expr::Concat(_, operands, _) => {
            add_mentions_of_all(alloc, operands.as_slice(), found)?;
            Ok(())
        }
        Expr::Sum(_, operands, _) => {
            add_mentions_of_all(alloc, operands.as_slice(), found)?;
            Ok(())
        }
        Expr::Product(_, operands, _) => {
            add_mentions_of_all(alloc, operands.as_slice(), found)?;
            Ok(())
        }
        Expr::Unary(_, _, operand) => {
            add_mentions(alloc, operand.get(), found)?;
            Ok(())
        }
        Expr::Selected(_, primary, selections) => match primary {
            Primary::Truth(_) => {
                add_in_selections(alloc, selections.as_slice(), found)?;
                Ok(())
            }
            Primary::Number(_) => {
                add_in_selections(alloc, selections.as_slice(), found)?;
                Ok(())
            }
            Primary::BitsLiteral(_, _) => {
                add_in_selections(alloc, selections.as_slice(), found)?;
                Ok(())
            }
            Primary::Name(name, is_primed) => {
                let behind = dotted(alloc, selections.as_slice())?;
                push(Mentioned::Read(*name, *is_primed, behind), found)?;
                add_in_selections(alloc, selections.as_slice(), found)?;
                Ok(())
            }
            Primary::Apply(name, arguments) => {
                push(Mentioned::Applied(*name), found)?;
                add_mentions_of_all(alloc, arguments.as_slice(), found)?;
                add_in_selections(alloc, selections.as_slice(), found)?;
                Ok(())
            }
            Primary::OnBits(_, arguments) => {
                add_mentions_of_all(alloc, arguments.as_slice(), found)?;
                add_in_selections(alloc, selections.as_slice(), found)?;
                Ok(())
            }
            Primary::Old(identifier) => {
                push(Mentioned::AtEntry(identifier.name), found)?;
                add_in_selections(alloc, selections.as_slice(), found)?;
                Ok(())
            }
            Primary::Grouped(inner) => {
                add_mentions(alloc, inner.get(), found)?;
                add_in_selections(alloc, selections.as_slice(), found)?;
                Ok(())
            }
        },
    }
}

/// Adds what expressions mention, one after another.
#[cycle(add_mentions)]
pub fn add_mentions_of_all(
    alloc: Global,
    expressions: &[Expr],
    found: &mut Items<Mentioned>,
) -> Result<(), AllocError>
    ensures { OnOk result (meant found.new ≡ meant found.old ++ flat_map mentions expressions.now) }
{
    for expression in expressions {
        add_mentions(alloc, expression, found)?;
    }
    Ok(())
}

#[cycle(add_mentions)]
fn add_in_branches(
    alloc: Global,
    branches: &[Branch<Expr>],
    found: &mut Items<Mentioned>,
) -> Result<(), AllocError>
    ensures { OnOk result (meant found.new ≡ meant found.old ++ flat_map in_branch branches.now) }
{
    for branch in branches {
        add_mentions(alloc, &branch.condition, found)?;
        add_mentions(alloc, &branch.value, found)?;
    }
    Ok(())
}

#[cycle(add_mentions)]
fn add_in_selections(
    alloc: Global,
    selections: &[Selection<Expr>],
    found: &mut Items<Mentioned>,
) -> Result<(), AllocError>
    ensures { OnOk result (meant found.new ≡ meant found.old ++ flat_map in_selection selections.now) }
{
    for selection in selections {
        match selection {
            Selection::Element(_, index) => add_mentions(alloc, index, found)?,
            Selection::Update(_, index, value) => {
                add_mentions(alloc, index, found)?;
                add_mentions(alloc, value, found)?;
            }
            Selection::Field(_, _) => {}
            Selection::Copy(_, _) => {}
            Selection::Extract(_, _, _) => {}
        }
    }
    Ok(())
}
