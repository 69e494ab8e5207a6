//! The walk over the body of a define.

ghost use Rattle.std.specs.Prelude.{◌≡◌, OnOk};
ghost use Rattle.std.specs.List.{list_any};
ghost use Rattle.std.specs.Option.{option_map};
ghost use Rattle.uc_names.specs.Senses.{module_in, value_meant};
ghost use Rattle.uc_rules.specs.Reads.{is_state, is_state_kind, name_reads, reads_by};
ghost use Rattle.uc_cycles.specs.Found.{Adds, branch_by, selection_by};

use crate::bound::Bound;
use crate::found::Found;
use std::alloc::AllocError;
use uc_items::Items;
use uc_names::{TypeHomes, Value};
use uc_syntax::{Branch, Expr, Primary, Selection, VariableKind};

/// Notes what an expression of the module at a place reads, where these names are bound.
#[cycle(note_reads)]
pub(crate) fn note_reads(
    homes: &TypeHomes<'_>,
    home: usize,
    bound: &Bound<'_>,
    e: &Expr,
    found: &mut Found,
) -> Result<(), AllocError>
    ensures { OnOk result (Adds found.old found.new (λ by. reads_by homes.now (module_in homes.now.modules home) bound.now by e.now)) }
{
    match e {
        Expr::If(_, branches, otherwise) => {
            note_branches(homes, home, bound, branches.as_slice(), found)?;
            note_reads(homes, home, bound, otherwise.get(), found)?;
            Ok(())
        }
        Expr::Iff(_, operands, _) => {
            note_operands(homes, home, bound, operands, found)?;
            Ok(())
        }
        Expr::Implies(_, operands, _) => {
            note_operands(homes, home, bound, operands, found)?;
            Ok(())
        }
        Expr::Or(_, operands, _) => {
            note_operands(homes, home, bound, operands, found)?;
            Ok(())
        }
        Expr::And(_, operands, _) => {
            note_operands(homes, home, bound, operands, found)?;
            Ok(())
        }
        Expr::Compare(_, _, _, left, right) => {
            note_reads(homes, home, bound, left.get(), found)?;
            note_reads(homes, home, bound, right.get(), found)?;
            Ok(())
        }
        Expr::BitOr(_, operands, _) => {
            note_operands(homes, home, bound, operands, found)?;
            Ok(())
        }
        Expr::BitXor(_, operands, _) => {
            note_operands(homes, home, bound, operands, found)?;
            Ok(())
        }
        Expr::BitAnd(_, operands, _) => {
            note_operands(homes, home, bound, operands, found)?;
            Ok(())
        }
        Expr::Concat(_, operands, _) => {
            note_operands(homes, home, bound, operands, found)?;
            Ok(())
        }
        Expr::Sum(_, operands, _) => {
            note_operands(homes, home, bound, operands, found)?;
            Ok(())
        }
        Expr::Product(_, operands, _) => {
            note_operands(homes, home, bound, operands, found)?;
            Ok(())
        }
        Expr::Unary(_, _, operand) => {
            note_reads(homes, home, bound, operand.get(), found)?;
            Ok(())
        }
        Expr::Selected(_, primary, selections) => match primary {
            Primary::Name(name, _) => {
                found.note_state(name_reads(homes, home, bound, *name));
                note_selections(homes, home, bound, selections, found)?;
                Ok(())
            }
            Primary::Old(name) => {
                found.note_state(name_reads(homes, home, bound, name.name));
                note_selections(homes, home, bound, selections, found)?;
                Ok(())
            }
            Primary::Apply(name, arguments) => {
                found.note_applied(*name)?;
                note_operands(homes, home, bound, arguments, found)?;
                note_selections(homes, home, bound, selections, found)?;
                Ok(())
            }
            Primary::OnBits(_, arguments) => {
                note_operands(homes, home, bound, arguments, found)?;
                note_selections(homes, home, bound, selections, found)?;
                Ok(())
            }
            Primary::Grouped(inner) => {
                note_reads(homes, home, bound, inner.get(), found)?;
                note_selections(homes, home, bound, selections, found)?;
                Ok(())
            }
            Primary::Truth(_) => {
                note_selections(homes, home, bound, selections, found)?;
                Ok(())
            }
            Primary::Number(_) => {
                note_selections(homes, home, bound, selections, found)?;
                Ok(())
            }
            Primary::BitsLiteral(_, _) => {
                note_selections(homes, home, bound, selections, found)?;
                Ok(())
            }
        },
    }
}

/// The same of several expressions.
#[cycle(note_reads)]
fn note_operands(
    homes: &TypeHomes<'_>,
    home: usize,
    bound: &Bound<'_>,
    operands: &Items<Expr>,
    found: &mut Found,
) -> Result<(), AllocError>
    ensures { OnOk result (Adds found.old found.new (λ by. list_any (λ e. reads_by homes.now (module_in homes.now.modules home) bound.now by e) operands.now)) }
{
    let operands = operands.as_slice();
    for operand in operands {
        note_reads(homes, home, bound, operand, found)?;
    }
    Ok(())
}

/// The same of the arms of a conditional.
#[cycle(note_reads)]
fn note_branches(
    homes: &TypeHomes<'_>,
    home: usize,
    bound: &Bound<'_>,
    branches: &[Branch<Expr>],
    found: &mut Found,
) -> Result<(), AllocError>
    ensures { OnOk result (Adds found.old found.new (λ by. list_any (branch_by (λ e. reads_by homes.now (module_in homes.now.modules home) bound.now by e)) branches.now)) }
{
    for branch in branches {
        note_reads(homes, home, bound, &branch.condition, found)?;
        note_reads(homes, home, bound, &branch.value, found)?;
    }
    Ok(())
}

/// The same of selections.
#[cycle(note_reads)]
fn note_selections(
    homes: &TypeHomes<'_>,
    home: usize,
    bound: &Bound<'_>,
    selections: &Items<Selection<Expr>>,
    found: &mut Found,
) -> Result<(), AllocError>
    ensures { OnOk result (Adds found.old found.new (λ by. list_any (selection_by (λ e. reads_by homes.now (module_in homes.now.modules home) bound.now by e)) selections.now)) }
{
    let selections = selections.as_slice();
    for selection in selections {
        match selection {
            Selection::Element(_, index) => {
                note_reads(homes, home, bound, index, found)?;
            }
            Selection::Update(_, index, value) => {
                note_reads(homes, home, bound, index, found)?;
                note_reads(homes, home, bound, value, found)?;
            }
            _ => {}
        }
    }
    Ok(())
}

/// Whether a name that is no bound one is state of the module, or an instance, of which state is read.
fn name_reads(homes: &TypeHomes<'_>, home: usize, bound: &Bound<'_>, name: u32) -> bool
    ensures { result ≡ name_reads homes.now (module_in homes.now.modules home) bound.now name }
{
    if bound.contains(name) {
        return false;
    }
    is_state(homes.value(home, name)) || homes.instance(home, name).is_some()
}

fn is_state(value: Option<Value<'_>>) -> bool
    ensures { result ≡ is_state (option_map value_meant value.entry) }
{
    match value {
        Some(Value::Variable(variable)) => is_state_kind(variable.kind),
        _ => false,
    }
}

fn is_state_kind(kind: VariableKind) -> bool
    ensures { result ≡ is_state_kind kind }
{
    match kind {
        VariableKind::Constant => false,
        _ => true,
    }
}
