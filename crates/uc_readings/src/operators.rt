//! Chains of operators on bits and numbers, comparisons and the operators on one operand.

ghost use Rattle.std.specs.Prelude.{◌≡◌, IfOk};
ghost use Rattle.uc_values.specs.declared.ty.Ty.TheVariants.{Bv as bits_type};
ghost use Rattle.uc_meaning.specs.Operators.{chained, concatenated, summed, product, compared, unary};
ghost use Rattle.uc_meaning.specs.Expressions.{reads, reads_truth};
ghost use Rattle.uc_meaning.specs.Overflow.{operations_of_sum, operations_of_product, unary_operations};
ghost use Rattle.uc_operators.specs.Bits.{combined};
ghost use Rattle.uc_operators.specs.Overflows.{first_wide, TellsWide};
ghost use Rattle.uc_meaning.specs.Shapes.{first_of, widths};
ghost use Rattle.uc_readings.specs.Readings.{reading_of};

use crate::said::{Said, truth};
use crate::words::{check_total, check_word, check_words, is_word, widths};
use std::alloc::{AllocError, Global};
use uc_operators::{BitOperator, EvalError, multiplied, summed, unary};
use uc_syntax::{Comparison, SumSign, UnaryOperator};
use uc_values::{Ty, Value, copy_ty};

/// The type of the first operand.
fn first_type(alloc: Global, types: &[Ty]) -> Result<Ty, AllocError>
    ensures { IfOk result (λ t. t ≡ first_of types.now) }
{
    if types.is_empty() {
        return Ok(Ty::Bool);
    }
    copy_ty(alloc, &types[0])
}

/// A chain of an operator that works bit by bit.
pub fn bitwise(
    alloc: Global,
    operator: BitOperator,
    types: &[Ty],
    values: &[Value],
) -> Result<Said, AllocError>
    ensures { IfOk result (λ r. reading_of r ≡ reads (first_of types.now) (chained (combined operator) values.now)) }
{
    let ty = first_type(alloc, types)?;
    let value = uc_operators::bitwise(alloc, operator, values)?;
    Ok(Said { ty, value })
}

/// A chain of `++`.
pub fn joined(alloc: Global, types: &[Ty], values: &[Value]) -> Result<Said, AllocError>
    ensures { IfOk result (λ r. reading_of r ≡ reads (bits_type (widths types.now)) (chained concatenated values.now)) }
{
    check_words(values)?;
    check_total(values)?;
    let width = widths(types)?;
    let value = uc_operators::concatenated(alloc, values)?;
    Ok(Said {
        ty: Ty::Bv(width),
        value,
    })
}

/// A sum with the sign before each operand after the first.
pub fn total(
    alloc: Global,
    signs: &[SumSign],
    types: &[Ty],
    values: &[Value],
) -> Result<Said, EvalError>
    ensures value { IfOk result (λ r. reading_of r ≡ reads (first_of types.now) (summed signs.now values.now)) }
    ensures wide { TellsWide (first_wide (operations_of_sum signs.now values.now)) result }
{
    check_words(values)?;
    let ty = first_type(alloc, types)?;
    let value = summed(alloc, signs, values)?;
    Ok(Said { ty, value })
}

/// A product.
pub fn multiple(alloc: Global, types: &[Ty], values: &[Value]) -> Result<Said, EvalError>
    ensures value { IfOk result (λ r. reading_of r ≡ reads (first_of types.now) (chained product values.now)) }
    ensures wide { TellsWide (first_wide (operations_of_product values.now)) result }
{
    check_words(values)?;
    let ty = first_type(alloc, types)?;
    let value = multiplied(alloc, values)?;
    Ok(Said { ty, value })
}

/// Whether a comparison holds of two operands, by the type of the first.
pub fn compared(how: Comparison, ty: &Ty, left: &Value, right: &Value) -> Result<Said, AllocError>
    ensures { IfOk result (λ r. reading_of r ≡ reads_truth (compared how ty.now left.now right.now)) }
{
    if !is_word(left) || !is_word(right) {
        return Err(AllocError);
    }
    Ok(truth(uc_operators::compared(how, ty, left, right)))
}

/// What an operator says of its one operand.
pub fn applied(operator: UnaryOperator, operand: Said) -> Result<Said, EvalError>
    ensures value { IfOk result (λ r. reading_of r ≡ reads operand.ty (unary operator operand.value)) }
    ensures wide { TellsWide (first_wide (unary_operations operator operand.value)) result }
{
    let Said { ty, value } = operand;
    check_word(&value)?;
    let value = unary(operator, &value)?;
    Ok(Said { ty, value })
}
