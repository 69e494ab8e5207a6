//! Terms that are built, shared and evaluated together.

ghost use Rattle.std.specs.Prelude.{◌≡◌, ◌≤◌, ◌<◌, ◌^◌, length, IfOk, OnOk};
ghost use Rattle.uc_values.specs.declared.ty.Ty.TheVariants.{Bv};
ghost use Rattle.uc_ops.specs.Typing.{type_at};
ghost use Rattle.uc_terms.specs.Built.{Keeps};

use crate::building::{made, model_of};
use std::alloc::{AllocError, Global};
use std::process::Abort;
use std::test::Fail;
use uc_linear::LinearError;
use uc_terms::{Op, TermId, Terms, eval_all};
use uc_values::{Ty, Value};

fn bits_symbol(
    terms: &mut Terms,
    alloc: Global,
    number: u32,
    width: u8,
) -> Result<TermId, AllocError>
    requires low { 1 ≤ width }
    requires high { width ≤ 64 }
    ensures there { IfOk result (λ t. t < length terms.new) }
    ensures ty { IfOk result (λ t. type_at terms.new t ≡ Bv width) }
    ensures keeps { OnOk result (Keeps terms.old terms.new) }
{
    made(terms, alloc, Op::Symbol(number, Ty::Bv(width)), &[])
}

fn bits_constant(
    terms: &mut Terms,
    alloc: Global,
    width: u8,
    bits: u64,
) -> Result<TermId, AllocError>
    requires low { 1 ≤ width }
    requires high { width ≤ 64 }
    requires bits { bits < 2 ^ width }
    ensures there { IfOk result (λ t. t < length terms.new) }
    ensures ty { IfOk result (λ t. type_at terms.new t ≡ Bv width) }
    ensures keeps { OnOk result (Keeps terms.old terms.new) }
{
    made(
        terms,
        alloc,
        Op::Const(Ty::Bv(width), Value::Bv(width, bits)),
        &[],
    )
}

fn bits_sum(
    terms: &mut Terms,
    alloc: Global,
    width: u8,
    a: TermId,
    b: TermId,
) -> Result<TermId, AllocError>
    requires a { a < length terms.old }
    requires b { b < length terms.old }
    requires type_a { type_at terms.old a ≡ Bv width }
    requires type_b { type_at terms.old b ≡ Bv width }
    ensures there { IfOk result (λ t. t < length terms.new) }
    ensures ty { IfOk result (λ t. type_at terms.new t ≡ Bv width) }
    ensures keeps { OnOk result (Keeps terms.old terms.new) }
{
    made(terms, alloc, Op::BvAdd, &[a, b])
}

/// A symbol, one, and the sum of both.
fn symbol_and_sum(terms: &mut Terms, alloc: Global) -> Result<(TermId, TermId, TermId), AllocError>
    ensures symbol { IfOk result (λ r. r.0 < length terms.new) }
    ensures sum { IfOk result (λ r. r.2 < length terms.new) }
    ensures keeps { OnOk result (Keeps terms.old terms.new) }
{
    let symbol = bits_symbol(terms, alloc, 0, 4)?;
    let one = bits_constant(terms, alloc, 4, 1)?;
    let sum = bits_sum(terms, alloc, 4, symbol, one)?;
    Ok((symbol, one, sum))
}

/// Whether the sum is 0 where the symbol is 15.
fn sum_wraps(alloc: Global, terms: &Terms, symbol: TermId, sum: TermId) -> Result<bool, LinearError>
    requires symbol { symbol < length terms.now }
    requires sum { sum < length terms.now }
{
    let model = model_of(alloc, vec![in alloc; Value::Bv(4, 15)]?);
    let values = eval_all(alloc, terms, &[sum, symbol], &model)?;
    Ok(values.as_slice() == [Value::Bv(4, 0), Value::Bv(4, 15)].as_slice())
}

fn check_sum(rt: &impl Abort, alloc: Global, terms: &mut Terms) -> Result<(), LinearError> {
    let (symbol, one, sum) = symbol_and_sum(terms, alloc)?;
    let again = bits_constant(terms, alloc, 4, 1)?;
    assert!(rt; one.number() == 1);
    assert!(rt; again.number() == 1);
    assert!(rt; terms.len() == 3);
    assert!(rt; sum_wraps(alloc, terms, symbol, sum)?);
    Ok(())
}

#[test]
fn a_sum_of_bits_wraps_and_equal_terms_are_shared(rt: HostRuntime) -> Result<(), Fail> {
    let alloc = rt.alloc();
    let mut terms = Terms::new(alloc)?;
    check_sum(&rt, alloc, &mut terms)?;
    Ok(())
}
