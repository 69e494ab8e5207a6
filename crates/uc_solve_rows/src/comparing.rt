//! An operation on symbols, blasted and evaluated under every model of its symbols.

ghost use Rattle.std.specs.Prelude.{◌≡◌, ◌<◌, ◌≤◌, true, length, All, IfOk};
ghost use Rattle.uc_ops.specs.Typing.{Suits, type_at, type_of};
ghost use Rattle.uc_values.specs.declared.ty.Ty.TheVariants.{Bool as boolean};
ghost use Rattle.uc_blast.specs.Words.{is_bits};
ghost use Rattle.uc_solve_rows.specs.Low.{IsFine, IsLow};

use crate::evaluating::agrees;
use crate::low_terms::{made, symbol, symbols};
use std::alloc::{AllocError, Global};
use std::test::Fail;
use uc_blast::blast;
use uc_items::Items;
use uc_linear::LinearError;
use uc_log::Problem;
use uc_terms::{Model, Op, TermId, Terms};
use uc_values::{Ty, Value};

/// Whether the circuit of an operation on symbols of these types has the value of the term under every model. A bit-vector is
/// compared with one symbol more.
pub(crate) fn agrees_everywhere(alloc: Global, op: Op, types: &[Ty]) -> Result<bool, Fail>
    requires fine { All IsFine types.now }
    requires few { length types.now ≤ 3 }
    requires suits { Suits op types.now }
    requires bits { is_bits (type_of op types.now) ≡ true }
{
    let mut terms = Terms::new(alloc)?;
    agrees_among(alloc, &mut terms, op, types)
}

/// Whether it has where its term is made among these.
fn agrees_among(alloc: Global, terms: &mut Terms, op: Op, types: &[Ty]) -> Result<bool, Fail>
    requires fine { All IsFine types.now }
    requires few { length types.now ≤ 3 }
    requires suits { Suits op types.now }
    requires bits { is_bits (type_of op types.now) ≡ true }
{
    let t = applied(alloc, terms, op, types)?;
    match terms.ty(t) {
        Ty::Bool => agrees_under_all(alloc, terms, t, types, None),
        Ty::Bv(wide) => {
            let wide = *wide;
            let other = symbol(terms, alloc, types.len() as u32, Ty::Bv(wide))?;
            let same = made(terms, alloc, Op::Eq, &[t, other])?;
            agrees_under_all(alloc, terms, same, types, Some(wide))
        }
        _ => Ok(false),
    }
}

/// The operation on symbols of these types.
fn applied(alloc: Global, terms: &mut Terms, op: Op, types: &[Ty]) -> Result<TermId, AllocError>
    requires fine { All IsFine types.now }
    requires few { length types.now ≤ 3 }
    requires suits { Suits op types.now }
    requires bits { is_bits (type_of op types.now) ≡ true }
    ensures { IfOk result (λ t. IsLow terms.new t) }
{
    let parts = symbols(terms, alloc, types)?;
    let t = made(terms, alloc, op, parts.as_slice())?;
    Ok(t)
}

/// Whether it has under all values of symbols of these types, and of one bit-vector more where there is one.
fn agrees_under_all(
    alloc: Global,
    terms: &Terms,
    t: TermId,
    types: &[Ty],
    more: Option<u8>,
) -> Result<bool, Fail>
    requires low { IsLow terms.now t }
    requires boolean { type_at terms.now t ≡ boolean }
{
    let problem = blast(alloc, terms, t)?;
    for bits in 0..1u64 << (whole_width(types, more) % 64) {
        if !agrees_under(alloc, terms, t, &problem, types, more, bits)? {
            return Ok(false);
        }
    }
    Ok(true)
}

/// How many bits the values of all types and of the bit-vector have.
fn whole_width(types: &[Ty], more: Option<u8>) -> u8 {
    let mut width = more.unwrap_or(0);
    for ty in types {
        width = width.wrapping_add(width_of(ty));
    }
    width
}

/// Whether it has under the model that these bits give.
fn agrees_under(
    alloc: Global,
    terms: &Terms,
    t: TermId,
    problem: &Problem,
    types: &[Ty],
    more: Option<u8>,
    bits: u64,
) -> Result<bool, LinearError>
    requires { t < length terms.now }
{
    let model = model_of(alloc, types, more, bits)?;
    agrees(alloc, terms, t, problem, &model)
}

/// How many bits the values of the type have.
fn width_of(ty: &Ty) -> u8 {
    match ty {
        Ty::Bv(width) => *width,
        _ => 1,
    }
}

/// The lowest bits of a number.
fn lowest(bits: u64, width: u8) -> u64 {
    bits & (1u64 << (width % 64)).wrapping_sub(1)
}

/// The value of the type that the lowest bits give.
fn value_of(ty: &Ty, bits: u64) -> Value {
    match ty {
        Ty::Bv(width) => Value::Bv(*width, lowest(bits, *width)),
        _ => Value::Bool(bits & 1 == 1),
    }
}

/// The model that these bits give to the symbols, the first one from the lowest bits. It has no functions.
fn model_of(alloc: Global, types: &[Ty], more: Option<u8>, bits: u64) -> Result<Model, AllocError> {
    let mut values = Vec::new(alloc);
    let mut rest = bits;
    for ty in types {
        values.push(value_of(ty, rest))?;
        rest >>= width_of(ty) % 64;
    }
    if let Some(width) = more {
        values.push(Value::Bv(width, lowest(rest, width)))?;
    }
    Ok(Model {
        symbols: Items::from_vec(values),
        tables: Items::new(alloc),
    })
}
