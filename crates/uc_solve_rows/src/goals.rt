//! Goals over bit-vectors.

ghost use Rattle.std.specs.Prelude.{◌≡◌, ◌<◌, length, IfOk};
ghost use Rattle.uc_values.specs.declared.ty.Ty.TheVariants.{Bool};
ghost use Rattle.uc_ops.specs.Typing.{type_at};

use crate::building::{bits, made, symbol};
use crate::solving::{Outcome, solved};
use std::alloc::{AllocError, Global};
use uc_terms::{Op, TermId, Terms};
use uc_values::Ty;

/// `x == 3bv4`, with as much budget as x has values.
#[tactic(auto, using(crate::proofs::Suiting::valid_bits))]
pub(crate) fn third(alloc: Global) -> Result<Outcome, AllocError> {
    let mut terms = Terms::new(alloc)?;
    let x = symbol(&mut terms, alloc, 0, Ty::Bv(4))?;
    let three = bits(&mut terms, alloc, 4, 3)?;
    let goal = made(&mut terms, alloc, Op::Eq, &[x, three])?;
    solved(alloc, &mut terms, goal, 16)
}

/// Two symbols whose product is not the same the other way round.
#[tactic(auto, using(crate::proofs::Suiting::valid_bits))]
fn products_differ(terms: &mut Terms, alloc: Global) -> Result<TermId, AllocError>
    ensures there { IfOk result (λ t. t < length terms.new) }
    ensures ty { IfOk result (λ t. type_at terms.new t ≡ Bool) }
{
    let x = symbol(terms, alloc, 0, Ty::Bv(3))?;
    let y = symbol(terms, alloc, 1, Ty::Bv(3))?;
    let left = made(terms, alloc, Op::BvMul, &[x, y])?;
    let right = made(terms, alloc, Op::BvMul, &[y, x])?;
    let same = made(terms, alloc, Op::Eq, &[left, right])?;
    let t = made(terms, alloc, Op::Not, &[same])?;
    Ok(t)
}

/// A product that is not the same the other way round.
pub(crate) fn turned_product(alloc: Global) -> Result<Outcome, AllocError> {
    let mut terms = Terms::new(alloc)?;
    let goal = products_differ(&mut terms, alloc)?;
    solved(alloc, &mut terms, goal, 64)
}

/// A symbol whose square is 3.
#[tactic(auto, using(crate::proofs::Suiting::valid_bits))]
fn has_square_three(terms: &mut Terms, alloc: Global) -> Result<TermId, AllocError>
    ensures there { IfOk result (λ t. t < length terms.new) }
    ensures ty { IfOk result (λ t. type_at terms.new t ≡ Bool) }
{
    let x = symbol(terms, alloc, 0, Ty::Bv(8))?;
    let three = bits(terms, alloc, 8, 3)?;
    let square = made(terms, alloc, Op::BvMul, &[x, x])?;
    let t = made(terms, alloc, Op::Eq, &[square, three])?;
    Ok(t)
}

/// A square of 8 bits that is 3, which no number has, since a square of an odd number leaves 1 by 8.
pub(crate) fn square_is_three(alloc: Global) -> Result<Outcome, AllocError> {
    let mut terms = Terms::new(alloc)?;
    let goal = has_square_three(&mut terms, alloc)?;
    solved(alloc, &mut terms, goal, 256)
}
