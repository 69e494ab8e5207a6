//! Terms that are not lowered.

ghost use Rattle.std.specs.Prelude.{◌≡◌};

use crate::building::{made, symbol};
use crate::passing::{Outcome, passed};
use std::alloc::Global;
use std::test::Fail;
use uc_terms::{Op, Terms};
use uc_values::Ty;

/// An integer has infinitely many values.
#[tactic(auto, using(crate::proofs::Suiting::valid_integer))]
pub(crate) fn integers(alloc: Global) -> Result<Outcome, Fail> {
    let mut terms = Terms::new(alloc)?;
    let x = symbol(&mut terms, alloc, 0, Ty::Int)?;
    let t = made(&mut terms, alloc, Op::Le, &[x, x])?;
    passed(alloc, &mut terms, t, &[])
}

/// A function of a symbol is applied.
#[tactic(auto, using(crate::proofs::Suiting::valid_bits, crate::proofs::Suiting::test_suits))]
pub(crate) fn function(alloc: Global) -> Result<Outcome, Fail> {
    let mut terms = Terms::new(alloc)?;
    let s = symbol(&mut terms, alloc, 0, Ty::Bv(2))?;
    let t = made(&mut terms, alloc, Op::App(0, Ty::Bool), &[s])?;
    passed(alloc, &mut terms, t, &[])
}

/// One number is that of a boolean and of a bit-vector.
#[tactic(auto, using(crate::proofs::Suiting::valid_bits, crate::proofs::Suiting::valid_truth))]
pub(crate) fn two_types(alloc: Global) -> Result<Outcome, Fail> {
    let mut terms = Terms::new(alloc)?;
    let s = symbol(&mut terms, alloc, 0, Ty::Bv(2))?;
    let p = symbol(&mut terms, alloc, 0, Ty::Bool)?;
    let same = made(&mut terms, alloc, Op::Eq, &[s, s])?;
    let t = made(&mut terms, alloc, Op::Eq, &[p, same])?;
    passed(alloc, &mut terms, t, &[])
}
